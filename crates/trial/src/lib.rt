// A trial of a rack: two tables joined behind a fence, a list of calls worked on a fresh processor,
// and the flags of the members. The contract of its one call is the whole law.
#![tactic(auto)]

mod trials;

pub use trials::{Trial, run_trial};
