// Flags of the members of a table: kinds of flag with their laws, two kinds, and the flags call.
#![tactic(auto)]

mod call;
mod cuts;
mod examples;
mod faults;
mod full;
mod hit;
mod kinds;

pub use call::flags;
pub use cuts::MEMBERS;
pub use examples::{examples_stand, readings_stand};
pub use faults::FlagsFault;
pub use full::FullFlag;
pub use hit::HitFlag;
pub use kinds::{FlagKind, Part};
