// The life of a processor: its calls and answers as values, the working of a list of calls, and the
// law that walks over hits are complete.
#![tactic(auto)]

mod calls;
mod faults;
mod lives;
mod working;

pub use calls::{Answer, Call, PortCall, Reply, RowCall, SetUpCall, WalkCall};
pub use faults::Fault;
pub use lives::work;
pub use working::perform;
