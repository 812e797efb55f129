// An address processor over any table: its row calls, its searches, and the walks over hits and empty rows.
#![tactic(auto)]

mod faults;
mod processors;
mod rows;
mod walks;

pub use faults::CommandFault;
pub use processors::Processor;
