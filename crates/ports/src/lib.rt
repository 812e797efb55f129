// The ports of an address processor: telegrams come in as blocks, results go out as words.
#![tactic(auto)]

mod buffers;
mod faults;
mod input;
mod output;

pub use faults::{AtStep, PortFault};
pub use input::{BlockAnswer, block, sequences_end};
pub use output::word;
