// Calls of a processor as text, and text as calls.
#![tactic(auto)]

mod parts;
mod reading;
mod texts;

pub use reading::read_call;
pub use texts::{CallText, InputStepText, OutputStepText, SearchText, write_call};
