// The registers of a processor, one at a time, and what each says as text.
#![tactic(auto)]

mod names;
mod parts;
mod telling;
mod told;

pub use names::{Register, Told};
pub use telling::tell;
pub use told::ToldText;
