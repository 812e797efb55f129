// The words and numbers of a line of text: where they stand, what they say, and how they are written.
#![tactic(auto)]

mod cursor;
mod faults;
mod given;
mod hex;
mod numbers;
mod numeral;
mod words;

pub use cursor::Cursor;
pub use faults::{Expected, TextFault};
pub use given::word_if;
pub use hex::Hex;
pub use numeral::Numeral;
pub use words::{Word, Words};
