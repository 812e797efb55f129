// Answers of a processor and of a table's questions as text.
#![tactic(auto)]

mod addresses;
mod answers;
mod faults;
mod members;

pub use addresses::AddressText;
pub use answers::{AnswerText, ReplyText};
pub use faults::{Cause, FaultText, refusal_texts};
pub use members::{FullText, HitText};
