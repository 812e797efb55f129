// The answer of any call of a processor as text.
ghost use Rattle.std.specs.Prelude.{Some};
ghost use Rattle.answer_text.specs.Calls.{answer_text, reply_text};

use crate::addresses::AddressText;
use crate::faults::FaultText;
use life::{Answer, Reply};
use std::fmt;
use std::fmt::Display;
use tokens::Hex;

// All registers together are told one by one elsewhere; here they are only said to be told.
#[derive(Clone, Copy)]
pub struct AnswerText(pub Answer);

impl fmt::Display for AnswerText {
    ghost output = { λ x. Some (answer_text x.0) };

    fn fmt<W: fmt::Write>(&self, f: &mut fmt::Formatter<W>) -> fmt::Result {
        match self.0 {
            Answer::Done => f.write_str("done"),
            Answer::Word(word) => Hex(word).fmt(f),
            Answer::Marks(marks) => marks.fmt(f),
            Answer::Address(address) => AddressText(address).fmt(f),
            Answer::Registers(_) => f.write_str("told"),
            Answer::Block(answer) => answer.fmt(f),
        }
    }
}

// What a call comes to: its answer, or its refusal.
#[derive(Clone, Copy)]
pub struct ReplyText(pub Reply);

impl fmt::Display for ReplyText {
    ghost output = { λ x. Some (reply_text x.0) };

    fn fmt<W: fmt::Write>(&self, f: &mut fmt::Formatter<W>) -> fmt::Result {
        match self.0 {
            Ok(answer) => AnswerText(answer).fmt(f),
            Err(fault) => FaultText(fault).fmt(f),
        }
    }
}
