// What a register holds as text.
ghost use Rattle.std.specs.Prelude.{Some};
ghost use Rattle.register_text.specs.ToldTexts.{said_text, told_text};

use crate::names::Told;
use crate::parts::Part;
use answer_text::AddressText;
use call_text::{InputStepText, OutputStepText};
use std::fmt;
use std::fmt::Display;
use tokens::Hex;

impl fmt::Display for Told {
    ghost output = { λ x. Some (told_text x) };

    fn fmt<W: fmt::Write>(&self, f: &mut fmt::Formatter<W>) -> fmt::Result {
        match *self {
            Told::Address(address) => AddressText(address).fmt(f),
            Told::Flag(set) => f.write_str(if set { "yes" } else { "no" }),
            Told::Channel(channel) => channel.fmt(f),
            Told::Keys(keys) => keys.write_part(f),
            Told::StepHits(hits) => hits.write_part(f),
            Told::Buffers(buffers) => {
                write!(f, "{} {}", Hex(buffers.accumulation), Hex(buffers.sub))
            }
            Told::Input(sequence) => sequence.fmt(f),
            Told::Output(sequence) => sequence.fmt(f),
            Told::Width(width) => width.fmt(f),
            Told::Blocks { take, start } => write!(f, "{} {}", Hex(take), Hex(start)),
            Told::InputStep(step) => InputStepText(step).fmt(f),
            Told::OutputStep(step) => OutputStepText(step).fmt(f),
        }
    }
}

// What a register holds, or `nothing` where there is no such register.
#[derive(Clone, Copy)]
pub struct ToldText(pub Option<Told>);

impl fmt::Display for ToldText {
    ghost output = { λ x. Some (said_text x.0) };

    fn fmt<W: fmt::Write>(&self, f: &mut fmt::Formatter<W>) -> fmt::Result {
        match self.0 {
            Some(told) => told.fmt(f),
            None => f.write_str("nothing"),
        }
    }
}
