// Registers by their names.
use register_text::Register;
use std::fmt;
use tokens::{Cursor, Expected, TextFault};

// A register as it is named in a listing.
#[derive(Clone, Copy)]
pub struct RegisterName(pub Register);

impl fmt::Display for RegisterName {
    fn fmt<W: fmt::Write>(&self, f: &mut fmt::Formatter<W>) -> fmt::Result {
        match self.0 {
            Register::HitAddress => f.write_str("hit-address"),
            Register::EmptyAddress => f.write_str("empty-address"),
            Register::Hit => f.write_str("hit"),
            Register::Several => f.write_str("several"),
            Register::Channel => f.write_str("channel"),
            Register::Keys => f.write_str("keys"),
            Register::StepHits => f.write_str("step-hits"),
            Register::Buffers => f.write_str("buffers"),
            Register::Input => f.write_str("input"),
            Register::Output => f.write_str("output"),
            Register::Width => f.write_str("width"),
            Register::Blocks { channel } => write!(f, "blocks {channel}"),
            Register::InputStep { channel, step } => write!(f, "input-step {channel} {step}"),
            Register::OutputStep { channel, step } => write!(f, "output-step {channel} {step}"),
        }
    }
}

// The register that is named next. By `match` as above and by no table of names, since three of them
// take numbers.
pub(crate) fn register(rest: &mut Cursor) -> Result<Register, TextFault> {
    let word = rest.next_word();
    rest.at = word.end;
    Ok(match word.text {
        b"hit-address" => Register::HitAddress,
        b"empty-address" => Register::EmptyAddress,
        b"hit" => Register::Hit,
        b"several" => Register::Several,
        b"channel" => Register::Channel,
        b"keys" => Register::Keys,
        b"step-hits" => Register::StepHits,
        b"buffers" => Register::Buffers,
        b"input" => Register::Input,
        b"output" => Register::Output,
        b"width" => Register::Width,
        b"blocks" => {
            let channel = rest.number()?;
            Register::Blocks { channel }
        }
        b"input-step" => {
            let channel = rest.number()?;
            let step = rest.number()?;
            Register::InputStep { channel, step }
        }
        b"output-step" => {
            let channel = rest.number()?;
            let step = rest.number()?;
            Register::OutputStep { channel, step }
        }
        _ => return Err(word.fault(Expected::Register)),
    })
}
