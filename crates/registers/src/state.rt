// All registers of a processor.
ghost use Rattle.std.specs.Prelude.{◌≡◌, Some};
ghost use Rattle.registers.specs.Fresh.{fresh};
ghost use Rattle.registers.specs.Texts.{input_place_text, output_place_text, sequence_output};

use crate::setting::{Channel, SetUp};
use std::fmt;

// The hit address, and whether the latest search hit, and hit more than one row. A walk moves the
// address and leaves the two flags, so they stand beside it: two flags, as the rules list them.
#[derive(Clone, Copy, PartialEq, Eq, Debug, Default)]
pub struct Found {
    pub address: Option<u32>,
    pub hit: bool,
    pub several: bool,
}

// The blocks taken so far: what leaves the top of the accumulation buffer goes into the other one.
#[derive(Clone, Copy, PartialEq, Eq, Debug, Default)]
pub struct Buffers {
    pub accumulation: u32,
    pub sub: u32,
}

// How far a port's sequence of steps is.
#[derive(Clone, Copy, PartialEq, Eq, Debug, Default)]
pub enum Sequence<P> {
    #[default]
    NotStarted,
    Open(P),
    Ended,
}

impl<P: fmt::Display> fmt::Display for Sequence<P> {
    ghost output = { sequence_output P.output };

    fn fmt<W: fmt::Write>(&self, f: &mut fmt::Formatter<W>) -> fmt::Result {
        match self {
            Sequence::NotStarted => f.write_str("not-started"),
            Sequence::Open(place) => place.fmt(f),
            Sequence::Ended => f.write_str("ended"),
        }
    }
}

// The next input step, and the next block since the start.
#[derive(Clone, Copy, PartialEq, Eq, Debug)]
pub struct InputPlace {
    pub step: u32,
    pub block: u32,
}

impl fmt::Display for InputPlace {
    ghost output = { λ x. Some (input_place_text x) };

    fn fmt<W: fmt::Write>(&self, f: &mut fmt::Formatter<W>) -> fmt::Result {
        write!(f, "step {} block {}", self.step, self.block)
    }
}

// The next output step.
#[derive(Clone, Copy, PartialEq, Eq, Debug)]
pub struct OutputPlace {
    pub channel: Channel,
    pub step: u32,
}

impl fmt::Display for OutputPlace {
    ghost output = { λ x. Some (output_place_text x) };

    fn fmt<W: fmt::Write>(&self, f: &mut fmt::Formatter<W>) -> fmt::Result {
        write!(f, "channel {} step {}", self.channel, self.step)
    }
}

// The input port: its channel, the key and the hit of each step, its buffers and its sequence.
// Keys and hits stand apart, since a start clears the hits and keeps the keys.
#[derive(Clone, Copy, PartialEq, Eq, Debug, Default)]
pub struct Input {
    pub channel: Channel,
    pub keys: [u32; 8],
    pub hits: [bool; 8],
    pub buffers: Buffers,
    pub sequence: Sequence<InputPlace>,
}

// `empty` is the empty address, `output` the output port's sequence.
#[derive(Clone, Copy, PartialEq, Eq, Debug, Default)]
pub struct Registers {
    pub found: Found,
    pub empty: Option<u32>,
    pub input: Input,
    pub output: Sequence<OutputPlace>,
    pub setup: SetUp,
}

impl Registers {
    // The registers of a processor that has done nothing.
    pub fn fresh() -> Registers
        ensures answer { result ≡ fresh }
    {
        Registers::default()
    }
}
