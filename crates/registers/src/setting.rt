// What the ports are set up to do: the steps of each channel, its blocks, and how wide a block is.
ghost use Rattle.std.specs.Prelude.{◌≡◌, ◌<◌, Err, MatchResult, Ok, Some};
ghost use Rattle.registers.specs.Fresh.{fresh_channel};
ghost use Rattle.registers.specs.Setting.{bits_of, channel_from, not_one, numbered, width_from, within};
ghost use Rattle.registers.specs.declared.setting.Item.TheVariants.{Key};
ghost use Rattle.registers.specs.Texts.{channel_text, item_text, width_text};

use crate::faults::{OutOfRange, below};
use std::fmt;

// One of the two programs of a port; channel A has the number 0, channel B the number 1.
#[derive(Clone, Copy, PartialEq, Eq, Debug, Default)]
pub enum Channel {
    #[default]
    A,
    B,
}

impl TryFrom<u32> for Channel {
    type Error = OutOfRange;

    ghost try_from_gives = { λ number r. r ≡ channel_from number };

    fn try_from(number: u32) -> Result<Channel, OutOfRange> {
        match number {
            0 => Ok(Channel::A),
            1 => Ok(Channel::B),
            _ => Err(OutOfRange(number)),
        }
    }
}

// One of the eight steps of a channel, by numbers that were checked.
#[derive(Clone, Copy)]
pub(crate) struct StepAt {
    pub(crate) channel: Channel,
    pub(crate) step: u32,
    ghost within: { step < 8 },
}

impl StepAt {
    // The channel is checked before the step.
    pub(crate) fn new(channel: u32, step: u32) -> Result<StepAt, OutOfRange>
        ensures { MatchResult result (λ at. (channel < 2) × (at.channel ≡ numbered channel) × (at.step ≡ step)) (λ fault. Err fault ≡ within not_one channel 2 (within not_one step 8 (Ok (tt {0})))) }
    {
        let channel = Channel::try_from(channel)?;
        below(step, 8)?;
        Ok(StepAt { channel, step })
    }
}

impl fmt::Display for Channel {
    ghost output = { λ x. Some (channel_text x) };

    fn fmt<W: fmt::Write>(&self, f: &mut fmt::Formatter<W>) -> fmt::Result {
        match self {
            Channel::A => f.write_str("0"),
            Channel::B => f.write_str("1"),
        }
    }
}

// A search of the input port. Its key is cut from the buffers, `shift` bytes further on.
// A step with `end` is the last of its sequence.
#[derive(Clone, Copy, PartialEq, Eq, Debug, Default)]
pub struct InputStep {
    pub mask: u32,
    pub shift: u32,
    pub segment: u32,
    pub head: bool,
    pub access: bool,
    pub end: bool,
}

// What a word of the output port tells: the key of an input step, the status, the hit address,
// or a segment of the row at the hit address.
#[derive(Clone, Copy, PartialEq, Eq, Debug)]
pub enum Item {
    Key(u32),
    Status,
    Address,
    Segment(u32),
}

impl fmt::Display for Item {
    ghost output = { λ x. Some (item_text x) };

    fn fmt<W: fmt::Write>(&self, f: &mut fmt::Formatter<W>) -> fmt::Result {
        match *self {
            Item::Key(i) => write!(f, "key {i}"),
            Item::Status => f.write_str("status"),
            Item::Address => f.write_str("address"),
            Item::Segment(segment) => write!(f, "segment {segment}"),
        }
    }
}

// By hand: a derive knows no default of a variant with a number.
impl Default for Item {
    ghost is_default = { λ x. x ≡ Key 0 };

    fn default() -> Item {
        Item::Key(0)
    }
}

#[derive(Clone, Copy, PartialEq, Eq, Debug, Default)]
pub struct OutputStep {
    pub item: Item,
    pub end: bool,
}

// Bit b of `take` says that block b goes into the buffers, bit b of `start` that a search runs at it.
#[derive(Clone, Copy, PartialEq, Eq, Debug)]
pub struct ChannelSetUp {
    pub inputs: [InputStep; 8],
    pub take: u64,
    pub start: u64,
    pub outputs: [OutputStep; 8],
}

// By hand: a derive promises an array step by step, and from that no proof that all of it is fresh was
// found. (The arrays of `Input` hold numbers and flags, where one was.)
impl Default for ChannelSetUp {
    ghost is_default = { λ x. x ≡ fresh_channel };

    fn default() -> ChannelSetUp {
        ChannelSetUp {
            inputs: [InputStep::default(); 8],
            take: 0,
            start: 0,
            outputs: [OutputStep::default(); 8],
        }
    }
}

// The bits of a block.
#[derive(Clone, Copy, PartialEq, Eq, Debug, Default)]
pub enum BlockWidth {
    Eight,
    Sixteen,
    #[default]
    ThirtyTwo,
}

impl TryFrom<u32> for BlockWidth {
    type Error = OutOfRange;

    ghost try_from_gives = { λ bits r. r ≡ width_from bits };

    fn try_from(bits: u32) -> Result<BlockWidth, OutOfRange> {
        match bits {
            8 => Ok(BlockWidth::Eight),
            16 => Ok(BlockWidth::Sixteen),
            32 => Ok(BlockWidth::ThirtyTwo),
            _ => Err(OutOfRange(bits)),
        }
    }
}

impl From<BlockWidth> for u32 {
    ghost from_gives = { λ width bits. bits ≡ bits_of width };

    fn from(width: BlockWidth) -> u32 {
        match width {
            BlockWidth::Eight => 8,
            BlockWidth::Sixteen => 16,
            BlockWidth::ThirtyTwo => 32,
        }
    }
}

#[tactic(auto, using(crate::proofs::Widths::decimal_bits))]
impl fmt::Display for BlockWidth {
    ghost output = { λ x. Some (width_text x) };

    fn fmt<W: fmt::Write>(&self, f: &mut fmt::Formatter<W>) -> fmt::Result {
        write!(f, "{}", u32::from(*self))
    }
}

#[derive(Clone, Copy, PartialEq, Eq, Debug, Default)]
pub struct SetUp {
    pub a: ChannelSetUp,
    pub b: ChannelSetUp,
    pub width: BlockWidth,
}
