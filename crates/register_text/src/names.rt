// A register by its name, and what it holds.
use registers::{
    BlockWidth, Buffers, Channel, InputPlace, InputStep, OutputPlace, OutputStep, Sequence,
};

// One register. The blocks are named by a channel's number, a step by a channel's and its own.
#[derive(Clone, Copy, PartialEq, Eq, Debug)]
pub enum Register {
    HitAddress,
    EmptyAddress,
    Hit,
    Several,
    Channel,
    Keys,
    StepHits,
    Buffers,
    Input,
    Output,
    Width,
    Blocks { channel: u32 },
    InputStep { channel: u32, step: u32 },
    OutputStep { channel: u32, step: u32 },
}

// What a register holds.
#[derive(Clone, Copy, PartialEq, Eq, Debug)]
pub enum Told {
    Address(Option<u32>),
    Flag(bool),
    Channel(Channel),
    Keys([u32; 8]),
    StepHits([bool; 8]),
    Buffers(Buffers),
    Input(Sequence<InputPlace>),
    Output(Sequence<OutputPlace>),
    Width(BlockWidth),
    Blocks { take: u64, start: u64 },
    InputStep(InputStep),
    OutputStep(OutputStep),
}
