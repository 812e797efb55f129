// Every call of a processor as a value, every answer, and the reply to a call.
use crate::faults::Fault;
use ports::BlockAnswer;
use registers::{InputStep, OutputStep, Registers};
use table::{Marking, Marks, Purge, Search};

// Reads and changes rows.
#[derive(Clone, Copy, PartialEq, Eq, Debug)]
pub enum RowCall {
    Read { row: u32, segment: u32 },
    Write { row: u32, segment: u32, word: u32 },
    Marks { row: u32 },
    SetMarks { row: u32, marking: Marking },
    ReadAtHit { segment: u32 },
    WriteAtHit { segment: u32, word: u32 },
    ReadAtEmpty { segment: u32 },
    WriteAtEmpty { segment: u32, word: u32 },
    Append,
    Purge(Purge),
    ClearAccess,
    Reset,
}

// Moves an address, or reads the registers.
#[derive(Clone, Copy, PartialEq, Eq, Debug)]
pub enum WalkCall {
    Rewind,
    NextHit,
    FindEmpty,
    NextEmpty,
    Registers,
}

// Sets up the ports. Channel, step and bits are plain numbers: a wrong one is a call too, and is refused.
#[derive(Clone, Copy, PartialEq, Eq, Debug)]
pub enum SetUpCall {
    InputStep {
        channel: u32,
        step: u32,
        to: InputStep,
    },
    OutputStep {
        channel: u32,
        step: u32,
        to: OutputStep,
    },
    Blocks {
        channel: u32,
        take: u64,
        start: u64,
    },
    BlockWidth {
        bits: u32,
    },
}

// Runs the ports.
#[derive(Clone, Copy, PartialEq, Eq, Debug)]
pub enum PortCall {
    StartInput { channel: u32, step: u32 },
    StartOutput { channel: u32, step: u32 },
    Stop,
    Block { value: u32 },
    Word,
}

#[derive(Clone, Copy, PartialEq, Eq, Debug)]
pub enum Call {
    OnRow(RowCall),
    Search(Search),
    OnWalk(WalkCall),
    OnSetUp(SetUpCall),
    OnPort(PortCall),
}

#[derive(Clone, Copy, PartialEq, Eq, Debug)]
pub enum Answer {
    Done,
    Word(u32),
    Marks(Marks),
    Address(Option<u32>),
    Registers(Registers),
    Block(BlockAnswer),
}

// What a call comes to: its answer, or the refusal of a layer.
pub type Reply = Result<Answer, Fault>;
