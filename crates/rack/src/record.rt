// How calls, replies and flags are printed: in words for people. What the program prints was there
// before the text crates and has no hyphens in names; theirs are single words, so that calls can be
// read back. So the words of most calls stand here too.
use answer_text::{AddressText, ReplyText};
use call_text::{InputStepText, OutputStepText, SearchText};
use flags::{FullFlag, HitFlag};
use life::{Answer, Call, PortCall, Reply, RowCall, SetUpCall, WalkCall};
use std::fmt;
use std::fmt::Display;
use table::Purge;
use tokens::Hex;

#[derive(Clone, Copy)]
pub struct CallRecord(pub Call);

#[derive(Clone, Copy)]
pub struct ReplyRecord(pub Reply);

#[derive(Clone, Copy)]
pub struct HitRecord(pub HitFlag);

#[derive(Clone, Copy)]
pub struct FullRecord(pub FullFlag);

fn row_call<W: fmt::Write>(f: &mut fmt::Formatter<W>, call: RowCall) -> fmt::Result {
    match call {
        RowCall::Read { row, segment } => write!(f, "read {row} {segment}"),
        RowCall::Write { row, segment, word } => write!(f, "write {row} {segment} {}", Hex(word)),
        RowCall::Marks { row } => write!(f, "marks {row}"),
        RowCall::SetMarks { row, marking } => write!(f, "set marks {row} {marking}"),
        RowCall::ReadAtHit { segment } => write!(f, "read hit {segment}"),
        RowCall::WriteAtHit { segment, word } => write!(f, "write hit {segment} {}", Hex(word)),
        RowCall::ReadAtEmpty { segment } => write!(f, "read empty {segment}"),
        RowCall::WriteAtEmpty { segment, word } => write!(f, "write empty {segment} {}", Hex(word)),
        RowCall::Append => f.write_str("append"),
        RowCall::Purge(Purge::All) => f.write_str("purge all"),
        RowCall::Purge(Purge::WithAccess) => f.write_str("purge with access"),
        RowCall::Purge(Purge::WithoutAccess) => f.write_str("purge without access"),
        RowCall::ClearAccess => f.write_str("clear access"),
        RowCall::Reset => f.write_str("reset"),
    }
}

fn set_up_call<W: fmt::Write>(f: &mut fmt::Formatter<W>, call: SetUpCall) -> fmt::Result {
    match call {
        SetUpCall::InputStep { channel, step, to } => {
            write!(f, "set input {channel} {step} {}", InputStepText(to))
        }
        SetUpCall::OutputStep { channel, step, to } => {
            write!(f, "set output {channel} {step} {}", OutputStepText(to))
        }
        SetUpCall::Blocks {
            channel,
            take,
            start,
        } => { write!(f, "set blocks {channel} {} {}", Hex(take), Hex(start)) }
        SetUpCall::BlockWidth { bits } => write!(f, "set width {bits}"),
    }
}

fn walk_name(call: WalkCall) -> &'static str {
    match call {
        WalkCall::Rewind => "rewind",
        WalkCall::NextHit => "next hit",
        WalkCall::FindEmpty => "find empty",
        WalkCall::NextEmpty => "next empty",
        WalkCall::Registers => "registers",
    }
}

fn port_call<W: fmt::Write>(f: &mut fmt::Formatter<W>, call: PortCall) -> fmt::Result {
    match call {
        PortCall::StartInput { channel, step } => write!(f, "start input {channel} {step}"),
        PortCall::StartOutput { channel, step } => write!(f, "start output {channel} {step}"),
        PortCall::Stop => f.write_str("stop"),
        PortCall::Block { value } => write!(f, "block {}", Hex(value)),
        PortCall::Word => f.write_str("word"),
    }
}

impl Display for CallRecord {
    fn fmt<W: fmt::Write>(&self, f: &mut fmt::Formatter<W>) -> fmt::Result {
        match self.0 {
            Call::OnRow(call) => row_call(f, call),
            Call::Search(query) => SearchText(query).fmt(f),
            Call::OnWalk(call) => f.write_str(walk_name(call)),
            Call::OnSetUp(call) => set_up_call(f, call),
            Call::OnPort(call) => port_call(f, call),
        }
    }
}

// Of all registers only the two addresses are printed.
impl Display for ReplyRecord {
    fn fmt<W: fmt::Write>(&self, f: &mut fmt::Formatter<W>) -> fmt::Result {
        match self.0 {
            Ok(Answer::Registers(registers)) => {
                let hit = AddressText(registers.found.address);
                let empty = AddressText(registers.empty);
                write!(f, "hit address {hit}, empty address {empty}")
            }
            reply => ReplyText(reply).fmt(f),
        }
    }
}

impl Display for HitRecord {
    fn fmt<W: fmt::Write>(&self, f: &mut fmt::Formatter<W>) -> fmt::Result {
        match self.0 {
            HitFlag::None => f.write_str("no hit so far"),
            HitFlag::One(row) => write!(f, "one hit so far, at {row}"),
            HitFlag::Several(row) => write!(f, "several hits so far, from {row}"),
        }
    }
}

impl Display for FullRecord {
    fn fmt<W: fmt::Write>(&self, f: &mut fmt::Formatter<W>) -> fmt::Result {
        match self.0.first_empty {
            None => f.write_str("full so far"),
            Some(row) => write!(f, "empty at {row}"),
        }
    }
}
