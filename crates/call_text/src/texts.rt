// The text of each call: its name, its numbers and its flags, with one space between words. It stands
// here, in newtypes, since the crates of the calls and of their parts know no `Hex`.
ghost use Rattle.std.specs.Prelude.{◌≡◌, ◌++◌, Some, string_bytes, OnOk};
ghost use Rattle.call_text.specs.Texts.{call_text, input_text, output_text, port_text, purge_name, row_text, search_text, set_up_text, walk_name};

use life::{Call, PortCall, RowCall, SetUpCall, WalkCall};
use registers::{InputStep, OutputStep};
use std::alloc::AllocError;
use std::fmt;
use table::{Purge, Search};
use tokens::{Hex, word_if};

#[derive(Clone, Copy)]
pub struct CallText(pub Call);

#[derive(Clone, Copy)]
struct RowText(RowCall);

#[derive(Clone, Copy)]
pub struct SearchText(pub Search);

#[derive(Clone, Copy)]
struct SetUpText(SetUpCall);

// A step of the input port as text.
#[derive(Clone, Copy)]
pub struct InputStepText(pub InputStep);

// A step of the output port as text.
#[derive(Clone, Copy)]
pub struct OutputStepText(pub OutputStep);

#[derive(Clone, Copy)]
struct PortText(PortCall);

// The words of a listing, here and in `walk_name`; the program has others, so neither is a `Display`.
fn purge_name(kind: Purge) -> &'static str
    ensures answer { result.now ≡ purge_name kind }
{
    match kind {
        Purge::All => "all",
        Purge::WithAccess => "with-access",
        Purge::WithoutAccess => "without-access",
    }
}

impl fmt::Display for RowText {
    ghost output = { λ x. Some (row_text x.0) };

    fn fmt<W: fmt::Write>(&self, f: &mut fmt::Formatter<W>) -> fmt::Result {
        match self.0 {
            RowCall::Read { row, segment } => write!(f, "read {row} {segment}"),
            RowCall::Write { row, segment, word } => {
                write!(f, "write {row} {segment} {}", Hex(word))
            }
            RowCall::Marks { row } => write!(f, "marks {row}"),
            RowCall::SetMarks { row, marking } => write!(f, "set-marks {row} {marking}"),
            RowCall::ReadAtHit { segment } => write!(f, "read-hit {segment}"),
            RowCall::WriteAtHit { segment, word } => {
                write!(f, "write-hit {segment} {}", Hex(word))
            }
            RowCall::ReadAtEmpty { segment } => write!(f, "read-empty {segment}"),
            RowCall::WriteAtEmpty { segment, word } => {
                write!(f, "write-empty {segment} {}", Hex(word))
            }
            RowCall::Append => f.write_str("append"),
            RowCall::Purge(kind) => write!(f, "purge {}", purge_name(kind)),
            RowCall::ClearAccess => f.write_str("clear-access"),
            RowCall::Reset => f.write_str("reset"),
        }
    }
}

impl fmt::Display for SearchText {
    ghost output = { λ x. Some (search_text x.0) };

    fn fmt<W: fmt::Write>(&self, f: &mut fmt::Formatter<W>) -> fmt::Result {
        let key = Hex(self.0.key);
        let mask = Hex(self.0.mask);
        let segment = self.0.segment;
        let head = word_if(self.0.head, " head");
        let access = word_if(self.0.access, " access");
        write!(f, "search {key} {mask} {segment}{head}{access}")
    }
}

fn walk_name(call: WalkCall) -> &'static str
    ensures answer { result.now ≡ walk_name call }
{
    match call {
        WalkCall::Rewind => "rewind",
        WalkCall::NextHit => "next-hit",
        WalkCall::FindEmpty => "find-empty",
        WalkCall::NextEmpty => "next-empty",
        WalkCall::Registers => "registers",
    }
}

impl fmt::Display for InputStepText {
    ghost output = { λ x. Some (input_text x.0) };

    fn fmt<W: fmt::Write>(&self, f: &mut fmt::Formatter<W>) -> fmt::Result {
        let mask = Hex(self.0.mask);
        let shift = self.0.shift;
        let segment = self.0.segment;
        let head = word_if(self.0.head, " head");
        let access = word_if(self.0.access, " access");
        let end = word_if(self.0.end, " end");
        write!(f, "{mask} {shift} {segment}{head}{access}{end}")
    }
}

impl fmt::Display for OutputStepText {
    ghost output = { λ x. Some (output_text x.0) };

    fn fmt<W: fmt::Write>(&self, f: &mut fmt::Formatter<W>) -> fmt::Result {
        let OutputStep { item, end } = self.0;
        write!(f, "{item}{}", word_if(end, " end"))
    }
}

impl fmt::Display for SetUpText {
    ghost output = { λ x. Some (set_up_text x.0) };

    fn fmt<W: fmt::Write>(&self, f: &mut fmt::Formatter<W>) -> fmt::Result {
        match self.0 {
            SetUpCall::InputStep { channel, step, to } => {
                write!(f, "set-input {channel} {step} {}", InputStepText(to))
            }
            SetUpCall::OutputStep { channel, step, to } => {
                write!(f, "set-output {channel} {step} {}", OutputStepText(to))
            }
            SetUpCall::Blocks {
                channel,
                take,
                start,
            } => { write!(f, "set-blocks {channel} {} {}", Hex(take), Hex(start)) }
            SetUpCall::BlockWidth { bits } => write!(f, "set-width {bits}"),
        }
    }
}

impl fmt::Display for PortText {
    ghost output = { λ x. Some (port_text x.0) };

    fn fmt<W: fmt::Write>(&self, f: &mut fmt::Formatter<W>) -> fmt::Result {
        match self.0 {
            PortCall::StartInput { channel, step } => write!(f, "start-input {channel} {step}"),
            PortCall::StartOutput { channel, step } => write!(f, "start-output {channel} {step}"),
            PortCall::Stop => f.write_str("stop"),
            PortCall::Block { value } => write!(f, "block {}", Hex(value)),
            PortCall::Word => f.write_str("word"),
        }
    }
}

impl fmt::Display for CallText {
    ghost output = { λ x. Some (call_text x.0) };

    fn fmt<W: fmt::Write>(&self, f: &mut fmt::Formatter<W>) -> fmt::Result {
        match self.0 {
            Call::OnRow(call) => write!(f, "{}", RowText(call)),
            Call::Search(query) => write!(f, "{}", SearchText(query)),
            Call::OnWalk(call) => f.write_str(walk_name(call)),
            Call::OnSetUp(call) => write!(f, "{}", SetUpText(call)),
            Call::OnPort(call) => write!(f, "{}", PortText(call)),
        }
    }
}

// Appends the text of a call.
pub fn write_call(out: &mut String, call: Call) -> Result<(), AllocError>
    ensures bytes { OnOk result (string_bytes out.new ≡ string_bytes out.old ++ call_text call) }
{
    write!(out, "{}", CallText(call))
}
