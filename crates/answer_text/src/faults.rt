// Refusals as text: number, place, and what each carries.
ghost use Rattle.std.specs.Prelude.{◌≡◌, ℕ, List, Some};
ghost use Rattle.std.specs.Fmt.{WritesOnOk};
ghost use Rattle.answer_text.specs.Faults.{cause_text, command_cause, fault_text, flags_cause, flags_fault_text, port_cause, refusal_text, set_up_cause, start_cause, table_cause};
ghost use Rattle.flags.specs.declared.faults.FlagsFault.{FlagsFault};
ghost use Rattle.life.specs.declared.faults.Fault.{Fault};

use flags::FlagsFault;
use life::Fault;
use ports::PortFault;
use processor::CommandFault;
use registers::{SetUpFault, StartFault};
use std::fmt;
use table::{Refusal, TableFault};

// A refusal that writes what it carries: a space before each word, or nothing. Its types are other
// crates', so it cannot be their `Display`.
pub trait Cause: Refusal {
    ghost cause: { Self → List ℕ };

    fn write_cause<W: fmt::Write>(self, f: &mut fmt::Formatter<W>) -> fmt::Result
        ensures writes { WritesOnOk W.write_str_gives f.old result (cause self) f.new };
}

// The text of any refusal.
#[derive(Clone, Copy)]
pub struct FaultText<F>(pub F);

impl<F: Cause> fmt::Display for FaultText<F> {
    ghost output = { λ x. Some (refusal_text F.numbered F.found_at F.cause x.0) };

    fn fmt<W: fmt::Write>(&self, f: &mut fmt::Formatter<W>) -> fmt::Result {
        write!(f, "refused {} {}", self.0.number(), self.0.place())?;
        self.0.write_cause(f)
    }
}

impl Cause for TableFault {
    ghost cause = { table_cause };

    fn write_cause<W: fmt::Write>(self, f: &mut fmt::Formatter<W>) -> fmt::Result {
        match self {
            TableFault::Row(row) => write!(f, " row {row}"),
            TableFault::Segment(segment) => write!(f, " segment {segment}"),
        }
    }
}

impl Cause for CommandFault {
    ghost cause = { command_cause };

    fn write_cause<W: fmt::Write>(self, f: &mut fmt::Formatter<W>) -> fmt::Result {
        match self {
            CommandFault::NoHitAddress | CommandFault::NoEmptyAddress => Ok(()),
            CommandFault::InTable(fault) => fault.write_cause(f),
        }
    }
}

impl Cause for SetUpFault {
    ghost cause = { set_up_cause };

    fn write_cause<W: fmt::Write>(self, f: &mut fmt::Formatter<W>) -> fmt::Result {
        match self {
            SetUpFault::OutOfRange(number) => write!(f, " number {number}"),
            SetUpFault::SequenceOpen => Ok(()),
        }
    }
}

impl Cause for StartFault {
    ghost cause = { start_cause };

    fn write_cause<W: fmt::Write>(self, f: &mut fmt::Formatter<W>) -> fmt::Result {
        match self {
            StartFault::OutOfRange(number) => write!(f, " number {number}"),
            StartFault::NoHead | StartFault::NoEnd => Ok(()),
        }
    }
}

impl Cause for PortFault {
    ghost cause = { port_cause };

    fn write_cause<W: fmt::Write>(self, f: &mut fmt::Formatter<W>) -> fmt::Result {
        match self {
            PortFault::NotStarted | PortFault::HasEnded => Ok(()),
            PortFault::TooWide(step) | PortFault::BlocksGone(step) => write!(f, " step {step}"),
            PortFault::InCommand(at) => {
                write!(f, " step {}", at.step)?;
                at.fault.write_cause(f)
            }
        }
    }
}

impl Cause for Fault {
    ghost cause = { cause_text };

    fn write_cause<W: fmt::Write>(self, f: &mut fmt::Formatter<W>) -> fmt::Result {
        match self {
            Fault::Command(fault) => fault.write_cause(f),
            Fault::SetUp(fault) => fault.write_cause(f),
            Fault::Start(fault) => fault.write_cause(f),
            Fault::Port(fault) => fault.write_cause(f),
        }
    }
}

impl Cause for FlagsFault {
    ghost cause = { flags_cause };

    fn write_cause<W: fmt::Write>(self, f: &mut fmt::Formatter<W>) -> fmt::Result {
        match self {
            FlagsFault::Length(flags, starts) => write!(f, " flags {flags} starts {starts}"),
            FlagsFault::Starts(starts) => write!(f, " starts {starts}"),
            FlagsFault::Start(member) => write!(f, " member {member}"),
        }
    }
}

// What the one text of refusals says of a processor's calls and of the flags.
pub fn refusal_texts()
    ensures calls { (fault : Fault) → ⟦<FaultText<Fault> as fmt::Display>⟧.output (record { 0 = fault }) ≡ Some (fault_text fault) }
    ensures flags { (fault : FlagsFault) → ⟦<FaultText<FlagsFault> as fmt::Display>⟧.output (record { 0 = fault }) ≡ Some (flags_fault_text fault) }
{}
