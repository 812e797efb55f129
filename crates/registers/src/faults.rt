// What the set-up and the start of a port refuse.
ghost use Rattle.std.specs.Prelude.{◌≡◌, ltb, if◌then◌else◌, Ok, Err};
ghost use Rattle.registers.specs.Faults.{set_up_number, set_up_place, start_number, start_place};
ghost use Rattle.registers.specs.declared.faults.SetUpFault.TheVariants.{OutOfRange as SetUpRange};
ghost use Rattle.registers.specs.declared.faults.StartFault.TheVariants.{OutOfRange as StartRange};

use table::{Place, Refusal};

// A number that is too large for what it should name.
#[derive(Clone, Copy, PartialEq, Eq, Debug)]
pub struct OutOfRange(pub u32);

// A set-up is refused for a number, or while the port that it is for is in a sequence.
#[derive(Clone, Copy, PartialEq, Eq, Debug)]
pub enum SetUpFault {
    OutOfRange(u32),
    SequenceOpen,
}

// A start is refused for a number, for a first input step that does not begin a group of searches,
// or for steps that never end.
#[derive(Clone, Copy, PartialEq, Eq, Debug)]
pub enum StartFault {
    OutOfRange(u32),
    NoHead,
    NoEnd,
}

impl From<OutOfRange> for SetUpFault {
    ghost from_gives = { λ t r. r ≡ SetUpRange t.0 };

    fn from(fault: OutOfRange) -> SetUpFault {
        SetUpFault::OutOfRange(fault.0)
    }
}

impl From<OutOfRange> for StartFault {
    ghost from_gives = { λ t r. r ≡ StartRange t.0 };

    fn from(fault: OutOfRange) -> StartFault {
        StartFault::OutOfRange(fault.0)
    }
}

pub(crate) fn below(number: u32, limit: u32) -> Result<(), OutOfRange>
    ensures answer { result ≡ (if ltb number limit then Ok tt else Err (record { 0 = number })) }
{
    if number < limit {
        Ok(())
    } else {
        Err(OutOfRange(number))
    }
}

impl Refusal for SetUpFault {
    ghost numbered = { set_up_number };

    ghost found_at = { set_up_place };

    fn number(self) -> u32 {
        match self {
            SetUpFault::OutOfRange(_) => 7,
            SetUpFault::SequenceOpen => 8,
        }
    }

    fn place(self) -> Place {
        Place::SetUp
    }
}

impl Refusal for StartFault {
    ghost numbered = { start_number };

    ghost found_at = { start_place };

    fn number(self) -> u32 {
        match self {
            StartFault::OutOfRange(_) => 7,
            StartFault::NoHead => 9,
            StartFault::NoEnd => 10,
        }
    }

    fn place(self) -> Place {
        Place::Start
    }
}
