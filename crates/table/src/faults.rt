// What a table refuses, with the number of each refusal and the place where it is found.
ghost use Rattle.std.specs.Prelude.{◌≡◌, ℕ, Some};
ghost use Rattle.table.specs.Faults.{number_of, place_of};
ghost use Rattle.table.specs.Texts.{place_text};
ghost use Rattle.table.specs.declared.faults.Place.{Place};

use std::fmt;

// Where a refusal is found.
#[derive(Clone, Copy, PartialEq, Eq, Debug)]
pub enum Place {
    Opening,
    Table,
    Command,
    SetUp,
    Start,
    Port,
    Flags,
}

impl fmt::Display for Place {
    ghost output = { λ x. Some (place_text x) };

    fn fmt<W: fmt::Write>(&self, f: &mut fmt::Formatter<W>) -> fmt::Result {
        match self {
            Place::Opening => f.write_str("opening"),
            Place::Table => f.write_str("table"),
            Place::Command => f.write_str("command"),
            Place::SetUp => f.write_str("set-up"),
            Place::Start => f.write_str("start"),
            Place::Port => f.write_str("port"),
            Place::Flags => f.write_str("flags"),
        }
    }
}

// What every layer's refusals have: a number in the one list of refusals, and the place where the
// refusal is found.
pub trait Refusal: Copy {
    ghost numbered: { Self → ℕ };

    ghost found_at: { Self → Place };

    fn number(self) -> u32
        ensures answer { result ≡ numbered self };

    fn place(self) -> Place
        ensures answer { result ≡ found_at self };
}

// A table's refusal, with the row or the segment that was asked for.
#[derive(Clone, Copy, PartialEq, Eq, Debug)]
pub enum TableFault {
    Row(u32),
    Segment(u32),
}

impl Refusal for TableFault {
    ghost numbered = { number_of };

    ghost found_at = { place_of };

    fn number(self) -> u32 {
        match self {
            TableFault::Row(_) => 3,
            TableFault::Segment(_) => 4,
        }
    }

    fn place(self) -> Place {
        match self {
            TableFault::Row(_) | TableFault::Segment(_) => Place::Table,
        }
    }
}
