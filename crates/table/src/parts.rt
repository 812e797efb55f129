// The plain values that go into a table's calls and come out of them.
ghost use Rattle.std.specs.Prelude.{◌≡◌, List, Some, length};
ghost use Rattle.table.specs.Calls.{on_cell, on_row, on_segment};
ghost use Rattle.table.specs.Row.{Row};
ghost use Rattle.table.specs.Texts.{marking_text, marks_text};

use crate::faults::TableFault;
use std::fmt;

// No table is wider.
pub const MAX_WIDTH: u32 = 8;

// No table is deeper.
pub const MAX_DEPTH: u32 = 262_144;

// The marks of a row. A row that is not empty is valid.
#[derive(Clone, Copy, PartialEq, Eq, Debug)]
pub struct Marks {
    pub empty: bool,
    pub access: bool,
    pub hit: bool,
}

impl fmt::Display for Marks {
    ghost output = { λ x. Some (marks_text x) };

    fn fmt<W: fmt::Write>(&self, f: &mut fmt::Formatter<W>) -> fmt::Result {
        let marking = Marking {
            empty: self.empty,
            access: self.access,
        };
        let hit = if self.hit { " hit" } else { "" };
        write!(f, "{marking}{hit}")
    }
}

// The marks that a caller may give to a row; hits come from searches alone.
#[derive(Clone, Copy, PartialEq, Eq, Debug)]
pub struct Marking {
    pub empty: bool,
    pub access: bool,
}

impl fmt::Display for Marking {
    ghost output = { λ x. Some (marking_text x) };

    // Not by `tokens::word_if`: this crate is built on none.
    fn fmt<W: fmt::Write>(&self, f: &mut fmt::Formatter<W>) -> fmt::Result {
        let state = if self.empty { "empty" } else { "valid" };
        let access = if self.access { " access" } else { "" };
        write!(f, "{state}{access}")
    }
}

// How wide a table is, in segments, and how deep, in rows.
#[derive(Clone, Copy, PartialEq, Eq, Debug)]
pub struct Shape {
    pub width: u32,
    pub depth: u32,
}

// Whether a table of this shape has the row or the segment that a call names, or the refusal.
#[tactic(auto, unfolding(crate::specs::Calls::on_cell, crate::specs::Calls::on_row, crate::specs::Calls::on_segment))]
impl Shape {
    pub fn check_row(self, row: u32) -> Result<(), TableFault>
        ensures answer { (rows : List Row) → length rows ≡ self.depth → result ≡ on_row rows row tt }
    {
        if row < self.depth {
            Ok(())
        } else {
            Err(TableFault::Row(row))
        }
    }

    pub fn check_segment(self, segment: u32) -> Result<(), TableFault>
        ensures answer { result ≡ on_segment self.width segment tt }
    {
        if segment < self.width {
            Ok(())
        } else {
            Err(TableFault::Segment(segment))
        }
    }

    // The row is checked before the segment.
    pub fn check_cell(self, row: u32, segment: u32) -> Result<(), TableFault>
        ensures answer { (rows : List Row) → length rows ≡ self.depth → result ≡ on_cell self.width rows row segment tt }
    {
        self.check_row(row)?;
        self.check_segment(segment)
    }
}

// One comparison of a key with a segment of every row. A mask bit of 1 is not compared. With
// `head` the search begins a group; without it only rows that still have the hit mark can hit.
// With `access` each row that hits gets the access mark.
#[derive(Clone, Copy, PartialEq, Eq, Debug)]
pub struct Search {
    pub key: u32,
    pub mask: u32,
    pub segment: u32,
    pub head: bool,
    pub access: bool,
}

// Which valid rows a purge makes empty.
#[derive(Clone, Copy, PartialEq, Eq, Debug)]
pub enum Purge {
    All,
    WithAccess,
    WithoutAccess,
}
