// The table: eleven calls, each with its answer and every row after it, on width and rows alone.
ghost use Rattle.std.specs.Prelude.{◌≡◌, ℕ, List, map};
ghost use Rattle.table.specs.Calls.{change, first, granted, marks_at, on_cell, on_row, on_segment, shape_of, word_at};
ghost use Rattle.table.specs.Laws.{Sound};
ghost use Rattle.table.specs.Row.{Row, is_empty, is_hit, marked, purged, searched, unvisited, vacated, written};

use crate::faults::TableFault;
use crate::parts::{Marking, Marks, Purge, Search, Shape};

// Rows are numbered from 0. A call that names a row or a segment checks the row first, then the
// segment, and refuses what lies outside; a refusal changes nothing, and neither does a question. Both
// are plain numbers, since a wrong one is refused by itself; and each call states all that it leaves,
// width and frame too, so that its own clauses are all that a caller reads.
pub trait Table {
    // The meaning of a table: its width in segments, and its rows.
    ghost width: { Self → ℕ };

    ghost rows: { Self → List Row };

    // What each implementation proves of its meaning.
    ghost sound: { (t : Self) → Sound (width t) (rows t) };

    // What a call keeps beyond the meaning, as whose memory a table works on. A table with no
    // lender says nothing here.
    ghost frame: { Self → Self → Type 0 };

    ghost same: { (a : Self) → frame a a };

    ghost chain: { (a b c : Self) → frame a b → frame b c → frame a c };

    fn shape(&self) -> Shape
        ensures answer { result ≡ shape_of (width self.now) (rows self.now) };

    fn read(&self, row: u32, segment: u32) -> Result<u32, TableFault>
        ensures answer { result ≡ on_cell (width self.now) (rows self.now) row segment (word_at (rows self.now) row segment) };

    // Replaces a word. A write on segment 0 also makes the row valid.
    fn write(&mut self, row: u32, segment: u32, word: u32) -> Result<(), TableFault>
        ensures answer { result ≡ on_cell (width self.old) (rows self.old) row segment tt }
        ensures rows { rows self.new ≡ granted result (change row (written segment word) (rows self.old)) (rows self.old) }
        ensures width { width self.new ≡ width self.old }
        ensures frame { frame self.old self.new };

    fn marks(&self, row: u32) -> Result<Marks, TableFault>
        ensures answer { result ≡ on_row (rows self.now) row (marks_at (rows self.now) row) };

    // Gives a row the stated marks, and takes its hit mark away if it is then empty.
    fn set_marks(&mut self, row: u32, marking: Marking) -> Result<(), TableFault>
        ensures answer { result ≡ on_row (rows self.old) row tt }
        ensures rows { rows self.new ≡ granted result (change row (marked marking) (rows self.old)) (rows self.old) }
        ensures width { width self.new ≡ width self.old }
        ensures frame { frame self.old self.new };

    // Compares every row, and leaves the hit mark on those that agree.
    fn search(&mut self, query: Search) -> Result<(), TableFault>
        ensures answer { result ≡ on_segment (width self.old) query.segment tt }
        ensures rows { rows self.new ≡ granted result (map (searched query) (rows self.old)) (rows self.old) }
        ensures width { width self.new ≡ width self.old }
        ensures frame { frame self.old self.new };

    // The smallest row, `from` or later, that has the hit mark.
    fn first_hit(&self, from: u32) -> Option<u32>
        ensures answer { result ≡ first is_hit (rows self.now) from };

    // The smallest row, `from` or later, that is empty.
    fn first_empty(&self, from: u32) -> Option<u32>
        ensures answer { result ≡ first is_empty (rows self.now) from };

    // Makes the valid rows of a kind empty, without access and hit marks.
    fn purge(&mut self, kind: Purge)
        ensures rows { rows self.new ≡ map (purged kind) (rows self.old) }
        ensures width { width self.new ≡ width self.old }
        ensures frame { frame self.old self.new };

    // Takes the access mark from every row.
    fn clear_access(&mut self)
        ensures rows { rows self.new ≡ map unvisited (rows self.old) }
        ensures width { width self.new ≡ width self.old }
        ensures frame { frame self.old self.new };

    // Makes every row empty, without access and hit marks.
    fn reset(&mut self)
        ensures rows { rows self.new ≡ map vacated (rows self.old) }
        ensures width { width self.new ≡ width self.old }
        ensures frame { frame self.old self.new };
}
