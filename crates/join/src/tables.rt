// A join is a table, over every two tables.
ghost use Rattle.std.specs.Prelude.{◌≡◌, ◌+◌, Bool, List, min, length};
ghost use Rattle.std.specs.Option.{option_map};
ghost use Rattle.table.specs.Calls.{first, on_cell, on_row};
ghost use Rattle.table.specs.Questions.{TellsFirst};
ghost use Rattle.table.specs.Row.{Row};
ghost use Rattle.join.specs.Joined.{Uncut, joined_rows, joined_width, seat_of, within};
ghost use Rattle.join.specs.Sound.{joined_sound};

use crate::joins::{Join, Seat};
use table::{MAX_DEPTH, Marking, Marks, Purge, Search, Shape, Table, TableFault};

// The shape of a join of two tables of these shapes.
fn together(upper: Shape, lower: Shape) -> Shape
    ensures answer { result ≡ record { width = min upper.width lower.width; depth = min 262144 (upper.depth + lower.depth) } }
{
    Shape {
        width: upper.width.min(lower.width),
        depth: MAX_DEPTH.min(upper.depth.saturating_add(lower.depth)),
    }
}

// The number in the join of a row that the lower table named, if the join has that row.
fn below(border: u32, found: Option<u32>) -> Option<u32>
    ensures answer { result ≡ within 262144 (option_map (λ row. border + row) found) }
{
    found
        .and_then(|row| border.checked_add(row))
        .filter(|row| *row < MAX_DEPTH)
}

// Where a row lies in a join, of which the upper table has the first `border` rows.
fn seat(border: u32, row: u32) -> Seat
    ensures answer { result ≡ seat_of border row }
{
    if row < border {
        Seat::Upper(row)
    } else {
        Seat::Lower(row - border)
    }
}

impl<U: Table, L: Table> Join<U, L> {
    // Which of the two tables holds a row, if the join has it.
    fn holder(&self, row: u32) -> Result<Seat, TableFault>
        ensures answer { result ≡ on_row (joined_rows U.Table L.Table self.now) row (seat_of (length (U.Table.rows self.now.upper)) row) }
    {
        let upper = self.upper.shape();
        together(upper, self.lower.shape()).check_row(row)?;
        Ok(seat(upper.depth, row))
    }

    // The same, if the join has that segment too.
    fn cell(&self, row: u32, segment: u32) -> Result<Seat, TableFault>
        ensures answer { result ≡ on_cell (joined_width U.Table L.Table self.now) (joined_rows U.Table L.Table self.now) row segment (seat_of (length (U.Table.rows self.now.upper)) row) }
    {
        let upper = self.upper.shape();
        together(upper, self.lower.shape()).check_cell(row, segment)?;
        Ok(seat(upper.depth, row))
    }

    // The first row, `from` or later, that one of two questions names: the lower table is asked only
    // if the upper has no such row.
    fn first_of<F: FnOnce(&U, u32) -> Option<u32>, G: FnOnce(&L, u32) -> Option<u32>>(
        &self,
        from: u32,
        upper: F,
        lower: G,
    ) -> Option<u32>
        requires above { F.IsAlwaysCallable upper }
        requires under { G.IsAlwaysCallable lower }
        ensures answer { (p : Row → Bool) → Uncut p → TellsFirst U.Table F.FnOnce upper p → TellsFirst L.Table G.FnOnce lower p → result ≡ first p (joined_rows U.Table L.Table self.now) from }
    {
        upper(&self.upper, from).or_else(|| {
            let border = self.upper.shape().depth;
            below(border, lower(&self.lower, from.saturating_sub(border)))
        })
    }
}

impl<U: Table, L: Table> Table for Join<U, L> {
    ghost width = { joined_width U.Table L.Table };

    ghost rows = { joined_rows U.Table L.Table };

    ghost sound = { joined_sound U.Table L.Table };

    ghost frame = { λ a b. U.Table.frame a.upper b.upper × L.Table.frame a.lower b.lower };

    ghost same = { λ a. (U.Table.same a.upper, L.Table.same a.lower) };

    ghost chain = { λ a b c p q. (U.Table.chain a.upper b.upper c.upper p.0 q.0, L.Table.chain a.lower b.lower c.lower p.1 q.1) };

    fn shape(&self) -> Shape {
        together(self.upper.shape(), self.lower.shape())
    }

    fn read(&self, row: u32, segment: u32) -> Result<u32, TableFault> {
        match self.cell(row, segment)? {
            Seat::Upper(row) => self.upper.read(row, segment),
            Seat::Lower(row) => self.lower.read(row, segment),
        }
    }

    fn write(&mut self, row: u32, segment: u32, word: u32) -> Result<(), TableFault> {
        match self.cell(row, segment)? {
            Seat::Upper(row) => self.upper.write(row, segment, word),
            Seat::Lower(row) => self.lower.write(row, segment, word),
        }
    }

    fn marks(&self, row: u32) -> Result<Marks, TableFault> {
        match self.holder(row)? {
            Seat::Upper(row) => self.upper.marks(row),
            Seat::Lower(row) => self.lower.marks(row),
        }
    }

    fn set_marks(&mut self, row: u32, marking: Marking) -> Result<(), TableFault> {
        match self.holder(row)? {
            Seat::Upper(row) => self.upper.set_marks(row, marking),
            Seat::Lower(row) => self.lower.set_marks(row, marking),
        }
    }

    fn search(&mut self, query: Search) -> Result<(), TableFault> {
        self.shape().check_segment(query.segment)?;
        self.upper.search(query)?;
        self.lower.search(query)
    }

    fn first_hit(&self, from: u32) -> Option<u32> {
        self.first_of(from, U::first_hit, L::first_hit)
    }

    fn first_empty(&self, from: u32) -> Option<u32> {
        self.first_of(from, U::first_empty, L::first_empty)
    }

    fn purge(&mut self, kind: Purge) {
        self.upper.purge(kind);
        self.lower.purge(kind);
    }

    fn clear_access(&mut self) {
        self.upper.clear_access();
        self.lower.clear_access();
    }

    fn reset(&mut self) {
        self.upper.reset();
        self.lower.reset();
    }
}
