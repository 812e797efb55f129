// A fence is a table, over every table.
ghost use Rattle.std.specs.Prelude.{◌≡◌, ◌+◌, Bool, refl};
ghost use Rattle.std.proofs.Common.{◌∙◌};
ghost use Rattle.table.specs.Calls.{first, on_cell, on_row};
ghost use Rattle.table.specs.Questions.{TellsFirst};
ghost use Rattle.table.specs.Row.{Row};
ghost use Rattle.fence.specs.Shown.{fenced_rows};
ghost use Rattle.fence.specs.Sound.{fenced_sound};

use crate::fences::Fence;
use table::{Marking, Marks, Purge, Search, Shape, Table, TableFault};

impl<T: Table> Fence<T> {
    // The table's number of a row that the fence has.
    fn place(&self, row: u32) -> Result<u32, TableFault>
        ensures answer { result ≡ on_row (fenced_rows T.Table self.now) row (self.now.hidden + row) }
    {
        self.shape().check_row(row)?;
        Ok(self.hidden + row)
    }

    // The same, for a row and a segment that the fence has.
    fn cell(&self, row: u32, segment: u32) -> Result<u32, TableFault>
        ensures answer { result ≡ on_cell (T.Table.width self.now.table) (fenced_rows T.Table self.now) row segment (self.now.hidden + row) }
    {
        self.shape().check_cell(row, segment)?;
        Ok(self.hidden + row)
    }

    // The first row that a question names, `from` or later, among those that the fence has.
    fn first_of<F: FnOnce(&T, u32) -> Option<u32>>(&self, from: u32, ask: F) -> Option<u32>
        requires { F.IsAlwaysCallable ask }
        ensures answer { (p : Row → Bool) → TellsFirst T.Table F.FnOnce ask p → result ≡ first p (fenced_rows T.Table self.now) from }
    {
        let place = from.saturating_add(self.hidden);
        ask(&self.table, place).map(|row| row.saturating_sub(self.hidden))
    }
}

impl<T: Table> Table for Fence<T> {
    ghost width = { λ t. T.Table.width t.table };

    ghost rows = { fenced_rows T.Table };

    ghost sound = { fenced_sound T.Table };

    // The same number of rows stays hidden.
    ghost frame = { λ a b. (b.hidden ≡ a.hidden) × T.Table.frame a.table b.table };

    ghost same = { λ a. (refl, T.Table.same a.table) };

    ghost chain = { λ a b c p q. (q.0 ∙ p.0, T.Table.chain a.table b.table c.table p.1 q.1) };

    fn shape(&self) -> Shape {
        let whole = self.table.shape();
        Shape {
            depth: whole.depth.saturating_sub(self.hidden),
            ..whole
        }
    }

    fn read(&self, row: u32, segment: u32) -> Result<u32, TableFault> {
        let place = self.cell(row, segment)?;
        self.table.read(place, segment)
    }

    fn write(&mut self, row: u32, segment: u32, word: u32) -> Result<(), TableFault> {
        let place = self.cell(row, segment)?;
        self.table.write(place, segment, word)
    }

    fn marks(&self, row: u32) -> Result<Marks, TableFault> {
        let place = self.place(row)?;
        self.table.marks(place)
    }

    fn set_marks(&mut self, row: u32, marking: Marking) -> Result<(), TableFault> {
        let place = self.place(row)?;
        self.table.set_marks(place, marking)
    }

    fn search(&mut self, query: Search) -> Result<(), TableFault> {
        self.table.search(query)
    }

    fn first_hit(&self, from: u32) -> Option<u32> {
        self.first_of(from, T::first_hit)
    }

    fn first_empty(&self, from: u32) -> Option<u32> {
        self.first_of(from, T::first_empty)
    }

    fn purge(&mut self, kind: Purge) {
        self.table.purge(kind);
    }

    fn clear_access(&mut self) {
        self.table.clear_access();
    }

    fn reset(&mut self) {
        self.table.reset();
    }
}
