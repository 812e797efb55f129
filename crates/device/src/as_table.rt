// The device as a table.
ghost use Rattle.std.specs.Prelude.{◌≡◌, ◌+◌, ◌*◌, ◌<◌, false, ◌&&◌, map, length, slice_index, IfOk};
ghost use Rattle.device.specs.Halves.{FirstOf, has_bit};
ghost use Rattle.device.specs.Proved.Memory.{frame_chain, frame_same, sound_rows};
ghost use Rattle.device.specs.Rows.{Frame, rows_in, width_in};
ghost use Rattle.device.specs.Sweeps.{row_after};
ghost use Rattle.table.specs.Calls.{on_cell, on_row};
ghost use Rattle.table.specs.declared.parts.Marks.{Marks};

use crate::bytes::{EMPTY, HIT, given, pack, unpack, written};
use crate::device::Device;
use crate::halves::first_with;
use crate::sweeps::{CLEARED, compare, pass_over, purged, unvisited};
use table::{Marking, Marks, Purge, Search, Shape, Table, TableFault};

impl Device<'_> {
    // The place of a row's marks.
    fn line(&self, row: u32) -> Result<usize, TableFault>
        ensures answer { result ≡ on_row (rows_in self.now) row row }
        ensures within { IfOk result (λ at. (at ≡ row) × (row < self.now.depth)) }
    {
        self.shape().check_row(row)?;
        Ok(row as usize)
    }

    // The place of a row's word.
    fn cell(&self, row: u32, segment: u32) -> Result<usize, TableFault>
        ensures answer { result ≡ on_cell (width_in self.now) (rows_in self.now) row segment (row * self.now.width + segment) }
        ensures within { IfOk result (λ at. (at ≡ row * self.now.width + segment) × (row < self.now.depth) × (segment < self.now.width) × (at < length self.now.words.now)) }
    {
        self.shape().check_cell(row, segment)?;
        Ok(row as usize * self.width as usize + segment as usize)
    }

    // Changes the marks of every row alike.
    fn sweep<F: Fn(Marks) -> Marks>(&mut self, change: F)
        requires callable { F.IsAlwaysCallable change }
        requires quiet { (m n : Marks) → F.post change m n → (m.empty && m.hit) ≡ false → (n.empty && n.hit) ≡ false }
        ensures rows { (after : Marks → Marks) → ((m n : Marks) → F.post change m n → n ≡ after m) → rows_in self.new ≡ map (row_after after) (rows_in self.old) }
        ensures frame { Frame self.old self.new }
    {
        pass_over(&mut self.marks[..self.depth as usize], change);
    }

    // The first row, `from` or later, that has the mark.
    fn first_from(&self, from: u32, mark: u8) -> Option<u32>
        ensures { FirstOf (λ k. has_bit mark (slice_index self.now.marks.now k)) from self.now.depth result }
    {
        if from >= self.depth {
            return None;
        }
        let row = first_with(&self.marks[from as usize..self.depth as usize], mark)?;
        Some(from + row as u32)
    }
}

impl Table for Device<'_> {
    ghost width = { width_in };

    ghost rows = { rows_in };

    ghost sound = { sound_rows };

    ghost frame = { Frame };

    ghost same = { frame_same };

    ghost chain = { frame_chain };

    fn shape(&self) -> Shape {
        Shape {
            width: self.width,
            depth: self.depth,
        }
    }

    fn read(&self, row: u32, segment: u32) -> Result<u32, TableFault> {
        let at = self.cell(row, segment)?;
        Ok(self.words[at])
    }

    fn write(&mut self, row: u32, segment: u32, word: u32) -> Result<(), TableFault> {
        let at = self.cell(row, segment)?;
        let line = row as usize;
        let marks = written(segment, unpack(self.marks[line]));
        self.words[at] = word;
        self.marks[line] = pack(marks);
        Ok(())
    }

    fn marks(&self, row: u32) -> Result<Marks, TableFault> {
        let line = self.line(row)?;
        Ok(unpack(self.marks[line]))
    }

    fn set_marks(&mut self, row: u32, marking: Marking) -> Result<(), TableFault> {
        let line = self.line(row)?;
        let marks = given(marking, unpack(self.marks[line]));
        self.marks[line] = pack(marks);
        Ok(())
    }

    fn search(&mut self, query: Search) -> Result<(), TableFault> {
        self.shape().check_segment(query.segment)?;
        // Lent by a name: of words lent straight from the field no proof knows that they stay.
        let words = &mut *self.words;
        let marks = &mut self.marks[..self.depth as usize];
        compare(words, marks, self.width as usize, query);
        Ok(())
    }

    fn first_hit(&self, from: u32) -> Option<u32> {
        self.first_from(from, HIT)
    }

    fn first_empty(&self, from: u32) -> Option<u32> {
        self.first_from(from, EMPTY)
    }

    fn purge(&mut self, kind: Purge) {
        self.sweep(|marks| purged(kind, marks));
    }

    fn clear_access(&mut self) {
        self.sweep(unvisited);
    }

    fn reset(&mut self) {
        self.sweep(|_| CLEARED);
    }
}
