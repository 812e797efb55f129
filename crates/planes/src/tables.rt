// The plane table: its opening, and the calls of every table. All rows go at once, by operations on
// whole planes and whole marks.
ghost use Rattle.std.specs.Prelude.{◌≡◌, replicate};
ghost use Rattle.planes.specs.Laws.{sound_rows};
ghost use Rattle.planes.specs.Rows.{Laid, opened, rows_of, vacant};

use crate::bits;
use crate::memory::{MarkPlanes, Memory};
use crate::places::{Cell, Row, SHAPE, Segment};
use crate::planes::Planes;
use table::{Marking, Marks, Purge, Search, Shape, Table, TableFault};

#[tactic(auto, using(crate::proofs::BitLaws::plane_laws))]
impl Planes {
    // As after a reset, with every word 0.
    pub fn new() -> Planes
        ensures memory { result.memory ≡ opened }
        ensures rows { rows_of result.memory ≡ replicate 64 vacant }
    {
        Planes {
            memory: Memory {
                planes: [0; 64],
                marks: MarkPlanes::VACATED,
            },
        }
    }
}

#[tactic(auto, using(crate::proofs::CallLaws::call_laws), unfolding(table::specs::Calls::on_cell, table::specs::Calls::on_row, table::specs::Calls::on_segment))]
impl Table for Planes {
    ghost width = { λ t. 2 };

    ghost rows = { λ t. rows_of t.memory };

    ghost sound = { λ t. sound_rows t.memory t.quiet };

    // After every call the memory is the one that the rows lay out, so that the rows pin each bit.
    ghost frame = { λ a b. Laid b.memory };

    ghost same = { λ a. a.laid };

    ghost chain = { λ a b c f g. g };

    fn shape(&self) -> Shape {
        SHAPE
    }

    fn read(&self, row: u32, segment: u32) -> Result<u32, TableFault> {
        let cell = Cell::new(row, segment)?;
        Ok(self.memory.word(cell))
    }

    fn write(&mut self, row: u32, segment: u32, word: u32) -> Result<(), TableFault> {
        let cell = Cell::new(row, segment)?;
        self.memory.put(cell, word);
        Ok(())
    }

    fn marks(&self, row: u32) -> Result<Marks, TableFault> {
        let row = Row::try_from(row)?;
        let MarkPlanes { empty, access, hit } = self.memory.marks;
        Ok(Marks {
            empty: row.is_in(empty),
            access: row.is_in(access),
            hit: row.is_in(hit),
        })
    }

    fn set_marks(&mut self, row: u32, marking: Marking) -> Result<(), TableFault> {
        let row = Row::try_from(row)?;
        let marks = &mut self.memory.marks;
        marks.empty = row.put_in(marks.empty, marking.empty);
        marks.access = row.put_in(marks.access, marking.access);
        marks.hit &= !marks.empty;
        Ok(())
    }

    fn search(&mut self, query: Search) -> Result<(), TableFault> {
        let segment = Segment::try_from(query.segment)?;
        let agreeing = self.memory.agreeing(segment, query.key, query.mask);
        let marks = &mut self.memory.marks;
        marks.hit = !marks.empty & (agreeing & (bits::spread(query.head) | marks.hit));
        marks.access |= bits::spread(query.access) & marks.hit;
        Ok(())
    }

    fn first_hit(&self, from: u32) -> Option<u32> {
        bits::first_from(self.memory.marks.hit, from)
    }

    fn first_empty(&self, from: u32) -> Option<u32> {
        bits::first_from(self.memory.marks.empty, from)
    }

    fn purge(&mut self, kind: Purge) {
        let marks = &mut self.memory.marks;
        let gone = marks.of_kind(kind);
        marks.empty |= gone;
        marks.access &= !gone;
        marks.hit &= !gone;
    }

    fn clear_access(&mut self) {
        self.memory.marks.access = 0;
    }

    fn reset(&mut self) {
        self.memory.marks = MarkPlanes::VACATED;
    }
}
