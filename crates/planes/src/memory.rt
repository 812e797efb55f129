// The memory of the table: its planes, and the words in them.
ghost use Rattle.std.specs.Prelude.{◌≡◌, ℕ, ◌+◌, ◌*◌, ◌<◌, ◌==◌, bit_or, length, slice_index};
ghost use Rattle.table.specs.Row.{of_kind};
ghost use Rattle.planes.specs.Bits.{bit_of};
ghost use Rattle.planes.specs.Rows.{Put, marks_of, word_of};

use crate::bits;
use crate::places::{Cell, Segment};
use table::Purge;

// The marks of all rows, bit r of each number for row r.
#[derive(Clone, Copy)]
pub struct MarkPlanes {
    pub(crate) empty: u64,
    pub(crate) access: u64,
    pub(crate) hit: u64,
}

// Number 32 * s + b of `planes` holds bit b of segment s, and its bit r is that bit of row r. One
// list and not one for each segment: the rules number the planes so.
#[derive(Clone, Copy)]
pub struct Memory {
    pub(crate) planes: [u64; 64],
    pub(crate) marks: MarkPlanes,
}

impl MarkPlanes {
    // After a reset: every row is empty.
    pub(crate) const VACATED: MarkPlanes = MarkPlanes {
        empty: u64::MAX,
        access: 0,
        hit: 0,
    };

    // The rows that a purge makes empty.
    #[tactic(auto, using(crate::proofs::BitLaws::plane_laws))]
    pub(crate) fn of_kind(self, kind: Purge) -> u64
        ensures { (r : ℕ) → r < 64 → bit_of result r ≡ of_kind kind (marks_of self r) }
    {
        match kind {
            Purge::All => !self.empty,
            Purge::WithAccess => !self.empty & self.access,
            Purge::WithoutAccess => !self.empty & !self.access,
        }
    }
}

impl Memory {
    // The 32 planes of a segment.
    fn segment(&self, segment: Segment) -> &[u64]
        ensures count { length result.now ≡ 32 }
        ensures planes { (b : ℕ) → b < 32 → slice_index result.now b ≡ slice_index self.now.planes (32 * segment.number + b) }
    {
        let first = 32 * segment.number as usize;
        &self.planes[first..first + 32]
    }

    // The word of a cell, put together from the planes of its segment.
    #[tactic(auto, using(crate::proofs::Words::word_laws))]
    pub(crate) fn word(&self, cell: Cell) -> u32
        ensures { result ≡ word_of self.now.planes cell.segment.number cell.row.number }
    {
        let mut word = 0u32;
        for (b, plane) in self.segment(cell.segment).iter().enumerate() {
            if cell.row.is_in(*plane) {
                word |= 1 << b;
            }
        }
        word
    }

    // Replaces the word of a cell: one bit in each plane of its segment. On segment 0 the row
    // becomes valid.
    #[tactic(auto, using(crate::proofs::Words::put_laws))]
    pub(crate) fn put(&mut self, cell: Cell, word: u32)
        ensures { Put cell.row.number cell.segment.number word self.old self.new }
    {
        let Cell { row, segment } = cell;
        // As `segment`, but lent here: a function that lends a part to be written would have to tell
        // in its contract what the whole is afterwards.
        let first = 32 * segment.number as usize;
        for (b, plane) in self.planes[first..first + 32].iter_mut().enumerate() {
            *plane = row.put_in(*plane, word >> b & 1 == 1);
        }
        if segment.number == 0 {
            self.marks.empty = row.put_in(self.marks.empty, false);
        }
    }

    // The rows whose word agrees with the key in every bit that the mask leaves.
    #[tactic(auto, using(crate::proofs::Agreement::agreement_laws))]
    pub(crate) fn agreeing(&self, segment: Segment, key: u32, mask: u32) -> u64
        ensures { (r : ℕ) → r < 64 → bit_of result r ≡ (bit_or key mask == bit_or (word_of self.now.planes segment.number r) mask) }
    {
        let mut missed = 0u64;
        for (b, plane) in self.segment(segment).iter().enumerate() {
            let wanted = bits::spread(key >> b & 1 == 1);
            let compared = bits::spread(!mask >> b & 1 == 1);
            missed |= (*plane ^ wanted) & compared;
        }
        !missed
    }
}
