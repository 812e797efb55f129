// The places of the table: its rows, its segments, and the cells where they meet. A number that
// lies outside makes no place, and is refused. Rows and segments have types of their own, so that
// neither stands where the other is meant, and each its own refusal.
ghost use Rattle.std.specs.Prelude.{◌≡◌, ◌<◌, ◌≤◌, Err, MatchResult, replicate};
ghost use Rattle.table.specs.Calls.{on_cell};
ghost use Rattle.table.specs.Row.{blank};
ghost use Rattle.table.specs.declared.faults.TableFault.TheVariants.{Row as NoRow, Segment as NoSegment};
ghost use Rattle.planes.specs.Bits.{bit_of, with_bit};

use table::{Shape, TableFault};

// A row has two segments, and there are 64 rows.
pub(crate) const SHAPE: Shape = Shape {
    width: 2,
    depth: 64,
};

// Its number is also its place in each plane, which has one bit for each row.
#[derive(Clone, Copy)]
pub(crate) struct Row {
    pub(crate) number: u32,
    ghost within: { number < 64 },
}

#[derive(Clone, Copy)]
pub(crate) struct Segment {
    pub(crate) number: u32,
    ghost within: { number < 2 },
}

#[derive(Clone, Copy)]
pub(crate) struct Cell {
    pub(crate) row: Row,
    pub(crate) segment: Segment,
}

impl TryFrom<u32> for Row {
    type Error = TableFault;

    ghost try_from_gives = { λ n r. MatchResult r (λ row. row.number ≡ n) (λ fault. (64 ≤ n) × (fault ≡ NoRow n)) };

    fn try_from(number: u32) -> Result<Row, TableFault> {
        SHAPE.check_row(number)?;
        Ok(Row { number })
    }
}

impl TryFrom<u32> for Segment {
    type Error = TableFault;

    ghost try_from_gives = { λ n r. MatchResult r (λ segment. segment.number ≡ n) (λ fault. (2 ≤ n) × (fault ≡ NoSegment n)) };

    fn try_from(number: u32) -> Result<Segment, TableFault> {
        SHAPE.check_segment(number)?;
        Ok(Segment { number })
    }
}

impl Cell {
    // The row is checked before the segment.
    #[tactic(auto, unfolding(table::specs::Calls::on_cell, table::specs::Calls::on_segment))]
    pub(crate) fn new(row: u32, segment: u32) -> Result<Cell, TableFault>
        ensures { MatchResult result (λ cell. (cell.row.number ≡ row) × (cell.segment.number ≡ segment)) (λ fault. Err fault ≡ on_cell 2 (replicate 64 blank) row segment (tt {0})) }
    {
        let row = Row::try_from(row)?;
        let segment = Segment::try_from(segment)?;
        Ok(Cell { row, segment })
    }
}

#[tactic(auto, using(crate::proofs::BitLaws::place_laws))]
impl Row {
    // Whether the row's bit of a plane is set.
    pub(crate) fn is_in(self, plane: u64) -> bool
        ensures { result ≡ bit_of plane self.number }
    {
        plane >> self.number & 1 == 1
    }

    // The plane with the row's bit replaced.
    pub(crate) fn put_in(self, plane: u64, on: bool) -> u64
        ensures { result ≡ with_bit self.number on plane }
    {
        let one = 1u64 << self.number;
        if on { plane | one } else { plane & !one }
    }
}
