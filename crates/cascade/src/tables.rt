// A member is a table, whichever it is. Each call has three arms, since a `&dyn Table` of a table that
// is a type parameter gets no proof yet.
ghost use Rattle.cascade.specs.Members.{FrameOf, rows_of, width_of};
ghost use Rattle.cascade.specs.Proved.{chain_of, same_of, sound_of};

use crate::members::Member;
use table::{MAX_WIDTH, Marking, Marks, Purge, Search, Shape, Table, TableFault};

// The shape of a vacant member, which changes no join.
const VACANT: Shape = Shape {
    width: MAX_WIDTH,
    depth: 0,
};

impl<D: Table, P: Table> Table for Member<D, P> {
    ghost width = { width_of D.Table P.Table };

    ghost rows = { rows_of D.Table P.Table };

    ghost sound = { sound_of D.Table P.Table };

    ghost frame = { FrameOf D.Table P.Table };

    ghost same = { same_of D.Table P.Table };

    ghost chain = { chain_of D.Table P.Table };

    fn shape(&self) -> Shape {
        match self {
            Member::Device(table) => table.shape(),
            Member::Planes(table) => table.shape(),
            Member::Vacant => VACANT,
        }
    }

    fn read(&self, row: u32, segment: u32) -> Result<u32, TableFault> {
        match self {
            Member::Device(table) => table.read(row, segment),
            Member::Planes(table) => table.read(row, segment),
            Member::Vacant => Err(TableFault::Row(row)),
        }
    }

    fn write(&mut self, row: u32, segment: u32, word: u32) -> Result<(), TableFault> {
        match self {
            Member::Device(table) => table.write(row, segment, word),
            Member::Planes(table) => table.write(row, segment, word),
            Member::Vacant => Err(TableFault::Row(row)),
        }
    }

    fn marks(&self, row: u32) -> Result<Marks, TableFault> {
        match self {
            Member::Device(table) => table.marks(row),
            Member::Planes(table) => table.marks(row),
            Member::Vacant => Err(TableFault::Row(row)),
        }
    }

    fn set_marks(&mut self, row: u32, marking: Marking) -> Result<(), TableFault> {
        match self {
            Member::Device(table) => table.set_marks(row, marking),
            Member::Planes(table) => table.set_marks(row, marking),
            Member::Vacant => Err(TableFault::Row(row)),
        }
    }

    fn search(&mut self, query: Search) -> Result<(), TableFault> {
        match self {
            Member::Device(table) => table.search(query),
            Member::Planes(table) => table.search(query),
            Member::Vacant => VACANT.check_segment(query.segment),
        }
    }

    fn first_hit(&self, from: u32) -> Option<u32> {
        match self {
            Member::Device(table) => table.first_hit(from),
            Member::Planes(table) => table.first_hit(from),
            Member::Vacant => None,
        }
    }

    fn first_empty(&self, from: u32) -> Option<u32> {
        match self {
            Member::Device(table) => table.first_empty(from),
            Member::Planes(table) => table.first_empty(from),
            Member::Vacant => None,
        }
    }

    fn purge(&mut self, kind: Purge) {
        match self {
            Member::Device(table) => table.purge(kind),
            Member::Planes(table) => table.purge(kind),
            Member::Vacant => {}
        }
    }

    fn clear_access(&mut self) {
        match self {
            Member::Device(table) => table.clear_access(),
            Member::Planes(table) => table.clear_access(),
            Member::Vacant => {}
        }
    }

    fn reset(&mut self) {
        match self {
            Member::Device(table) => table.reset(),
            Member::Planes(table) => table.reset(),
            Member::Vacant => {}
        }
    }
}
