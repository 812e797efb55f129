// Tables over memory that is lent in one piece.
use device::{Cells, Device};
use join::Join;
use table::Table;

// Memory in two halves. A trait of one type, since the bound of a trait's method cannot name the
// lifetime of `Cells` yet.
pub(crate) trait Halves: Sized {
    fn in_halves(self) -> (Self, Self);
}

impl Halves for Cells<'_> {
    fn in_halves(self) -> (Self, Self) {
        self.halves()
    }
}

// A table that can be opened over lent memory, of width 1. Not `cascade::Lent`: nothing is promised
// here, and a join, which has it here, cannot have it from a third crate.
pub(crate) trait Lent<C> {
    fn over(cells: C) -> Self;
}

impl<'a> Lent<Cells<'a>> for Device<'a> {
    fn over(cells: Cells<'a>) -> Device<'a> {
        let Cells { words, marks } = cells;
        Device::open(1, words, marks)
    }
}

// Each table has half of the memory.
impl<C: Halves, U: Lent<C>, L: Lent<C>> Lent<C> for Join<U, L> {
    fn over(cells: C) -> Join<U, L> {
        let (upper, lower) = cells.in_halves();
        Join::new(U::over(upper), L::over(lower))
    }
}
