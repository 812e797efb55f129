// Work on joins of joins. Each function sees one join only, since the check takes long over the type
// of a deep one. Not by the levels of crate `cascade`, which are its own and promise what is built.
use crate::lent::{Halves, Lent};
use crate::work::Work;
use join::Join;
use table::Table;

// How often tables are joined in twos, so that there are 1, 2, 4 and so on.
pub(crate) trait Depth {
    fn on<C: Halves, T: Lent<C> + Table + Drop, W: Work>(cells: C, work: W) -> u32;
}

// One table alone.
pub(crate) struct One;

// Twice as many tables as D has.
pub(crate) struct Twice<D>(D);

impl Depth for One {
    fn on<C: Halves, T: Lent<C> + Table + Drop, W: Work>(cells: C, work: W) -> u32 {
        work.on(T::over(cells))
    }
}

impl<D: Depth> Depth for Twice<D> {
    fn on<C: Halves, T: Lent<C> + Table + Drop, W: Work>(cells: C, work: W) -> u32 {
        D::on::<C, Join<T, T>, W>(cells, work)
    }
}
