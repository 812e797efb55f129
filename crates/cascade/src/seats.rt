// Tables that are built over lent memory, seat by seat.
ghost use Rattle.std.specs.Prelude.{◌≡◌, ℕ, ◌-◌, ◌/◌, List, length};
ghost use Rattle.cascade.specs.Seats.{device_rows, device_width, fenced_rows, member_rows, member_width, opened_rows, opened_width, pair_rows, pair_width, planes_rows};
ghost use Rattle.cascade.specs.declared.plans.Seat.{Seat};
ghost use Rattle.table.specs.Row.{Row};

use crate::members::Member;
use crate::plans::{Kind, Seat};
use crate::sites::{Lot, Site};
use device::{Cells, Device};
use fence::Fence;
use join::Join;
use planes::Planes;
use table::Table;

// A table that is built for some seats, over cells that are lent.
pub trait Build<S: Lot>: Table + Sized {
    // The width and the rows of what is built, from the seats and how many cells there are.
    ghost built_width: { List Seat → ℕ → ℕ → ℕ };

    ghost built_rows: { List Seat → ℕ → ℕ → List Row };

    fn build(site: S) -> Self
        ensures width { Self.Table.width result ≡ built_width (S.Lot.seats site) (S.Lot.words site) (S.Lot.bytes site) }
        ensures rows { Self.Table.rows result ≡ built_rows (S.Lot.seats site) (S.Lot.words site) (S.Lot.bytes site) };
}

// A table of a width, over cells that are lent.
pub trait Lent<'a>: Table + Sized {
    // The width and the rows, from the width asked for and how many cells there are.
    ghost lent_width: { ℕ → ℕ → ℕ → ℕ };

    ghost lent_rows: { ℕ → ℕ → ℕ → List Row };

    fn over(width: u32, cells: Cells<'a>) -> Self
        ensures width { Self.Table.width result ≡ lent_width width (length cells.entry.words.now) (length cells.entry.marks.now) }
        ensures rows { Self.Table.rows result ≡ lent_rows width (length cells.entry.words.now) (length cells.entry.marks.now) };
}

impl<'a> Lent<'a> for Device<'a> {
    ghost lent_width = { opened_width };

    ghost lent_rows = { opened_rows };

    fn over(width: u32, cells: Cells<'a>) -> Device<'a> {
        let Cells { words, marks } = cells;
        Device::open(width, words, marks)
    }
}

// A device of the width that the first seat asks for. At a seat that is no device it has no rows.
impl<'a, 's> Build<Site<'a, 's>> for Device<'a> {
    ghost built_width = { device_width };

    ghost built_rows = { device_rows };

    fn build(site: Site<'a, 's>) -> Device<'a> {
        let width = match site.first().kind {
            Kind::Device(width) => width,
            Kind::Planes | Kind::Vacant => 0,
        };
        Device::over(width, site.cells)
    }
}

// A table with memory of its own, which opens in one way only: `Planes` so far. A trait, so that a
// member is built, as it is a table, over any two kinds.
pub trait Fresh: Table + Sized {
    ghost fresh_width: { ℕ };

    ghost fresh_rows: { List Row };

    fn fresh() -> Self
        ensures width { Self.Table.width result ≡ fresh_width }
        ensures rows { Self.Table.rows result ≡ fresh_rows };
}

impl Fresh for Planes {
    ghost fresh_width = { 2 };

    ghost fresh_rows = { planes_rows };

    fn fresh() -> Planes {
        Planes::new()
    }
}

impl<S: Lot + Drop, D: Build<S>, P: Fresh> Build<S> for Member<D, P> {
    ghost built_width = { member_width D.Build.built_width P.Fresh.fresh_width };

    ghost built_rows = { member_rows D.Build.built_rows P.Fresh.fresh_rows };

    fn build(site: S) -> Member<D, P> {
        match site.first().kind {
            Kind::Device(_) => Member::Device(D::build(site)),
            Kind::Planes => Member::Planes(P::fresh()),
            Kind::Vacant => Member::Vacant,
        }
    }
}

impl<S: Lot, T: Build<S>> Build<S> for Fence<T> {
    ghost built_width = { T.Build.built_width };

    ghost built_rows = { fenced_rows T.Build.built_rows };

    fn build(site: S) -> Fence<T> {
        Fence::new(site.first().hidden, T::build(site))
    }
}

// Each half of the seats has half of the memory.
impl<S: Lot, U: Build<S>, L: Build<S>> Build<S> for Join<U, L> {
    ghost built_width = { pair_width U.Build.built_width L.Build.built_width };

    ghost built_rows = { pair_rows U.Build.built_width L.Build.built_width U.Build.built_rows L.Build.built_rows };

    fn build(site: S) -> Join<U, L> {
        let (upper, lower) = site.in_halves();
        Join::new(U::build(upper), L::build(lower))
    }
}
