// Work on a cascade of 2, 4, 8, 16 or 32 places, by a trait of how often two are doubled. Each body
// sees one join only, since a check takes long over the type of a deep one.
ghost use Rattle.std.specs.Prelude.{ℕ, zero, suc, List};
ghost use Rattle.cascade.specs.Levels.{Told, level_rows, level_width};
ghost use Rattle.table.specs.Row.{Row};

use crate::seats::Build;
use crate::sites::Lot;
use join::Join;
use table::Table;

// Work on two tables of any kinds: the upper and the lower part of a cascade. A trait and no
// closure, which would have the two kinds in its type.
pub trait Job: Sized {
    type Out;

    // What the work comes to, from the widths and the rows of the two tables.
    ghost tells: { Self → ℕ → ℕ → List Row → List Row → Self.Out → Type 0 };

    fn run<U: Table + Drop, L: Table + Drop>(self, upper: U, lower: L) -> Self::Out
        ensures told { tells self (U.Table.width upper) (L.Table.width lower) (U.Table.rows upper) (L.Table.rows lower) result };
}

// How often the places of a cascade are doubled, from two on.
pub(crate) trait Level {
    ghost level: { ℕ };

    fn on<S: Lot, T: Build<S> + Drop, J: Job>(site: S, job: J) -> J::Out
        ensures told { Told (J.Job.tells job) (level_width level T.Build.built_width) (level_rows level T.Build.built_width T.Build.built_rows) (S.Lot.seats site) (S.Lot.words site) (S.Lot.bytes site) result };
}

// Two places.
pub(crate) struct Two;

// Twice as many places as D has.
pub(crate) struct Twice<D>(D);

impl Level for Two {
    ghost level = { zero };

    fn on<S: Lot, T: Build<S> + Drop, J: Job>(site: S, job: J) -> J::Out {
        let (upper, lower) = site.in_halves();
        job.run(T::build(upper), T::build(lower))
    }
}

impl<D: Level> Level for Twice<D> {
    ghost level = { suc D.level };

    fn on<S: Lot, T: Build<S> + Drop, J: Job>(site: S, job: J) -> J::Out {
        D::on::<S, Join<T, T>, J>(site, job)
    }
}
