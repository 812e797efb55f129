// A kind of flag: what rows come to, seen from behind them, with a join and a nothing.
ghost use Rattle.std.specs.Prelude.{◌≡◌, ℕ, List};
ghost use Rattle.flags.specs.Laws.{Lasting, Laws, between};
ghost use Rattle.table.specs.Row.{Row};

use table::Table;

// The flag of some rows, and the row up to which more rows behind them leave it as it is; none, if
// they always do.
#[derive(Clone, Copy, PartialEq, Eq, Debug)]
pub struct Part<K> {
    pub flag: K,
    pub until: Option<u32>,
}

pub trait FlagKind: Sized {
    // The flag of a list of rows, the first of which has the given number.
    ghost flag_of: { List Row → ℕ → Self };

    ghost joined: { Self → Self → Self };

    // The flag of no rows.
    ghost none: { Self };

    // What each kind proves.
    ghost laws: { Laws flag_of joined none };

    fn nothing() -> Self
        ensures answer { result ≡ none };

    // The flag of rows, then of rows behind them.
    fn join(self, other: Self) -> Self
        ensures answer { result ≡ joined self other };

    // The flag of the rows from `from` up to `to`. A table's question for a first row looks past
    // `to`; `until` says what it saw there, so that no row need be asked about again.
    // Two numbers and no range, which would be taken apart at once: one is asked, the other compared.
    fn of<T: Table>(table: &T, from: u32, to: u32) -> Part<Self>
        ensures flag { result.flag ≡ flag_of (between from to (T.Table.rows table.now)) from }
        ensures until { Lasting flag_of (T.Table.rows table.now) from to result };
}
