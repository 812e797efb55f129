// The full flag: whether every row is valid, else which row is the first empty one.
ghost use Rattle.flags.specs.Kinds.{full, full_from, full_joined};
ghost use Rattle.flags.specs.Proved.{full_laws};

use crate::kinds::{FlagKind, Part};
use table::Table;

// The first empty row; where there is none, the rows are full.
#[derive(Clone, Copy, PartialEq, Eq, Debug)]
pub struct FullFlag {
    pub first_empty: Option<u32>,
}

impl FlagKind for FullFlag {
    ghost flag_of = { full_from };

    ghost joined = { full_joined };

    ghost none = { full };

    ghost laws = { full_laws };

    fn nothing() -> FullFlag {
        FullFlag { first_empty: None }
    }

    fn join(self, other: FullFlag) -> FullFlag {
        FullFlag {
            first_empty: self.first_empty.or(other.first_empty),
        }
    }

    fn of<T: Table>(table: &T, from: u32, to: u32) -> Part<FullFlag> {
        match table.first_empty(from) {
            Some(row) if row < to => Part {
                flag: FullFlag {
                    first_empty: Some(row),
                },
                until: None,
            },
            later => Part {
                flag: FullFlag { first_empty: None },
                until: later,
            },
        }
    }
}
