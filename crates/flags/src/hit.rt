// The hit flag: which row hit first, and whether another did.
ghost use Rattle.flags.specs.Kinds.{hits_from, hits_joined};
ghost use Rattle.flags.specs.Proved.{hits_laws};
ghost use Rattle.flags.specs.declared.hit.HitFlag.TheVariants.{None as NoHit};

use crate::kinds::{FlagKind, Part};
use table::Table;

// No row hit, one did, or several did, of which the first is named: three cases, as the rules list them,
// and no optional row with a flag beside it.
#[derive(Clone, Copy, PartialEq, Eq, Debug)]
pub enum HitFlag {
    None,
    One(u32),
    Several(u32),
}

impl FlagKind for HitFlag {
    ghost flag_of = { hits_from };

    ghost joined = { hits_joined };

    ghost none = { NoHit };

    ghost laws = { hits_laws };

    fn nothing() -> HitFlag {
        HitFlag::None
    }

    fn join(self, other: HitFlag) -> HitFlag {
        match (self, other) {
            (HitFlag::None, _) => other,
            (HitFlag::One(row), HitFlag::None) => HitFlag::One(row),
            (HitFlag::One(row), _) => HitFlag::Several(row),
            (HitFlag::Several(row), _) => HitFlag::Several(row),
        }
    }

    fn of<T: Table>(table: &T, from: u32, to: u32) -> Part<HitFlag> {
        let row = match table.first_hit(from) {
            Some(row) if row < to => row,
            later => return Part {
                flag: HitFlag::None,
                until: later,
            },
        };
        match table.first_hit(row + 1) {
            Some(next) if next < to => Part {
                flag: HitFlag::Several(row),
                until: None,
            },
            later => Part {
                flag: HitFlag::One(row),
                until: later,
            },
        }
    }
}
