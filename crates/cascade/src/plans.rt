// What a cascade is asked to be, and why there is none.
ghost use Rattle.std.specs.Prelude.{◌≡◌};
ghost use Rattle.cascade.specs.declared.plans.CascadeFault.TheVariants.{NoMemory as OutOfMemory};

use std::alloc::AllocError;

// A device of a width, a bit-plane table, or nothing: a caller may ask for a vacant member, so that it is
// a kind and no missing one.
#[derive(Clone, Copy)]
pub enum Kind {
    Device(u32),
    Planes,
    Vacant,
}

// A member's kind, and how many of its first rows a fence hides.
#[derive(Clone, Copy)]
pub struct Seat {
    pub kind: Kind,
    pub hidden: u32,
}

// A cascade has 1 to 32 members; or there is no memory for them.
#[derive(Clone, Copy, PartialEq, Eq, Debug)]
pub enum CascadeFault {
    Members(usize),
    NoMemory,
}

impl From<AllocError> for CascadeFault {
    ghost from_gives = { λ _ r. r ≡ OutOfMemory };

    fn from(_: AllocError) -> CascadeFault {
        CascadeFault::NoMemory
    }
}
