// What the flags call refuses, with the number of each refusal and the place where it is found.
ghost use Rattle.std.specs.Prelude.{◌≡◌};
ghost use Rattle.flags.specs.Faults.{number_of, place_of};

use table::{Place, Refusal};

// Why no flags are worked out: the lengths of the output and of the cut, which differ; how many
// starts the cut has, if none or too many; or which member's start breaks the rule first.
#[derive(Clone, Copy, PartialEq, Eq, Debug)]
pub enum FlagsFault {
    Length(usize, usize),
    Starts(usize),
    Start(usize),
}

impl Refusal for FlagsFault {
    ghost numbered = { number_of };

    ghost found_at = { place_of };

    fn number(self) -> u32 {
        match self {
            FlagsFault::Length(..) => 15,
            FlagsFault::Starts(_) | FlagsFault::Start(_) => 16,
        }
    }

    fn place(self) -> Place {
        Place::Flags
    }
}
