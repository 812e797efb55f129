// What a command of the processor refuses.
ghost use Rattle.std.specs.Prelude.{◌≡◌};
ghost use Rattle.processor.specs.Faults.{number_of, place_of};
ghost use Rattle.processor.specs.declared.faults.CommandFault.TheVariants.{InTable};

use table::{Place, Refusal, TableFault};

// A command at an address that is not there, or what the table refused, whole.
#[derive(Clone, Copy, PartialEq, Eq, Debug)]
pub enum CommandFault {
    NoHitAddress,
    NoEmptyAddress,
    InTable(TableFault),
}

impl From<TableFault> for CommandFault {
    ghost from_gives = { λ t r. r ≡ InTable t };

    fn from(refused: TableFault) -> CommandFault {
        CommandFault::InTable(refused)
    }
}

impl Refusal for CommandFault {
    ghost numbered = { number_of };

    ghost found_at = { place_of };

    fn number(self) -> u32 {
        match self {
            CommandFault::NoHitAddress => 5,
            CommandFault::NoEmptyAddress => 6,
            CommandFault::InTable(fault) => fault.number(),
        }
    }

    fn place(self) -> Place {
        match self {
            CommandFault::NoHitAddress | CommandFault::NoEmptyAddress => Place::Command,
            CommandFault::InTable(fault) => fault.place(),
        }
    }
}
