// A refusal of any call of a processor, whole.
ghost use Rattle.std.specs.Prelude.{◌≡◌};
ghost use Rattle.life.specs.Faults.{number_of, place_of};
ghost use Rattle.life.specs.declared.faults.Fault.TheVariants.{Command as InCommand, SetUp as InSetUp, Start as InStart, Port as InPort};

use ports::PortFault;
use processor::CommandFault;
use registers::{SetUpFault, StartFault};
use table::{Place, Refusal};

#[derive(Clone, Copy, PartialEq, Eq, Debug)]
pub enum Fault {
    Command(CommandFault),
    SetUp(SetUpFault),
    Start(StartFault),
    Port(PortFault),
}

impl From<CommandFault> for Fault {
    ghost from_gives = { λ t r. r ≡ InCommand t };

    fn from(fault: CommandFault) -> Fault {
        Fault::Command(fault)
    }
}

impl From<SetUpFault> for Fault {
    ghost from_gives = { λ t r. r ≡ InSetUp t };

    fn from(fault: SetUpFault) -> Fault {
        Fault::SetUp(fault)
    }
}

impl From<StartFault> for Fault {
    ghost from_gives = { λ t r. r ≡ InStart t };

    fn from(fault: StartFault) -> Fault {
        Fault::Start(fault)
    }
}

impl From<PortFault> for Fault {
    ghost from_gives = { λ t r. r ≡ InPort t };

    fn from(fault: PortFault) -> Fault {
        Fault::Port(fault)
    }
}

impl Refusal for Fault {
    ghost numbered = { number_of };

    ghost found_at = { place_of };

    fn number(self) -> u32 {
        match self {
            Fault::Command(fault) => fault.number(),
            Fault::SetUp(fault) => fault.number(),
            Fault::Start(fault) => fault.number(),
            Fault::Port(fault) => fault.number(),
        }
    }

    fn place(self) -> Place {
        match self {
            Fault::Command(fault) => fault.place(),
            Fault::SetUp(fault) => fault.place(),
            Fault::Start(fault) => fault.place(),
            Fault::Port(fault) => fault.place(),
        }
    }
}
