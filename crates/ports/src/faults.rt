// What the ports refuse.
ghost use Rattle.std.specs.Prelude.{◌≡◌};
ghost use Rattle.ports.specs.Faults.{number_of, place_of, step_in};
ghost use Rattle.ports.specs.declared.faults.PortFault.TheVariants.{InCommand};

use processor::CommandFault;
use table::{Place, Refusal};

// What a command refused to a step of a port, whole.
#[derive(Clone, Copy, PartialEq, Eq, Debug)]
pub struct AtStep {
    pub step: u32,
    pub fault: CommandFault,
}

// Nothing was started; the output has ended; a block's value has too many bits, or 64 blocks are
// gone, at a step; or what a command refused to a step.
#[derive(Clone, Copy, PartialEq, Eq, Debug)]
pub enum PortFault {
    NotStarted,
    HasEnded,
    TooWide(u32),
    BlocksGone(u32),
    InCommand(AtStep),
}

impl From<AtStep> for PortFault {
    ghost from_gives = { λ t r. r ≡ InCommand t };

    fn from(refused: AtStep) -> PortFault {
        PortFault::InCommand(refused)
    }
}

impl Refusal for PortFault {
    ghost numbered = { number_of };

    ghost found_at = { place_of };

    fn number(self) -> u32 {
        match self {
            PortFault::NotStarted => 11,
            PortFault::HasEnded => 12,
            PortFault::TooWide(_) => 13,
            PortFault::BlocksGone(_) => 14,
            PortFault::InCommand(at) => at.fault.number(),
        }
    }

    fn place(self) -> Place {
        match self {
            PortFault::InCommand(at) => at.fault.place(),
            _ => Place::Port,
        }
    }
}

impl PortFault {
    // The step that was refused, and stays next.
    pub fn step(self) -> Option<u32>
        ensures answer { result ≡ step_in self }
    {
        match self {
            PortFault::NotStarted | PortFault::HasEnded => None,
            PortFault::TooWide(step) | PortFault::BlocksGone(step) => Some(step),
            PortFault::InCommand(at) => Some(at.step),
        }
    }
}
