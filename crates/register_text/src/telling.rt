// What a register holds.
ghost use Rattle.std.specs.Prelude.{◌≡◌};
ghost use Rattle.register_text.specs.Told.{set_up_in, told_in};

use crate::names::{Register, Told};
use registers::{Channel, ChannelSetUp, Registers};

// The set-up of a channel by its number.
fn set_up(registers: &Registers, channel: u32) -> Option<ChannelSetUp>
    ensures answer { result ≡ set_up_in registers.now channel }
{
    let channel = Channel::try_from(channel).ok()?;
    Some(registers.setup.of(channel))
}

// What a register holds, if there is such a channel and step.
pub fn tell(registers: &Registers, register: Register) -> Option<Told>
    ensures answer { result ≡ told_in registers.now register }
{
    Some(match register {
        Register::HitAddress => Told::Address(registers.found.address),
        Register::EmptyAddress => Told::Address(registers.empty),
        Register::Hit => Told::Flag(registers.found.hit),
        Register::Several => Told::Flag(registers.found.several),
        Register::Channel => Told::Channel(registers.input.channel),
        Register::Keys => Told::Keys(registers.input.keys),
        Register::StepHits => Told::StepHits(registers.input.hits),
        Register::Buffers => Told::Buffers(registers.input.buffers),
        Register::Input => Told::Input(registers.input.sequence),
        Register::Output => Told::Output(registers.output),
        Register::Width => Told::Width(registers.setup.width),
        Register::Blocks { channel } => {
            let ChannelSetUp { take, start, .. } = set_up(registers, channel)?;
            Told::Blocks { take, start }
        }
        Register::InputStep { channel, step } => {
            let steps = set_up(registers, channel)?.inputs;
            Told::InputStep(*steps.get(step as usize)?)
        }
        Register::OutputStep { channel, step } => {
            let steps = set_up(registers, channel)?.outputs;
            Told::OutputStep(*steps.get(step as usize)?)
        }
    })
}
