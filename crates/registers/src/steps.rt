// The set-up calls: each changes one step, one channel's blocks, or the width of a block.
ghost use Rattle.std.specs.Prelude.{◌≡◌, Ok};
ghost use Rattle.std.specs.Borrow.{sem};
ghost use Rattle.registers.specs.Lending.{LendsChannel};
ghost use Rattle.registers.specs.Setting.{blocks_checked, blocks_set, channel_of, closed, input_step_checked, input_step_set, item_within, output_step_checked, output_step_set, width_checked, width_set};
ghost use Rattle.table.specs.Calls.{granted};

use crate::faults::{OutOfRange, SetUpFault, below};
use crate::setting::{
    BlockWidth, Channel, ChannelSetUp, InputStep, Item, OutputStep, SetUp, StepAt,
};
use crate::state::{Registers, Sequence};

impl SetUp {
    pub fn of(&self, channel: Channel) -> ChannelSetUp
        ensures answer { result ≡ channel_of self.now channel }
    {
        match channel {
            Channel::A => self.a,
            Channel::B => self.b,
        }
    }

    fn of_mut(&mut self, channel: Channel) -> &mut ChannelSetUp
        ensures* writes_back { sem 𝓛 (LendsChannel channel self.entry result) }
        ensures value { result.now ≡ channel_of self.old channel }
    {
        match channel {
            Channel::A => &mut self.a,
            Channel::B => &mut self.b,
        }
    }
}

impl<P> Sequence<P> {
    // What is set up for a port cannot change while its sequence is open.
    fn closed(&self) -> Result<(), SetUpFault>
        ensures answer { result ≡ closed self.now }
    {
        if matches!(self, Sequence::Open(_)) {
            return Err(SetUpFault::SequenceOpen);
        }
        Ok(())
    }
}

// Channel, step and width come as numbers, whatever they are: a wrong one is refused, the first of them.
impl Registers {
    pub fn set_input_step(
        &mut self,
        channel: u32,
        step: u32,
        to: InputStep,
    ) -> Result<(), SetUpFault>
        ensures answer { result ≡ input_step_checked channel step to self.old }
        ensures registers { self.new ≡ granted result (input_step_set channel step to self.old) self.old }
    {
        let at = StepAt::new(channel, step)?;
        below(to.shift, 4)?;
        below(to.segment, 8)?;
        self.input.sequence.closed()?;
        self.setup.of_mut(at.channel).inputs[at.step as usize] = to;
        Ok(())
    }

    // Bit b of `take` and of `start` belongs to block b of the channel.
    pub fn set_blocks(&mut self, channel: u32, take: u64, start: u64) -> Result<(), SetUpFault>
        ensures answer { result ≡ blocks_checked channel self.old }
        ensures registers { self.new ≡ granted result (blocks_set channel take start self.old) self.old }
    {
        let channel = Channel::try_from(channel)?;
        self.input.sequence.closed()?;
        let setup = self.setup.of_mut(channel);
        setup.take = take;
        setup.start = start;
        Ok(())
    }

    // The width of a block in bits: 8, 16 or 32.
    pub fn set_block_width(&mut self, bits: u32) -> Result<(), SetUpFault>
        ensures answer { result ≡ width_checked bits self.old }
        ensures registers { self.new ≡ granted result (width_set bits self.old) self.old }
    {
        let width = BlockWidth::try_from(bits)?;
        self.input.sequence.closed()?;
        self.setup.width = width;
        Ok(())
    }

    pub fn set_output_step(
        &mut self,
        channel: u32,
        step: u32,
        to: OutputStep,
    ) -> Result<(), SetUpFault>
        ensures answer { result ≡ output_step_checked channel step to self.old }
        ensures registers { self.new ≡ granted result (output_step_set channel step to self.old) self.old }
    {
        let at = StepAt::new(channel, step)?;
        to.item.check()?;
        self.output.closed()?;
        self.setup.of_mut(at.channel).outputs[at.step as usize] = to;
        Ok(())
    }
}

impl Item {
    // A key or a segment is one of eight.
    fn check(self) -> Result<(), OutOfRange>
        ensures answer { result ≡ item_within (λ n. record { 0 = n }) self (Ok tt) }
    {
        match self {
            Item::Key(number) | Item::Segment(number) => below(number, 8),
            Item::Status | Item::Address => Ok(()),
        }
    }
}
