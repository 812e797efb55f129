// Starting and stopping the ports.
ghost use Rattle.std.specs.Prelude.{◌≡◌, Bool};
ghost use Rattle.registers.specs.Start.{input_checked, input_ends, input_started, output_checked, output_ends, output_started, some_ends, stopped};
ghost use Rattle.table.specs.Calls.{granted};

use crate::faults::StartFault;
use crate::setting::{InputStep, OutputStep, StepAt};
use crate::state::{Buffers, InputPlace, OutputPlace, Registers, Sequence};

// A step of a port, which may be the last of its sequence. A trait and no closure: `some_ends` then
// says in its promise which flag it looks for.
trait Step {
    ghost ends: { Self → Bool };

    fn ends(&self) -> bool
        ensures answer { result ≡ ends self.now };
}

impl Step for InputStep {
    ghost ends = { input_ends };

    fn ends(&self) -> bool {
        self.end
    }
}

impl Step for OutputStep {
    ghost ends = { output_ends };

    fn ends(&self) -> bool {
        self.end
    }
}

// Whether a step, the one with the number `from` or a later one, is a last one.
fn some_ends<S: Step>(steps: &[S], from: u32) -> bool
    ensures answer { result ≡ some_ends S.Step.ends steps.now from }
{
    steps.iter().skip(from as usize).any(|step| step.ends())
}

// Channel and step come as numbers, whatever they are: a wrong one is refused, the first of them.
impl Registers {
    // Opens the input port's sequence, also if it is open, with empty buffers.
    pub fn start_input(&mut self, channel: u32, step: u32) -> Result<(), StartFault>
        ensures answer { result ≡ input_checked channel step self.old }
        ensures registers { self.new ≡ granted result (input_started channel step self.old) self.old }
    {
        let StepAt { channel, step } = StepAt::new(channel, step)?;
        let steps = self.setup.of(channel).inputs;
        if !steps[step as usize].head {
            return Err(StartFault::NoHead);
        }
        if !some_ends(&steps, step) {
            return Err(StartFault::NoEnd);
        }
        self.input.channel = channel;
        self.input.hits = [false; 8];
        self.input.buffers = Buffers::default();
        self.input.sequence = Sequence::Open(InputPlace { step, block: 0 });
        Ok(())
    }

    // Opens the output port's sequence, also if it is open.
    pub fn start_output(&mut self, channel: u32, step: u32) -> Result<(), StartFault>
        ensures answer { result ≡ output_checked channel step self.old }
        ensures registers { self.new ≡ granted result (output_started channel step self.old) self.old }
    {
        let StepAt { channel, step } = StepAt::new(channel, step)?;
        let steps = self.setup.of(channel).outputs;
        if !some_ends(&steps, step) {
            return Err(StartFault::NoEnd);
        }
        self.output = Sequence::Open(OutputPlace { channel, step });
        Ok(())
    }

    // Ends both ports' sequences, as if they had never been started.
    pub fn stop(&mut self)
        ensures registers { self.new ≡ stopped self.old }
    {
        self.input.sequence = Sequence::NotStarted;
        self.input.hits = [false; 8];
        self.output = Sequence::NotStarted;
    }
}
