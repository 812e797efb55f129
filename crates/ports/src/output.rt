// The output port: each step tells one word of what was found.
ghost use Rattle.std.specs.Prelude.{◌≡◌, ◌<◌};
ghost use Rattle.ports.specs.Output.{bit_at, item_word, output_step_at, status_word, step_bits, word_answer, word_left};
ghost use Rattle.table.specs.Calls.{granted};

use crate::faults::{AtStep, PortFault};
use processor::{CommandFault, Processor};
use registers::{Channel, Item, OutputPlace, OutputStep, Registers, Sequence};
use table::Table;

// The next word. A refused step stays next.
pub fn word<T: Table>(processor: &mut Processor<T>) -> Result<u32, PortFault>
    ensures answer { result ≡ word_answer (T.width processor.old.table) (T.rows processor.old.table) processor.old.registers processor.old.registers.output }
    ensures registers { processor.new.registers ≡ granted result (word_left processor.old.registers processor.old.registers.output) processor.old.registers }
    ensures table { processor.new.table ≡ processor.old.table }
{
    // Registers are plain data: a place behind the eighth step has ended.
    let place = match processor.registers.output {
        Sequence::NotStarted => return Err(PortFault::NotStarted),
        Sequence::Open(place) if place.step < 8 => place,
        Sequence::Open(_) | Sequence::Ended => return Err(PortFault::HasEnded),
    };
    let step = step_at(&processor.registers, place);
    let told = item_word(processor, step.item);
    let word = told.map_err(|fault| AtStep {
        step: place.step,
        fault,
    })?;
    processor.registers.output = if step.end {
        Sequence::Ended
    } else {
        Sequence::Open(OutputPlace {
            channel: place.channel,
            step: place.step + 1,
        })
    };
    Ok(word)
}

// The step at a place, looked at where it stands: a channel's whole set-up is a large value to hand out.
fn step_at(registers: &Registers, place: OutputPlace) -> OutputStep
    requires { place.step < 8 }
    ensures answer { result ≡ output_step_at registers.now place }
{
    let steps = match place.channel {
        Channel::A => &registers.setup.a.outputs,
        Channel::B => &registers.setup.b.outputs,
    };
    steps[place.step as usize]
}

// The word of an item. By one match with guards, on ranges and on a missing hit address: a rule of this
// project, so that the cases stand as a list.
fn item_word<T: Table>(processor: &Processor<T>, item: Item) -> Result<u32, CommandFault>
    ensures answer { result ≡ item_word (T.width processor.now.table) (T.rows processor.now.table) processor.now.registers item }
{
    let registers = &processor.registers;
    let address = registers.found.address;
    match item {
        Item::Key(i) if i < 8 => Ok(registers.input.keys[i as usize]),
        Item::Key(_) => Ok(0),
        Item::Status => Ok(status(registers)),
        Item::Address if address.is_none() => Ok(0),
        Item::Address => Ok(0x8000_0000 | (address.unwrap() & 0x3_ffff)),
        Item::Segment(_) if address.is_none() => Err(CommandFault::NoHitAddress),
        Item::Segment(segment) => processor.read(address.unwrap(), segment),
    }
}

fn status(registers: &Registers) -> u32
    ensures answer { result ≡ status_word registers.now }
{
    let channel = registers.input.channel;
    bit_at(31, registers.found.hit)
        + bit_at(30, registers.found.several)
        + bit_at(29, channel == Channel::B)
        + step_bits(&registers.input.hits)
}

// A flag as a bit of a word.
fn bit_at(place: u32, flag: bool) -> u32
    requires place { place < 32 }
    ensures answer { result ≡ bit_at place flag }
{
    u32::from(flag) << place
}

// The step hits, bit i for step i. A loop and no `sum`: that a sum of bits fits a word was tried, and
// its proof did not close.
#[tactic(auto, using(crate::proofs::Words::step_bits_more, crate::proofs::Words::step_bits_lt, crate::proofs::Words::step_bits_fit), unfolding(crate::specs::Output::step_bits))]
fn step_bits(hits: &[bool; 8]) -> u32
    ensures answer { result ≡ step_bits hits.now 8 }
    ensures few { result < 256 }
{
    let mut word = 0;
    for (i, hit) in hits.iter().enumerate() {
        word += bit_at(i as u32, *hit);
    }
    word
}
