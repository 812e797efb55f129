// The input port: a block goes into the buffers, and may run the next step's search.
ghost use Rattle.std.specs.Prelude.{◌≡◌, ◌<◌, map, Some};
ghost use Rattle.ports.specs.Ahead.{StaysAhead};
ghost use Rattle.ports.specs.Input.{asked, block_answer, block_asks, block_left, ran, step_answer, step_at, step_left};
ghost use Rattle.ports.specs.Texts.{block_text};
ghost use Rattle.table.specs.Calls.{granted};
ghost use Rattle.table.specs.Row.{searched};

use crate::buffers::{bit, fits, key, shifted_in};
use crate::faults::{AtStep, PortFault};
use processor::Processor;
use registers::{Buffers, InputPlace, InputStep, Sequence};
use std::fmt;
use table::{Search, Table};

// What became of a block: the sequence had ended, or it was taken, or a search ran at it.
#[derive(Clone, Copy, PartialEq, Eq, Debug)]
pub enum BlockAnswer {
    Ignored,
    Taken,
    Searched,
}

impl fmt::Display for BlockAnswer {
    ghost output = { λ x. Some (block_text x) };

    fn fmt<W: fmt::Write>(&self, f: &mut fmt::Formatter<W>) -> fmt::Result {
        f.write_str(match self {
            BlockAnswer::Ignored => "ignored",
            BlockAnswer::Taken => "taken",
            BlockAnswer::Searched => "searched",
        })
    }
}

// A block's turn: the place of its step and its own number, which are both there.
#[derive(Clone, Copy)]
struct Turn {
    place: InputPlace,
    ghost step: { place.step < 8 },
    ghost block: { place.block < 64 },
}

// One block of a telegram. A refused block changes nothing, and its step stays next.
pub fn block<T: Table>(processor: &mut Processor<T>, value: u32) -> Result<BlockAnswer, PortFault>
    ensures answer { result ≡ block_answer (T.width processor.old.table) processor.old.registers value processor.old.registers.input.sequence }
    ensures registers { processor.new.registers ≡ granted result (block_left (T.rows processor.old.table) processor.old.registers value processor.old.registers.input.sequence) processor.old.registers }
    ensures rows { T.rows processor.new.table ≡ granted result (ran (block_asks processor.old.registers value processor.old.registers.input.sequence) (T.rows processor.old.table)) (T.rows processor.old.table) }
    ensures width { T.width processor.new.table ≡ T.width processor.old.table }
    ensures frame { T.frame processor.old.table processor.new.table }
{
    // As for the output: a place behind the eighth step has ended.
    let place = match processor.registers.input.sequence {
        Sequence::NotStarted => return Err(PortFault::NotStarted),
        Sequence::Open(place) if place.step < 8 => place,
        Sequence::Open(_) | Sequence::Ended => return Ok(BlockAnswer::Ignored),
    };
    let setup = &processor.registers.setup;
    if !fits(setup.width, value) {
        return Err(PortFault::TooWide(place.step));
    }
    if place.block >= 64 {
        return Err(PortFault::BlocksGone(place.step));
    }
    let channel = setup.of(processor.registers.input.channel);
    let mut buffers = processor.registers.input.buffers;
    if bit(channel.take, place.block) {
        buffers = shifted_in(buffers, setup.width, value);
    }
    if bit(channel.start, place.block) {
        return run_step(processor, Turn { place }, buffers);
    }
    processor.registers.input.buffers = buffers;
    processor.registers.input.sequence = Sequence::Open(InputPlace {
        step: place.step,
        block: place.block + 1,
    });
    Ok(BlockAnswer::Taken)
}

// The search of the step that is next. Only once it was granted is anything put into the registers.
#[tactic(auto, unfolding(table::specs::Calls::on_segment))]
fn run_step<T: Table>(
    processor: &mut Processor<T>,
    turn: Turn,
    buffers: Buffers,
) -> Result<BlockAnswer, PortFault>
    ensures answer { result ≡ step_answer (T.width processor.old.table) processor.old.registers turn.place }
    ensures registers { processor.new.registers ≡ granted result (step_left (map (searched (asked (step_at processor.old.registers turn.place) buffers)) (T.rows processor.old.table)) processor.old.registers turn.place buffers) processor.old.registers }
    ensures rows { T.rows processor.new.table ≡ granted result (map (searched (asked (step_at processor.old.registers turn.place) buffers)) (T.rows processor.old.table)) (T.rows processor.old.table) }
    ensures width { T.width processor.new.table ≡ T.width processor.old.table }
    ensures frame { T.frame processor.old.table processor.new.table }
{
    let InputPlace {
        step: number,
        block,
    } = turn.place;
    let registers = &processor.registers;
    let step = registers.setup.of(registers.input.channel).inputs[number as usize];
    let query = asked(step, buffers);
    let found = processor.search(query);
    let address = found.map_err(|fault| AtStep {
        step: number,
        fault,
    })?;
    let input = &mut processor.registers.input;
    input.keys[number as usize] = query.key;
    input.hits[number as usize] = address.is_some();
    input.buffers = buffers;
    input.sequence = if step.end {
        Sequence::Ended
    } else {
        Sequence::Open(InputPlace {
            step: number + 1,
            block: block + 1,
        })
    };
    Ok(BlockAnswer::Searched)
}

// The search that a step asks for. A step is another crate's, so it cannot be its `From`.
fn asked(step: InputStep, buffers: Buffers) -> Search
    ensures answer { result ≡ asked step buffers }
{
    Search {
        key: key(buffers, step.shift),
        mask: step.mask,
        segment: step.segment,
        head: step.head,
        access: step.access,
    }
}

// An open sequence always has an end flag before it, whatever calls were made, so it never runs past
// the steps of its channel, and a block is ignored only after the end.
pub fn sequences_end()
    ensures law { StaysAhead }
{}
