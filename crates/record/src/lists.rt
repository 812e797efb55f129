// What takes several lines of a record: all registers, and rows one after the other.
use crate::asks::{RegisterAsk, RowAsk};
use crate::lines::put_line;
use crate::rows::RowText;
use processor::Processor;
use register_text::{Register, ToldText, tell};
use std::alloc::AllocError;
use std::iter;
use table::Table;

// The registers beside the set-up of the channels.
const PLAIN: [Register; 11] = [
    Register::HitAddress,
    Register::EmptyAddress,
    Register::Hit,
    Register::Several,
    Register::Channel,
    Register::Keys,
    Register::StepHits,
    Register::Buffers,
    Register::Input,
    Register::Output,
    Register::Width,
];

// Functions, here and below, and no methods of `Record`: a loop over the chain of registers got no proof
// as one.
pub(crate) fn put_registers<T: Table>(
    out: &mut String,
    processor: &Processor<T>,
    number: usize,
) -> Result<(), AllocError> {
    let set_up = (0..2).flat_map(|channel| {
        let inputs = (0..8).map(move |step| Register::InputStep { channel, step });
        let outputs = (0..8).map(move |step| Register::OutputStep { channel, step });
        iter::once(Register::Blocks { channel })
            .chain(inputs)
            .chain(outputs)
    });
    for register in PLAIN.into_iter().chain(set_up) {
        let told = ToldText(tell(&processor.registers, register));
        put_line(out, number, RegisterAsk(register), told)?;
    }
    Ok(())
}

// The rows from `from` on, at most `count` of them if a count is given.
pub(crate) fn put_rows<T: Table>(
    out: &mut String,
    table: &T,
    number: usize,
    from: u32,
    count: Option<u32>,
) -> Result<(), AllocError> {
    let depth = table.shape().depth;
    let end = count.map_or(depth, |count| from.saturating_add(count).min(depth));
    for row in from..end {
        put_line(out, number, RowAsk(row), RowText(table, row))?;
    }
    Ok(())
}
