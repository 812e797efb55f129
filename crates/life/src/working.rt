// The working of one call.
ghost use Rattle.std.specs.Prelude.{◌≡◌, ℕ, Ok};
ghost use Rattle.life.specs.Meaning.{port_regs, port_reply, port_rows, regs_after, reply_to, row_regs, row_reply, row_rows, rows_after, set_up_regs, set_up_reply, state_of, walk_regs, walk_reply};

use crate::calls::{Answer, Call, PortCall, Reply, RowCall, SetUpCall, WalkCall};
use ports::{block, word};
use processor::Processor;
use table::Table;

// Works one call. Its reply, the rows and the registers after it are those of the meaning.
pub fn perform<T: Table>(processor: &mut Processor<T>, call: Call) -> Reply
    ensures answer { result ≡ reply_to (state_of T.Table processor.old) call }
    ensures rows { T.rows processor.new.table ≡ rows_after (state_of T.Table processor.old) call }
    ensures registers { processor.new.registers ≡ regs_after (state_of T.Table processor.old) call }
    ensures width { T.width processor.new.table ≡ T.width processor.old.table }
    ensures frame { T.frame processor.old.table processor.new.table }
{
    match call {
        Call::OnRow(call) => on_row(processor, call),
        Call::Search(query) => Ok(Answer::Address(processor.search(query)?)),
        Call::OnWalk(call) => on_walk(processor, call),
        Call::OnSetUp(call) => on_set_up(processor, call),
        Call::OnPort(call) => on_port(processor, call),
    }
}

// A call that reads returns from its arm; one that changes is done if nothing refused it.
fn on_row<T: Table>(processor: &mut Processor<T>, call: RowCall) -> Reply
    ensures answer { result ≡ row_reply (state_of T.Table processor.old) call }
    ensures rows { T.rows processor.new.table ≡ row_rows (state_of T.Table processor.old) call }
    ensures registers { processor.new.registers ≡ row_regs (state_of T.Table processor.old) call }
    ensures width { T.width processor.new.table ≡ T.width processor.old.table }
    ensures frame { T.frame processor.old.table processor.new.table }
{
    match call {
        RowCall::Read { row, segment } => return Ok(Answer::Word(processor.read(row, segment)?)),
        RowCall::Marks { row } => return Ok(Answer::Marks(processor.marks(row)?)),
        RowCall::ReadAtHit { segment } => return Ok(Answer::Word(processor.read_at_hit(segment)?)),
        RowCall::ReadAtEmpty { segment } => {
            return Ok(Answer::Word(processor.read_at_empty(segment)?));
        }
        RowCall::Write { row, segment, word } => processor.write(row, segment, word)?,
        RowCall::SetMarks { row, marking } => processor.set_marks(row, marking)?,
        RowCall::WriteAtHit { segment, word } => processor.write_at_hit(segment, word)?,
        RowCall::WriteAtEmpty { segment, word } => processor.write_at_empty(segment, word)?,
        RowCall::Append => processor.append()?,
        RowCall::Purge(kind) => processor.purge(kind),
        RowCall::ClearAccess => processor.clear_access(),
        RowCall::Reset => processor.reset(),
    }
    Ok(Answer::Done)
}

// None of these is refused. A reply all the same: an answer has room for all registers, and would be
// copied into one.
fn on_walk<T: Table>(processor: &mut Processor<T>, call: WalkCall) -> Reply
    ensures answer { result ≡ Ok (walk_reply (state_of T.Table processor.old) call) }
    ensures rows { T.rows processor.new.table ≡ T.rows processor.old.table }
    ensures registers { processor.new.registers ≡ walk_regs (state_of T.Table processor.old) call }
    ensures width { T.width processor.new.table ≡ T.width processor.old.table }
    ensures frame { T.frame processor.old.table processor.new.table }
{
    match call {
        WalkCall::Rewind => Ok(Answer::Address(processor.rewind())),
        WalkCall::NextHit => Ok(Answer::Address(processor.next_hit())),
        WalkCall::FindEmpty => Ok(Answer::Address(processor.find_empty())),
        WalkCall::NextEmpty => Ok(Answer::Address(processor.next_empty())),
        WalkCall::Registers => Ok(Answer::Registers(processor.registers())),
    }
}

fn on_set_up<T: Table>(processor: &mut Processor<T>, call: SetUpCall) -> Reply
    ensures answer { result ≡ set_up_reply (state_of T.Table processor.old) call }
    ensures rows { T.rows processor.new.table ≡ T.rows processor.old.table }
    ensures registers { processor.new.registers ≡ set_up_regs (state_of T.Table processor.old) call }
    ensures width { T.width processor.new.table ≡ T.width processor.old.table }
    ensures frame { T.frame processor.old.table processor.new.table }
{
    let registers = &mut processor.registers;
    match call {
        SetUpCall::InputStep { channel, step, to } => registers.set_input_step(channel, step, to)?,
        SetUpCall::OutputStep { channel, step, to } => registers.set_output_step(
            channel, step, to,
        )?,
        SetUpCall::Blocks {
            channel,
            take,
            start,
        } => registers.set_blocks(channel, take, start)?,
        SetUpCall::BlockWidth { bits } => registers.set_block_width(bits)?,
    }
    Ok(Answer::Done)
}

fn on_port<T: Table>(processor: &mut Processor<T>, call: PortCall) -> Reply
    ensures answer { result ≡ port_reply (state_of T.Table processor.old) call }
    ensures rows { T.rows processor.new.table ≡ port_rows (state_of T.Table processor.old) call }
    ensures registers { processor.new.registers ≡ port_regs (state_of T.Table processor.old) call }
    ensures width { T.width processor.new.table ≡ T.width processor.old.table }
    ensures frame { T.frame processor.old.table processor.new.table }
{
    match call {
        PortCall::StartInput { channel, step } => processor.registers.start_input(channel, step)?,
        PortCall::StartOutput { channel, step } => processor.registers.start_output(channel, step)?,
        PortCall::Stop => processor.registers.stop(),
        PortCall::Block { value } => return Ok(Answer::Block(block(processor, value)?)),
        PortCall::Word => return Ok(Answer::Word(word(processor)?)),
    }
    Ok(Answer::Done)
}
