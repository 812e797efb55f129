// Reads calls: the first word names the call, and the parts follow in their order. Each function
// knows one group of names, and hands any other name to the next; the place is behind the name, which
// goes along, so that it is looked for once.
ghost use Rattle.std.specs.Prelude.{◌≡◌, IfErr};
ghost use Rattle.call_text.specs.Parts.{into};
ghost use Rattle.call_text.specs.Reading.{address_call, blocks_at, cell_call, port_call, read_call, set_up_call, table_call, walk_call};
ghost use Rattle.life.specs.declared.calls.Call.TheVariants.{OnSetUp};
ghost use Rattle.tokens.specs.Numbers.{told};

use crate::parts::{input_step, marking, output_step, purge, search, two_numbers};
use life::{Call, PortCall, RowCall, SetUpCall, WalkCall};
use tokens::{Cursor, Expected, TextFault, Word};

fn blocks(rest: &mut Cursor) -> Result<SetUpCall, TextFault>
    ensures answer { into OnSetUp (told result rest.new.at) ≡ blocks_at rest.old.line.now rest.old.at }
    ensures line { rest.new.line ≡ rest.old.line }
{
    let channel = rest.number()?;
    let take = rest.number()?;
    let start = rest.number()?;
    Ok(SetUpCall::Blocks {
        channel,
        take,
        start,
    })
}

// The calls that run the ports.
fn port_call(word: Word, rest: &mut Cursor) -> Result<Call, TextFault>
    ensures answer { told result rest.new.at ≡ port_call rest.old.line.now word.entry.text.now word.entry.start rest.old.at }
    ensures line { rest.new.line ≡ rest.old.line }
{
    let call = if word.is(b"start-input") {
        let (channel, step) = two_numbers(rest)?;
        PortCall::StartInput { channel, step }
    } else if word.is(b"start-output") {
        let (channel, step) = two_numbers(rest)?;
        PortCall::StartOutput { channel, step }
    } else if word.is(b"stop") {
        PortCall::Stop
    } else if word.is(b"block") {
        let value = rest.number()?;
        PortCall::Block { value }
    } else if word.is(b"word") {
        PortCall::Word
    } else {
        return Err(word.fault(Expected::Call));
    };
    Ok(Call::OnPort(call))
}

// The calls that set up the ports.
fn set_up_call(word: Word, rest: &mut Cursor) -> Result<Call, TextFault>
    ensures answer { told result rest.new.at ≡ set_up_call rest.old.line.now word.entry.text.now word.entry.start rest.old.at }
    ensures line { rest.new.line ≡ rest.old.line }
{
    let call = if word.is(b"set-input") {
        let (channel, step) = two_numbers(rest)?;
        let to = input_step(rest)?;
        SetUpCall::InputStep { channel, step, to }
    } else if word.is(b"set-output") {
        let (channel, step) = two_numbers(rest)?;
        let to = output_step(rest)?;
        SetUpCall::OutputStep { channel, step, to }
    } else if word.is(b"set-blocks") {
        blocks(rest)?
    } else if word.is(b"set-width") {
        let bits = rest.number()?;
        SetUpCall::BlockWidth { bits }
    } else {
        return port_call(word, rest);
    };
    Ok(Call::OnSetUp(call))
}

// The calls that move an address, or read the registers.
fn walk_call(word: Word, rest: &mut Cursor) -> Result<Call, TextFault>
    ensures answer { told result rest.new.at ≡ walk_call rest.old.line.now word.entry.text.now word.entry.start rest.old.at }
    ensures line { rest.new.line ≡ rest.old.line }
{
    let call = if word.is(b"rewind") {
        WalkCall::Rewind
    } else if word.is(b"next-hit") {
        WalkCall::NextHit
    } else if word.is(b"find-empty") {
        WalkCall::FindEmpty
    } else if word.is(b"next-empty") {
        WalkCall::NextEmpty
    } else if word.is(b"registers") {
        WalkCall::Registers
    } else {
        return set_up_call(word, rest);
    };
    Ok(Call::OnWalk(call))
}

// The calls that change all rows, or the next empty one.
fn table_call(word: Word, rest: &mut Cursor) -> Result<Call, TextFault>
    ensures answer { told result rest.new.at ≡ table_call rest.old.line.now word.entry.text.now word.entry.start rest.old.at }
    ensures line { rest.new.line ≡ rest.old.line }
{
    let call = if word.is(b"append") {
        RowCall::Append
    } else if word.is(b"purge") {
        let kind = purge(rest)?;
        RowCall::Purge(kind)
    } else if word.is(b"clear-access") {
        RowCall::ClearAccess
    } else if word.is(b"reset") {
        RowCall::Reset
    } else {
        return walk_call(word, rest);
    };
    Ok(Call::OnRow(call))
}

// The calls on the row at the hit address or the empty address.
fn address_call(word: Word, rest: &mut Cursor) -> Result<Call, TextFault>
    ensures answer { told result rest.new.at ≡ address_call rest.old.line.now word.entry.text.now word.entry.start rest.old.at }
    ensures line { rest.new.line ≡ rest.old.line }
{
    let call = if word.is(b"read-hit") {
        let segment = rest.number()?;
        RowCall::ReadAtHit { segment }
    } else if word.is(b"write-hit") {
        let (segment, word) = two_numbers(rest)?;
        RowCall::WriteAtHit { segment, word }
    } else if word.is(b"read-empty") {
        let segment = rest.number()?;
        RowCall::ReadAtEmpty { segment }
    } else if word.is(b"write-empty") {
        let (segment, word) = two_numbers(rest)?;
        RowCall::WriteAtEmpty { segment, word }
    } else {
        return table_call(word, rest);
    };
    Ok(Call::OnRow(call))
}

// The calls on a row by its number, and the search.
fn row_or_search_call(word: Word, rest: &mut Cursor) -> Result<Call, TextFault>
    ensures answer { told result rest.new.at ≡ cell_call rest.old.line.now word.entry.text.now word.entry.start rest.old.at }
    ensures line { rest.new.line ≡ rest.old.line }
{
    if word.is(b"read") {
        let (row, segment) = two_numbers(rest)?;
        Ok(Call::OnRow(RowCall::Read { row, segment }))
    } else if word.is(b"write") {
        let (row, segment) = two_numbers(rest)?;
        let word = rest.number()?;
        Ok(Call::OnRow(RowCall::Write { row, segment, word }))
    } else if word.is(b"marks") {
        let row = rest.number()?;
        Ok(Call::OnRow(RowCall::Marks { row }))
    } else if word.is(b"set-marks") {
        let row = rest.number()?;
        let marking = marking(rest)?;
        Ok(Call::OnRow(RowCall::SetMarks { row, marking }))
    } else if word.is(b"search") {
        let query = search(rest)?;
        Ok(Call::Search(query))
    } else {
        address_call(word, rest)
    }
}

// The call whose name is the next word; then the place is behind its last word. Flags are taken where
// they stand; what else follows is not looked at. After a fault the place is the old one.
pub fn read_call(rest: &mut Cursor) -> Result<Call, TextFault>
    ensures answer { told result rest.new.at ≡ read_call rest.old.line.now rest.old.at }
    ensures line { rest.new.line ≡ rest.old.line }
    ensures fault { IfErr result (λ _. rest.new.at ≡ rest.old.at) }
{
    let name = rest.next_word();
    let mut parts = Cursor {
        at: name.end,
        ..*rest
    };
    let call = row_or_search_call(name, &mut parts)?;
    rest.at = parts.at;
    Ok(call)
}
