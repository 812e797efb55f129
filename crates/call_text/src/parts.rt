// Reads the parts of calls: numbers in pairs, flags, kinds, steps of the ports.
ghost use Rattle.std.specs.Prelude.{◌≡◌};
ghost use Rattle.call_text.specs.Parts.{flag_at, input_at, item_named, marking_at, output_at, purge_at, search_at, state_named, two_numbers};
ghost use Rattle.tokens.specs.Numbers.{told};
ghost use Rattle.tokens.specs.Words.{next_end, next_word, word_start};

use registers::{InputStep, Item, OutputStep};
use table::{Marking, Purge, Search};
use tokens::{Cursor, Expected, TextFault};

pub(crate) fn two_numbers(rest: &mut Cursor) -> Result<(u32, u32), TextFault>
    ensures answer { told result rest.new.at ≡ two_numbers rest.old.line.now rest.old.at }
    ensures line { rest.new.line ≡ rest.old.line }
{
    let first = rest.number()?;
    let second = rest.number()?;
    Ok((first, second))
}

// Whether a flag is set. A word that is not its name is left to be read.
fn flag(rest: &mut Cursor, name: &[u8]) -> bool
    ensures answer { (result, rest.new.at) ≡ flag_at rest.old.line.now rest.old.at name.now }
    ensures line { rest.new.line ≡ rest.old.line }
{
    let word = rest.next_word();
    let set = word.is(name);
    if set {
        rest.at = word.end;
    }
    set
}

// By tests of whole words: under a `match` on a word's bytes the contracts here and in `reading` stay open.

// Whether a row is to be empty.
fn state(rest: &mut Cursor) -> Result<bool, TextFault>
    ensures answer { told result rest.new.at ≡ state_named (next_word rest.old.line.now rest.old.at) (word_start rest.old.line.now rest.old.at) (next_end rest.old.line.now rest.old.at) }
    ensures line { rest.new.line ≡ rest.old.line }
{
    let word = rest.next_word();
    let empty = if word.is(b"valid") {
        false
    } else if word.is(b"empty") {
        true
    } else {
        return Err(word.fault(Expected::State));
    };
    rest.at = word.end;
    Ok(empty)
}

pub(crate) fn marking(rest: &mut Cursor) -> Result<Marking, TextFault>
    ensures answer { told result rest.new.at ≡ marking_at rest.old.line.now rest.old.at }
    ensures line { rest.new.line ≡ rest.old.line }
{
    let empty = state(rest)?;
    let access = flag(rest, b"access");
    Ok(Marking { empty, access })
}

pub(crate) fn purge(rest: &mut Cursor) -> Result<Purge, TextFault>
    ensures answer { told result rest.new.at ≡ purge_at rest.old.line.now rest.old.at }
    ensures line { rest.new.line ≡ rest.old.line }
{
    let word = rest.next_word();
    let kind = if word.is(b"all") {
        Purge::All
    } else if word.is(b"with-access") {
        Purge::WithAccess
    } else if word.is(b"without-access") {
        Purge::WithoutAccess
    } else {
        return Err(word.fault(Expected::Purge));
    };
    rest.at = word.end;
    Ok(kind)
}

pub(crate) fn search(rest: &mut Cursor) -> Result<Search, TextFault>
    ensures answer { told result rest.new.at ≡ search_at rest.old.line.now rest.old.at }
    ensures line { rest.new.line ≡ rest.old.line }
{
    let (key, mask) = two_numbers(rest)?;
    let segment = rest.number()?;
    let head = flag(rest, b"head");
    let access = flag(rest, b"access");
    Ok(Search {
        key,
        mask,
        segment,
        head,
        access,
    })
}

pub(crate) fn input_step(rest: &mut Cursor) -> Result<InputStep, TextFault>
    ensures answer { told result rest.new.at ≡ input_at rest.old.line.now rest.old.at }
    ensures line { rest.new.line ≡ rest.old.line }
{
    let mask = rest.number()?;
    let (shift, segment) = two_numbers(rest)?;
    let head = flag(rest, b"head");
    let access = flag(rest, b"access");
    let end = flag(rest, b"end");
    Ok(InputStep {
        mask,
        shift,
        segment,
        head,
        access,
        end,
    })
}

fn item(rest: &mut Cursor) -> Result<Item, TextFault>
    ensures answer { told result rest.new.at ≡ item_named rest.old.line.now (next_word rest.old.line.now rest.old.at) (word_start rest.old.line.now rest.old.at) (next_end rest.old.line.now rest.old.at) }
    ensures line { rest.new.line ≡ rest.old.line }
{
    let word = rest.next_word();
    rest.at = word.end;
    if word.is(b"key") {
        Ok(Item::Key(rest.number()?))
    } else if word.is(b"status") {
        Ok(Item::Status)
    } else if word.is(b"address") {
        Ok(Item::Address)
    } else if word.is(b"segment") {
        Ok(Item::Segment(rest.number()?))
    } else {
        Err(word.fault(Expected::Item))
    }
}

pub(crate) fn output_step(rest: &mut Cursor) -> Result<OutputStep, TextFault>
    ensures answer { told result rest.new.at ≡ output_at rest.old.line.now rest.old.at }
    ensures line { rest.new.line ≡ rest.old.line }
{
    let item = item(rest)?;
    let end = flag(rest, b"end");
    Ok(OutputStep { item, end })
}
