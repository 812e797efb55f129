// A line that asks something, with the answer that a rack gave.
use crate::asks::{Ask, FlagName, Line};
use crate::names::register;
use call_text::read_call;
use life::{Call, WalkCall};
use tokens::{Cursor, Expected, TextFault};

// Where a line's text begins: a record's line number, digits and a colon, is passed over.
pub(crate) fn text_start(line: &[u8]) -> Cursor<'_> {
    let word = Cursor { line, at: 0 }.next_word();
    let at = match word.text {
        [digits @ .., b':'] if digits.iter().all(|byte| byte.is_ascii_digit()) => {
            let at = word.end;
            Cursor { line, at }.word_start()
        }
        _ => word.start,
    };
    Cursor { line, at }
}

// Whether nothing but a comment is left.
pub(crate) fn is_end(rest: Cursor) -> bool {
    matches!(rest.line.get(rest.word_start()), None | Some(b'#'))
}

// A fault where more than a comment is left.
pub(crate) fn end(rest: Cursor) -> Result<(), TextFault> {
    if is_end(rest) {
        return Ok(());
    }
    Err(TextFault {
        at: rest.word_start(),
        expected: Expected::End,
    })
}

fn flags<'a>(rest: &mut Cursor<'a>) -> Result<Ask<'a>, TextFault> {
    let word = rest.next_word();
    let kind = match word.text {
        b"hit" => FlagName::Hit,
        b"full" => FlagName::Full,
        _ => return Err(word.fault(Expected::FlagKind)),
    };
    rest.at = word.end;
    let starts = *rest;
    for word in starts.words() {
        word.number::<u32>()?;
        rest.at = word.end;
    }
    Ok(Ask::Flags { kind, starts })
}

fn rows<'a>(rest: &mut Cursor<'a>) -> Result<Ask<'a>, TextFault> {
    let from = rest.number()?;
    let count = if rest.next_word().text.is_empty() {
        None
    } else {
        Some(rest.number()?)
    };
    Ok(Ask::Rows { from, count })
}

fn ask<'a>(rest: &mut Cursor<'a>) -> Result<Ask<'a>, TextFault> {
    let word = rest.next_word();
    let mut parts = Cursor {
        at: word.end,
        ..*rest
    };
    let ask = match word.text {
        b"row" => Ask::Row(parts.number()?),
        b"rows" => rows(&mut parts)?,
        b"tell" => Ask::Register(register(&mut parts)?),
        b"flags" => flags(&mut parts)?,
        _ => return Ok(Ask::Call(read_call(rest)?)),
    };
    rest.at = parts.at;
    Ok(ask)
}

// The answer that follows an `=`, if there is one.
fn answer(rest: Cursor<'_>) -> Result<Option<&[u8]>, TextFault> {
    let start = rest.word_start();
    match rest.line.get(start) {
        None | Some(b'#') => Ok(None),
        Some(b'=') => {
            let at = start.saturating_add(1);
            let word = Cursor { at, ..rest }.next_word();
            if word.text.is_empty() {
                return Err(word.fault(Expected::Answer));
            }
            Ok(rest.line.get(word.start..))
        }
        Some(_) => Err(TextFault {
            at: start,
            expected: Expected::AnswerOrEnd,
        }),
    }
}

// What takes several lines of a record has no answer in a listing.
fn takes_lines(ask: Ask) -> bool {
    matches!(
        ask,
        Ask::Call(Call::OnWalk(WalkCall::Registers)) | Ask::Rows { .. }
    )
}

// Reads what is left of a line; a blank line or a comment asks nothing.
pub fn read_line(mut rest: Cursor<'_>) -> Result<Option<Line<'_>>, TextFault> {
    if is_end(rest) {
        return Ok(None);
    }
    let ask = ask(&mut rest)?;
    if takes_lines(ask) {
        end(rest)?;
    }
    let answer = answer(rest)?;
    Ok(Some(Line { ask, answer }))
}
