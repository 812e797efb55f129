// The head of a listing: its members in order, and a fence over all.
use cascade::{Kind, Seat};
use tokens::{Cursor, Expected, TextFault};

// A member, or the fence over all members.
#[derive(Clone, Copy)]
pub enum HeadLine {
    Member(Seat),
    Fence(u32),
}

fn width(rest: &mut Cursor) -> Result<u32, TextFault> {
    let word = rest.next_word();
    match word.number()? {
        width @ 1..=8 => {
            rest.at = word.end;
            Ok(width)
        }
        _ => Err(word.fault(Expected::Width)),
    }
}

// How many rows a fence behind a member hides: none, if no fence is named next.
fn fence(rest: &mut Cursor) -> Result<u32, TextFault> {
    let word = rest.next_word();
    if !word.is(b"fence") {
        return Ok(0);
    }
    rest.at = word.end;
    rest.number()
}

// The member or the fence that a line of the head names; nothing, if the line names neither, so that
// the head has ended. Then and after a fault the place is the old one.
pub fn read_head_line(rest: &mut Cursor) -> Result<Option<HeadLine>, TextFault> {
    let word = rest.next_word();
    let mut parts = Cursor {
        at: word.end,
        ..*rest
    };
    let line = match word.text {
        b"fence" => HeadLine::Fence(parts.number()?),
        b"device" => {
            let kind = Kind::Device(width(&mut parts)?);
            let hidden = fence(&mut parts)?;
            HeadLine::Member(Seat { kind, hidden })
        }
        b"planes" => {
            let hidden = fence(&mut parts)?;
            HeadLine::Member(Seat {
                kind: Kind::Planes,
                hidden,
            })
        }
        _ => return Ok(None),
    };
    rest.at = parts.at;
    Ok(Some(line))
}
