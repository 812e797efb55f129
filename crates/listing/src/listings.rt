// A whole listing: its cascade, what it asks line by line, and the first line that cannot be read.
use crate::asks::Line;
use crate::head::{HeadLine, read_head_line};
use crate::lines::{end, is_end, read_line, text_start};
use cascade::{MEMBERS, Seat};
use std::alloc::{AllocError, Global};
use tokens::{Cursor, Expected, TextFault};

// A line that asks something, and its number, counted from 1.
#[derive(Clone, Copy)]
pub struct Entry<'a> {
    pub number: usize,
    pub line: Line<'a>,
}

// A line that cannot be read. Not one type with `Entry`: an entry is worked on, a fault is told.
#[derive(Clone, Copy)]
pub struct LineFault {
    pub number: usize,
    pub fault: TextFault,
}

// The lines before a fault are kept, so the fault stands beside them, and reading is no `Result`.
#[derive(Drop)]
pub struct Listing<'a> {
    pub seats: Vec<Seat>,
    pub hidden: u32,
    pub entries: Vec<Entry<'a>>,
    pub fault: Option<LineFault>,
}

// Whether a line of the head may stand behind so many members.
fn may_stand(line: HeadLine, members: usize) -> Result<(), Expected> {
    match line {
        HeadLine::Member(_) if members >= MEMBERS => Err(Expected::Call),
        HeadLine::Fence(_) if members == 0 => Err(Expected::Member),
        _ => Ok(()),
    }
}

// What a line of the head names; nothing, if the head has ended. The place is where the line's text
// begins, and then behind what was named.
fn head_line(rest: &mut Cursor, members: usize) -> Result<Option<HeadLine>, TextFault> {
    let at = rest.at;
    match read_head_line(rest)? {
        Some(line) => {
            may_stand(line, members).map_err(|expected| TextFault { at, expected })?;
            end(*rest)?;
            Ok(Some(line))
        }
        None if members == 0 => Err(TextFault {
            at,
            expected: Expected::Member,
        }),
        None => Ok(None),
    }
}

// Why reading stops before the end of a listing.
enum Stop {
    Fault(TextFault),
    NoMemory(AllocError),
}

impl From<TextFault> for Stop {
    fn from(fault: TextFault) -> Stop {
        Stop::Fault(fault)
    }
}

impl From<AllocError> for Stop {
    fn from(error: AllocError) -> Stop {
        Stop::NoMemory(error)
    }
}

// Takes a line into a listing; a blank line or a comment brings nothing. `head` says how many members
// stand before it, as long as the head goes on. What is asked goes into its entry at once: handed on as
// a part of larger values, it was copied so often that short lines took half as long again.
fn take_line<'a>(
    listing: &mut Listing<'a>,
    head: &mut Option<usize>,
    number: usize,
    line: &'a [u8],
) -> Result<(), Stop> {
    let mut rest = text_start(line);
    if is_end(rest) {
        return Ok(());
    }
    if let Some(members) = *head
        && let Some(line) = head_line(&mut rest, members)?
    {
        match line {
            HeadLine::Member(seat) => {
                listing.seats.push(seat).map_err(AllocError::from)?;
                *head = Some(listing.seats.len());
            }
            HeadLine::Fence(rows) => {
                listing.hidden = rows;
                *head = None;
            }
        }
        return Ok(());
    }
    if let Some(line) = read_line(rest)? {
        *head = None;
        let entry = Entry { number, line };
        listing.entries.push(entry).map_err(AllocError::from)?;
    }
    Ok(())
}

// Reads a listing up to its end, or up to the first line that cannot be read.
pub fn read_listing(heap: Global, text: &[u8]) -> Result<Listing<'_>, AllocError> {
    let mut listing = Listing {
        seats: Vec::new(heap),
        hidden: 0,
        entries: Vec::new(heap),
        fault: None,
    };
    let mut head = Some(0);
    for (number, line) in (1..).zip(text.split(|byte| *byte == b'\n')) {
        match take_line(&mut listing, &mut head, number, line) {
            Ok(()) => {}
            Err(Stop::Fault(fault)) => {
                listing.fault = Some(LineFault { number, fault });
                break;
            }
            Err(Stop::NoMemory(error)) => return Err(error),
        }
    }
    Ok(listing)
}
