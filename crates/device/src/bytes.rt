// Marks as bits of a byte.
ghost use Rattle.std.specs.Prelude.{◌≡◌, if◌then◌else◌};
ghost use Rattle.device.specs.Layout.{byte_of, marks_of};
ghost use Rattle.table.specs.Row.{marks_given, marks_written};

use table::{Marking, Marks};

pub(crate) const EMPTY: u8 = 0x80;

pub(crate) const ACCESS: u8 = 0x40;

pub(crate) const HIT: u8 = 0x20;

pub(crate) fn unpack(byte: u8) -> Marks
    ensures answer { result ≡ marks_of byte }
{
    Marks {
        empty: byte & EMPTY != 0,
        access: byte & ACCESS != 0,
        hit: byte & HIT != 0,
    }
}

pub(crate) fn flag(set: bool, bit: u8) -> u8
    ensures answer { result ≡ (if set then bit else 0) }
{
    if set { bit } else { 0 }
}

pub(crate) fn pack(marks: Marks) -> u8
    ensures answer { result ≡ byte_of marks }
{
    flag(marks.empty, EMPTY) | flag(marks.access, ACCESS) | flag(marks.hit, HIT)
}

// The marks of a row after a write: one on segment 0 makes it valid.
pub(crate) fn written(segment: u32, marks: Marks) -> Marks
    ensures answer { result ≡ marks_written segment marks }
{
    if segment == 0 {
        Marks {
            empty: false,
            ..marks
        }
    } else {
        marks
    }
}

// The marks of a row that is given some: an empty row has no hit.
pub(crate) fn given(marking: Marking, marks: Marks) -> Marks
    ensures answer { result ≡ marks_given marking marks }
{
    Marks {
        empty: marking.empty,
        access: marking.access,
        hit: marks.hit & !marking.empty,
    }
}
