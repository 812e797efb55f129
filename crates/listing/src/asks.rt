// What a line of a listing asks.
ghost use Rattle.std.specs.Prelude.{Some};
ghost use Rattle.listing.specs.Names.{flag_name};

use life::Call;
use register_text::Register;
use std::fmt;
use tokens::Cursor;

// The two kinds of flag.
#[derive(Clone, Copy, PartialEq, Eq, Debug)]
pub enum FlagName {
    Hit,
    Full,
}

impl fmt::Display for FlagName {
    ghost output = { λ x. Some (flag_name x) };

    fn fmt<W: fmt::Write>(&self, f: &mut fmt::Formatter<W>) -> fmt::Result {
        match self {
            FlagName::Hit => f.write_str("hit"),
            FlagName::Full => f.write_str("full"),
        }
    }
}

// A call of the processor, or a question that changes nothing: a register, a row with its marks and
// words, several such rows, or all from a row on, or the flags of members, whose starts stand at a
// place of the line. They stay text: an ask is plain and allocates nothing; that they are numbers was
// checked.
#[derive(Clone, Copy)]
pub enum Ask<'a> {
    Call(Call),
    Register(Register),
    Row(u32),
    Rows { from: u32, count: Option<u32> },
    Flags { kind: FlagName, starts: Cursor<'a> },
}

// What a line asks, and the rest of the line from its answer on, if it has one.
#[derive(Clone, Copy)]
pub struct Line<'a> {
    pub ask: Ask<'a>,
    pub answer: Option<&'a [u8]>,
}
