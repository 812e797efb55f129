// What a line of a record asks, as text.
use listing::{FlagName, RegisterName};
use register_text::Register;
use std::fmt;

// A register is told.
#[derive(Clone, Copy)]
pub(crate) struct RegisterAsk(pub(crate) Register);

impl fmt::Display for RegisterAsk {
    fn fmt<W: fmt::Write>(&self, f: &mut fmt::Formatter<W>) -> fmt::Result {
        write!(f, "tell {}", RegisterName(self.0))
    }
}

// A row by its number.
#[derive(Clone, Copy)]
pub(crate) struct RowAsk(pub(crate) u32);

impl fmt::Display for RowAsk {
    fn fmt<W: fmt::Write>(&self, f: &mut fmt::Formatter<W>) -> fmt::Result {
        write!(f, "row {}", self.0)
    }
}

// A question for flags: their kind, and the starts of the cut.
#[derive(Clone, Copy)]
pub(crate) struct FlagsAsk<'a>(pub(crate) FlagName, pub(crate) &'a [u32]);

impl fmt::Display for FlagsAsk<'_> {
    fn fmt<W: fmt::Write>(&self, f: &mut fmt::Formatter<W>) -> fmt::Result {
        write!(f, "flags {}", self.0)?;
        for start in self.1 {
            write!(f, " {start}")?;
        }
        Ok(())
    }
}
