// A row as text: its marks and all its words.
use answer_text::FaultText;
use std::fmt;
use std::fmt::Display;
use table::Table;
use tokens::Hex;

// A row of a table by its number: its marks and its words, or the table's refusal.
#[derive(Clone, Copy)]
pub(crate) struct RowText<'a, T>(pub(crate) &'a T, pub(crate) u32);

impl<T: Table> fmt::Display for RowText<'_, T> {
    fn fmt<W: fmt::Write>(&self, f: &mut fmt::Formatter<W>) -> fmt::Result {
        let RowText(table, row) = *self;
        match table.marks(row) {
            Ok(marks) => marks.fmt(f)?,
            Err(fault) => return FaultText(fault).fmt(f),
        }
        for segment in 0..table.shape().width {
            // Row and segment are there, so none of these is refused.
            if let Ok(word) = table.read(row, segment) {
                write!(f, " {}", Hex(word))?;
            }
        }
        Ok(())
    }
}
