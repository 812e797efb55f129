// An address as text.
ghost use Rattle.std.specs.Prelude.{Some};
ghost use Rattle.answer_text.specs.Answers.{address_text};

use std::fmt;

// A row, or none. `Option` is the library's, so its text is a type of its own.
#[derive(Clone, Copy)]
pub struct AddressText(pub Option<u32>);

impl fmt::Display for AddressText {
    ghost output = { λ x. Some (address_text x.0) };

    fn fmt<W: fmt::Write>(&self, f: &mut fmt::Formatter<W>) -> fmt::Result {
        match self.0 {
            Some(row) => write!(f, "row {row}"),
            None => f.write_str("none"),
        }
    }
}
