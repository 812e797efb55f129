// Hexadecimal numbers as text: `0x` and always as many digits as the type has.
ghost use Rattle.std.specs.Prelude.{Some};
ghost use Rattle.tokens.specs.Hex.{hex_text};

use crate::numeral::Numeral;
use std::fmt;

#[derive(Clone, Copy, PartialEq, Eq, Debug)]
pub struct Hex<T>(pub T);

impl<T: Numeral> fmt::Display for Hex<T> {
    ghost output = { λ x. Some (hex_text T.DIGITS (T.value x.0)) };

    fn fmt<W: fmt::Write>(&self, f: &mut fmt::Formatter<W>) -> fmt::Result {
        let number = self.0.to_u64();
        let width = T::DIGITS;
        write!(f, "0x{number:0width$x}")
    }
}
