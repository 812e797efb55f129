// The text of the keys and of the hits.
ghost use Rattle.std.specs.Prelude.{ℕ, List, codes};
ghost use Rattle.std.specs.Fmt.{WritesOnOk};
ghost use Rattle.std.specs.List.{join_by};
ghost use Rattle.tokens.specs.Hex.{hex_text};
ghost use Rattle.register_text.specs.Texts.{hit_text};

use std::fmt;
use std::fmt::Display;
use tokens::Hex;

// What a key, a hit, or eight of them write. Their types are the language's, so it cannot be `Display`.
pub(crate) trait Part: Copy {
    ghost text: { Self → List ℕ };

    fn write_part<W: fmt::Write>(self, f: &mut fmt::Formatter<W>) -> fmt::Result
        ensures writes { WritesOnOk W.write_str_gives f.old result (text self) f.new };
}

// A key.
impl Part for u32 {
    ghost text = { hex_text 8 };

    fn write_part<W: fmt::Write>(self, f: &mut fmt::Formatter<W>) -> fmt::Result {
        Hex(self).fmt(f)
    }
}

// A hit, as a digit.
impl Part for bool {
    ghost text = { hit_text };

    fn write_part<W: fmt::Write>(self, f: &mut fmt::Formatter<W>) -> fmt::Result {
        f.write_str(if self { "1" } else { "0" })
    }
}

// Parts with a space between each two.
impl<T: Part> Part for [T; 8] {
    ghost text = { join_by T.text (codes " ") };

    fn write_part<W: fmt::Write>(self, f: &mut fmt::Formatter<W>) -> fmt::Result {
        if let [first, rest @ ..] = &self[..] {
            first.write_part(f)?;
            for part in rest {
                f.write_str(" ")?;
                part.write_part(f)?;
            }
        }
        Ok(())
    }
}
