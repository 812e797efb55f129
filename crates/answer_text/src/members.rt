// Flags of members as text, in types of their own: the program has other words for them.
ghost use Rattle.std.specs.Prelude.{Some};
ghost use Rattle.answer_text.specs.Flags.{full_text, hit_text};

use flags::{FullFlag, HitFlag};
use std::fmt;

#[derive(Clone, Copy)]
pub struct HitText(pub HitFlag);

#[derive(Clone, Copy)]
pub struct FullText(pub FullFlag);

impl fmt::Display for HitText {
    ghost output = { λ x. Some (hit_text x.0) };

    fn fmt<W: fmt::Write>(&self, f: &mut fmt::Formatter<W>) -> fmt::Result {
        match self.0 {
            HitFlag::None => f.write_str("none"),
            HitFlag::One(row) => write!(f, "one {row}"),
            HitFlag::Several(row) => write!(f, "several {row}"),
        }
    }
}

impl fmt::Display for FullText {
    ghost output = { λ x. Some (full_text x.0) };

    fn fmt<W: fmt::Write>(&self, f: &mut fmt::Formatter<W>) -> fmt::Result {
        match self.0.first_empty {
            None => f.write_str("full"),
            Some(row) => write!(f, "empty {row}"),
        }
    }
}
