// The words of a line one after the other, and whether one is a given word.
ghost use Rattle.std.specs.Prelude.{◌≡◌, ◌-◌, length};
ghost use Rattle.std.specs.Iterator.{at_most};
ghost use Rattle.tokens.specs.Faults.{fault_at};
ghost use Rattle.tokens.specs.Words.{is_text};
ghost use Rattle.tokens.specs.Taking.{TakesWord};

use crate::cursor::Cursor;
use crate::faults::{Expected, TextFault};

// Whether two texts are the same. This is the one place that opens `is_text`.
#[tactic(auto, unfolding(crate::specs::Words::is_text))]
pub(crate) fn same(a: &[u8], b: &[u8]) -> bool
    ensures answer { result ≡ is_text a.now b.now }
{
    a == b
}

// A word of a line, and where it stands there: `start` for a fault, `end` for reading on. It is empty
// where no word stands.
#[derive(Clone, Copy)]
pub struct Word<'a> {
    pub text: &'a [u8],
    pub start: usize,
    pub end: usize,
}

impl<'a> Word<'a> {
    pub fn is(self, text: &[u8]) -> bool
        ensures answer { result ≡ is_text self.entry.text.now text.now }
    {
        same(self.text, text)
    }

    // What is wrong where this word stands in place of another.
    pub fn fault(self, expected: Expected) -> TextFault
        ensures answer { result ≡ fault_at self.entry.start expected }
    {
        TextFault {
            at: self.start,
            expected,
        }
    }
}

// The words from a place on, up to what is no word.
#[derive(Drop)]
pub struct Words<'a>(pub Cursor<'a>);

impl<'a> Iterator for Words<'a> {
    type Item = Word<'a>;

    ghost next_gives = { λ s r t. TakesWord s.0 r t.0 };

    ghost remaining = { λ s. at_most (length s.0.line.now - s.0.at) };

    fn next(&mut self) -> Option<Word<'a>> {
        let word = self.0.next_word();
        if word.text.is_empty() {
            return None;
        }
        self.0.at = word.end;
        Some(word)
    }
}
