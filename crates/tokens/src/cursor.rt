// A place in a line, and the words that stand from there on.
ghost use Rattle.std.specs.Prelude.{◌≡◌, ℕ, ◌≤◌, Bool, drop, length};
ghost use Rattle.std.specs.List.{prefix_len};
ghost use Rattle.tokens.specs.Words.{is_blank, is_word, is_letter, next_end, next_word, word_at, word_end, word_start};

use crate::words::{Word, Words, same};

// What separates words.
fn is_blank(byte: u8) -> bool
    ensures answer { result ≡ is_blank byte }
{
    matches!(byte, b' ' | b'\t' | b'\r')
}

// What a word is made of. An `=` and a `#` end a word too: an answer and a comment begin there.
fn is_letter(byte: u8) -> bool
    ensures answer { result ≡ is_letter byte }
{
    !is_blank(byte) && byte != b'=' && byte != b'#'
}

// How many bytes in front are of a kind.
fn leading<F: Fn(u8) -> bool>(bytes: &[u8], of_kind: F) -> usize
    ghost kind: { ℕ → Bool }
    requires callable { F.IsAlwaysCallable of_kind }
    requires kind { (b : ℕ) (r : Bool) → F.post of_kind b r → r ≡ kind b }
    ensures answer { result ≡ prefix_len kind bytes.now }
    ensures within { result ≤ length bytes.now }
{
    bytes.iter().take_while(|byte| of_kind(**byte)).count()
}

// A line, and the index of a byte of it from which reading goes on. Behind the line's end no words
// stand.
#[derive(Clone, Copy)]
pub struct Cursor<'a> {
    pub line: &'a [u8],
    pub at: usize,
}

impl<'a> Cursor<'a> {
    // What is left of the line.
    fn rest(self) -> &'a [u8]
        ensures answer { result.now ≡ drop self.entry.at self.entry.line.now }
    {
        self.line.get(self.at..).unwrap_or(&[])
    }

    // Where the first byte from here on is that separates no words.
    pub fn word_start(self) -> usize
        ensures answer { result ≡ word_start self.entry.line.now self.entry.at }
    {
        self.at + leading(self.rest(), is_blank)
    }

    // Where the word ends that stands here.
    pub fn word_end(self) -> usize
        ensures answer { result ≡ word_end self.entry.line.now self.entry.at }
    {
        self.at + leading(self.rest(), is_letter)
    }

    // The word that stands here; empty where none does.
    pub fn word_at(self) -> &'a [u8]
        ensures answer { result.now ≡ word_at self.entry.line.now self.entry.at }
    {
        let rest = self.rest();
        &rest[..leading(rest, is_letter)]
    }

    // Whether the word that stands here is just `word`.
    pub fn is_word(self, word: &[u8]) -> bool
        ensures answer { result ≡ is_word self.entry.line.now self.entry.at word.now }
    {
        same(self.word_at(), word)
    }

    // The first word from here on. It leaves the place: a reader moves it once it knows the word.
    pub fn next_word(self) -> Word<'a>
        ensures text { result.text.now ≡ next_word self.entry.line.now self.entry.at }
        ensures start { result.start ≡ word_start self.entry.line.now self.entry.at }
        ensures end { result.end ≡ next_end self.entry.line.now self.entry.at }
    {
        let start = self.word_start();
        let here = Cursor { at: start, ..self };
        Word {
            text: here.word_at(),
            start,
            end: here.word_end(),
        }
    }

    // The words from here on.
    pub fn words(self) -> Words<'a>
        ensures answer { result.0 ≡ self.entry }
    {
        Words(self)
    }
}
