// What is wrong with a line: the place, and what should have stood there.
ghost use Rattle.std.specs.Prelude.{◌≡◌, Some};
ghost use Rattle.tokens.specs.Faults.{expected_text};

use std::fmt;

// What should have stood at a place.
#[derive(Clone, Copy, PartialEq, Eq, Debug)]
pub enum Expected {
    Number32,
    Number64,
    Call,
    State,
    Purge,
    Item,
    Member,
    MemberOrCall,
    AnswerOrEnd,
    End,
    FlagKind,
    Register,
    Answer,
    Width,
}

// `at` is the index of a byte of the line, or the line's length.
#[derive(Clone, Copy, PartialEq, Eq, Debug)]
pub struct TextFault {
    pub at: usize,
    pub expected: Expected,
}

impl Expected {
    // What a user reads, also for callers that make no text.
    pub fn text(self) -> &'static str
        ensures answer { result.now ≡ expected_text self }
    {
        match self {
            Expected::Number32 => "a number below 4294967296",
            Expected::Number64 => "a number below 18446744073709551616",
            Expected::Call => "the name of a call",
            Expected::State => "`valid` or `empty`",
            Expected::Purge => "`all`, `with-access` or `without-access`",
            Expected::Item => "`key`, `status`, `address` or `segment`",
            Expected::Member => "`device` or `planes`",
            Expected::MemberOrCall => "a member or the name of a call",
            Expected::AnswerOrEnd => "`=` or the end of the line",
            Expected::End => "the end of the line",
            Expected::FlagKind => "`hit` or `full`",
            Expected::Register => "the name of a register",
            Expected::Answer => "an answer",
            Expected::Width => "a width of 1 to 8",
        }
    }
}

impl fmt::Display for Expected {
    ghost output = { λ x. Some (expected_text x) };

    fn fmt<W: fmt::Write>(&self, f: &mut fmt::Formatter<W>) -> fmt::Result {
        f.write_str(self.text())
    }
}
