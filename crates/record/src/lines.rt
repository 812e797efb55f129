// One line of a record.
ghost use Rattle.std.specs.Prelude.{◌≡◌, OnOk};
ghost use Rattle.life.specs.Meaning.{after, state_of};

use crate::asks::{FlagsAsk, RegisterAsk, RowAsk};
use crate::members::{put_told_flags, starts};
use crate::rows::RowText;
use crate::same::same_answer;
use crate::shown::put_shown;
use answer_text::{FullText, HitText, ReplyText};
use call_text::CallText;
use life::{Call, perform};
use listing::{Entry, FlagName};
use processor::Processor;
use register_text::{Register, ToldText, tell};
use std::alloc::{AllocError, Global};
use std::fmt::Display;
use table::Table;
use tokens::Cursor;

// What became of a listing's own answer.
#[derive(Clone, Copy, PartialEq, Eq, Debug)]
pub(crate) enum Verdict {
    Held,
    Differs,
}

pub(crate) fn put_line<Q: Display + Drop, A: Display + Drop>(
    out: &mut String,
    number: usize,
    ask: Q,
    answer: A,
) -> Result<(), AllocError> {
    write!(out, "{number:>6}: {ask} = {answer}\n")
}

// A line begins with its number.
fn put_number(out: &mut String, number: usize) -> Result<(), AllocError> {
    write!(out, "{number:>6}: ")
}

// Appends what was asked, and tells where the answer is to stand.
fn put_asked<Q: Display + Drop>(out: &mut String, ask: Q) -> Result<usize, AllocError> {
    write!(out, "{ask} = ")?;
    Ok(out.len())
}

// Ends a line, and tells what became of the listing's answer, if it has one. Where that is another than
// the answer from `from` on, a comment says so. The answer stands in the record alone: a copy would need
// memory of its own.
fn put_verdict(
    out: &mut String,
    entry: &Entry,
    from: usize,
) -> Result<Option<Verdict>, AllocError> {
    let held = match (entry.line.answer, out.as_bytes().get(from..)) {
        (Some(answer), Some(given)) => same_answer(answer, given),
        _ => false,
    };
    write!(out, "\n")?;
    match entry.line.answer {
        None => Ok(None),
        Some(_) if held => Ok(Some(Verdict::Held)),
        Some(answer) => {
            let number = entry.number;
            write!(out, "#{number:>6}: differs, the listing says: ")?;
            put_shown(out, answer)?;
            write!(out, "\n")?;
            Ok(Some(Verdict::Differs))
        }
    }
}

// What a listing is worked on, and the text that its record is appended to.
#[derive(Drop)]
pub(crate) struct Record<'a, T> {
    pub(crate) heap: Global,
    pub(crate) out: &'a mut String,
    pub(crate) processor: &'a mut Processor<T>,
}

impl<T: Table> Record<'_, T> {
    // The number is written first: where there is no memory for it, the call is not worked.
    pub(crate) fn put_call(
        &mut self,
        entry: &Entry,
        call: Call,
    ) -> Result<Option<Verdict>, AllocError>
        ensures state { OnOk result (state_of T.Table self.new.processor.now ≡ after (state_of T.Table self.old.processor.now) call) }
        ensures same { self.new.processor.ghost_name ≡ self.old.processor.ghost_name }
    {
        put_number(self.out, entry.number)?;
        let reply = perform(self.processor, call);
        let from = put_asked(self.out, CallText(call))?;
        write!(self.out, "{}", ReplyText(reply))?;
        put_verdict(self.out, entry, from)
    }

    pub(crate) fn put_register(
        &mut self,
        entry: &Entry,
        register: Register,
    ) -> Result<Option<Verdict>, AllocError>
        ensures processor { self.new.processor ≡ self.old.processor }
    {
        put_number(self.out, entry.number)?;
        let from = put_asked(self.out, RegisterAsk(register))?;
        let told = ToldText(tell(&self.processor.registers, register));
        write!(self.out, "{told}")?;
        put_verdict(self.out, entry, from)
    }

    pub(crate) fn put_row(&mut self, entry: &Entry, row: u32) -> Result<Option<Verdict>, AllocError>
        ensures processor { self.new.processor ≡ self.old.processor }
    {
        put_number(self.out, entry.number)?;
        let from = put_asked(self.out, RowAsk(row))?;
        let told = RowText(&self.processor.table, row);
        write!(self.out, "{told}")?;
        put_verdict(self.out, entry, from)
    }

    pub(crate) fn put_flags(
        &mut self,
        entry: &Entry,
        kind: FlagName,
        rest: Cursor,
    ) -> Result<Option<Verdict>, AllocError>
        ensures processor { self.new.processor ≡ self.old.processor }
    {
        put_number(self.out, entry.number)?;
        let cut = starts(self.heap, rest)?;
        let from = put_asked(self.out, FlagsAsk(kind, &cut))?;
        let table = &self.processor.table;
        match kind {
            FlagName::Hit => put_told_flags(self.heap, self.out, table, &cut, HitText)?,
            FlagName::Full => put_told_flags(self.heap, self.out, table, &cut, FullText)?,
        }
        put_verdict(self.out, entry, from)
    }
}
