// The working of a whole listing.
ghost use Rattle.std.specs.Prelude.{◌≡◌, OnOk};
ghost use Rattle.life.specs.Meaning.{lived, state_of};
ghost use Rattle.life.specs.Walks.{WalksComplete};
ghost use Rattle.record.specs.Asks.{after_ask, calls_of};

use crate::lines::{Record, Verdict};
use crate::lists::{put_registers, put_rows};
use life::{Call, WalkCall};
use listing::{Ask, Entry};
use processor::Processor;
use std::alloc::{AllocError, Global};
use table::Table;

// How many lines asked something, how many of the listing's answers held, and how many did not.
#[derive(Clone, Copy, Default)]
pub struct Tally {
    pub asked: usize,
    pub held: usize,
    pub differences: usize,
}

impl Tally {
    fn count(&mut self, verdict: Option<Verdict>) {
        self.asked = self.asked.saturating_add(1);
        match verdict {
            None => {}
            Some(Verdict::Held) => self.held = self.held.saturating_add(1),
            Some(Verdict::Differs) => self.differences = self.differences.saturating_add(1),
        }
    }
}

impl<T: Table> Record<'_, T> {
    // Works one line. What takes several lines has no answer of the listing's own.
    fn put_entry(&mut self, entry: &Entry) -> Result<Option<Verdict>, AllocError>
        ensures state { OnOk result (state_of T.Table self.new.processor.now ≡ after_ask (state_of T.Table self.old.processor.now) entry.now.line.ask) }
        ensures same { self.new.processor.ghost_name ≡ self.old.processor.ghost_name }
    {
        match entry.line.ask {
            Ask::Call(Call::OnWalk(WalkCall::Registers)) => {
                put_registers(self.out, self.processor, entry.number)?;
                Ok(None)
            }
            Ask::Rows { from, count } => {
                put_rows(self.out, &self.processor.table, entry.number, from, count)?;
                Ok(None)
            }
            Ask::Call(call) => self.put_call(entry, call),
            Ask::Register(register) => self.put_register(entry, register),
            Ask::Row(row) => self.put_row(entry, row),
            Ask::Flags { kind, starts } => self.put_flags(entry, kind, starts),
        }
    }
}

// Works a list of lines on a processor and appends the record. However the lines are mixed, walks
// over hits are complete.
pub fn hold<T: Table>(
    heap: Global,
    out: &mut String,
    processor: &mut Processor<T>,
    entries: &[Entry],
) -> Result<Tally, AllocError>
    ensures state { OnOk result (state_of T.Table processor.new ≡ lived (state_of T.Table processor.old) (calls_of entries.now)) }
    ensures walks { WalksComplete (state_of T.Table processor.old) (calls_of entries.now) }
{
    let mut work = Record {
        heap,
        out,
        processor,
    };
    let mut tally = Tally::default();
    for entry in entries {
        let verdict = work.put_entry(entry)?;
        tally.count(verdict);
    }
    Ok(tally)
}
