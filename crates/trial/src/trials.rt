// The call that holds the whole law.
ghost use Rattle.std.specs.Prelude.{◌≡◌, length, IfOk, OnOk};
ghost use Rattle.flags.specs.Cuts.{Running, checked_cut, flags_so_far};
ghost use Rattle.life.specs.Meaning.{replies};
ghost use Rattle.life.specs.Walks.{WalksComplete};
ghost use Rattle.table.specs.Calls.{granted};
ghost use Rattle.trial.specs.Pile.{first_state, last_state, state_in};

use fence::Fence;
use flags::{FlagKind, FlagsFault, flags};
use join::Join;
use life::{Call, Reply, work};
use processor::Processor;
use std::alloc::{AllocError, Global};
use table::Table;

// What a trial gives back: the processor with its tables, the replies to the calls, and whether
// flags were written. The two results do not depend on one another.
#[derive(Drop)]
pub struct Trial<U, L> {
    pub processor: Processor<Fence<Join<U, L>>>,
    pub answers: Result<Vec<Reply>, AllocError>,
    pub flags: Result<(), FlagsFault>,
}

// Joins two tables behind a fence, works the calls on a fresh processor over them, and writes the
// flag of each member of a cut.
pub fn run_trial<U: Table, L: Table, K: FlagKind + Copy>(
    heap: Global,
    upper: U,
    lower: L,
    hidden: u32,
    calls: &[Call],
    cut: &[u32],
    out: &mut [K],
) -> Trial<U, L>
    ensures answers { IfOk result.answers (λ v. v.items ≡ replies (first_state U.Table L.Table hidden upper lower) calls.now) }
    ensures state { state_in U.Table L.Table result.processor ≡ last_state result.answers (first_state U.Table L.Table hidden upper lower) calls.now }
    ensures walks { WalksComplete (first_state U.Table L.Table hidden upper lower) calls.now }
    ensures flags { result.flags ≡ checked_cut (length out.old) cut.now (length (first_state U.Table L.Table hidden upper lower).rows) }
    ensures out { out.new ≡ granted result.flags (flags_so_far K.FlagKind.flag_of (last_state result.answers (first_state U.Table L.Table hidden upper lower) calls.now).rows cut.now) out.old }
    ensures running { OnOk result.flags (Running K.FlagKind.flag_of K.FlagKind.joined K.FlagKind.none (last_state result.answers (first_state U.Table L.Table hidden upper lower) calls.now).rows cut.now) }
    ensures frame { U.Table.frame upper result.processor.table.table.upper × L.Table.frame lower result.processor.table.table.lower × (result.processor.table.hidden ≡ hidden) }
{
    let pile = Fence::new(hidden, Join::new(upper, lower));
    let mut processor = Processor::new(pile);
    let answers = work(heap, &mut processor, calls);
    let flags = flags(&processor.table, cut, out);
    Trial {
        processor,
        answers,
        flags,
    }
}
