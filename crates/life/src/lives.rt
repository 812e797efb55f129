// The working of a list of calls.
ghost use Rattle.std.specs.Prelude.{◌≡◌, IfOk};
ghost use Rattle.life.specs.Meaning.{lived, replies, state_of};
ghost use Rattle.life.specs.Walks.{WalksComplete};
ghost use Rattle.table.specs.Calls.{granted};

use crate::calls::{Call, Reply};
use crate::working::perform;
use processor::Processor;
use std::alloc::{AllocError, Global};
use table::Table;

// Works the calls in order and records each reply. Where there is no memory for the replies,
// nothing is worked. However the calls are mixed, walks over hits are complete.
pub fn work<T: Table>(
    heap: Global,
    processor: &mut Processor<T>,
    calls: &[Call],
) -> Result<Vec<Reply>, AllocError>
    ensures answers { IfOk result (λ v. v.items ≡ replies (state_of T.Table processor.old) calls.now) }
    ensures state { state_of T.Table processor.new ≡ granted result (lived (state_of T.Table processor.old) calls.now) (state_of T.Table processor.old) }
    ensures walks { WalksComplete (state_of T.Table processor.old) calls.now }
    ensures frame { T.frame processor.old.table processor.new.table }
{
    let mut answers = Vec::with_capacity(heap, calls.len())?;
    for call in calls {
        answers.push_reserved(perform(processor, *call));
    }
    Ok(answers)
}
