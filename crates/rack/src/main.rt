// The program: a shore rack works a telegram, and each call and its answer is printed.
#![tactic(auto)]

mod record;
mod task;

use answer_text::FaultText;
use anyhow::anyhow;
use device::{CELLS, Device};
use fence::Fence;
use flags::{FlagKind, FullFlag, HitFlag, flags};
use life::Reply;
use planes::Planes;
use record::{CallRecord, FullRecord, HitRecord, ReplyRecord};
use table::Table;
use task::{CALLS, CUT};
use trial::{Trial, run_trial};

fn print_replies(rt: &HostRuntime, replies: &[Reply]) -> anyhow::Result<()> {
    for (call, reply) in CALLS.iter().zip(replies) {
        println!(rt; "{} -> {}", CallRecord(*call), ReplyRecord(*reply))?;
    }
    Ok(())
}

fn print_flags(rt: &HostRuntime, hits: [HitFlag; 2], full: [FullFlag; 2]) -> anyhow::Result<()> {
    for (member, (hit, full)) in hits.iter().zip(&full).enumerate() {
        println!(rt;
            "member {member}: {}, {}",
            HitRecord(*hit),
            FullRecord(*full)
        )?;
    }
    Ok(())
}

// Works the task on a rack of two members and prints the record.
fn record_trial<U: Table + Drop, L: Table + Drop>(
    rt: &HostRuntime,
    upper: U,
    lower: L,
) -> anyhow::Result<()> {
    let mut hits = [HitFlag::nothing(); 2];
    let Trial {
        processor,
        answers,
        flags: told,
    } = run_trial(
        rt.alloc(),
        upper,
        lower,
        task::HIDDEN,
        &CALLS,
        &CUT,
        &mut hits,
    );
    let replies = answers.map_err(|_| anyhow!("no memory for the answers"))?;
    print_replies(rt, &replies)?;
    told.map_err(|fault| anyhow!("{}", FaultText(fault)))?;
    let mut full = [FullFlag::nothing(); 2];
    flags(&processor.table, &CUT, &mut full).map_err(|fault| anyhow!("{}", FaultText(fault)))?;
    print_flags(rt, hits, full)
}

fn main(rt: HostRuntime) -> anyhow::Result<()> {
    let mut words = vec![in rt.alloc(); 0u32; CELLS]?;
    let mut marks = vec![in rt.alloc(); 0u8; CELLS]?;
    let upper = Device::open(task::WIDTH, &mut words, &mut marks);
    let lower = Fence::new(task::LOWER_HIDDEN, Planes::new());
    record_trial(&rt, upper, lower)
}
