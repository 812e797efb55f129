// The flags call: for each member of a table, the flag of all rows up to the member's end.
ghost use Rattle.std.specs.Prelude.{◌≡◌, ◌≤◌, ℕ, length, OnOk};
ghost use Rattle.flags.specs.Cuts.{Running, checked_cut, flags_so_far};
ghost use Rattle.flags.specs.Laws.{Lasting};
ghost use Rattle.table.specs.Calls.{granted};

use crate::cuts::Members;
use crate::faults::FlagsFault;
use crate::kinds::{FlagKind, Part};
use table::Table;

// A flag joined with that of the rows from `from` up to `to`.
fn joined_on<T: Table, K: FlagKind + Copy>(table: &T, flag: K, from: u32, to: u32) -> Part<K>
    ensures answer { Lasting (λ rs n. K.FlagKind.joined flag (K.FlagKind.flag_of rs n)) (T.Table.rows table.now) from to result }
{
    let own = K::of(table, from, to);
    Part {
        flag: flag.join(own.flag),
        until: own.until,
    }
}

// The flag of all rows up to `end`, from the flag so far: that of all rows up to an earlier row. Only
// rows that no question has covered yet are asked about.
fn carried<T: Table, K: FlagKind + Copy>(table: &T, so_far: Part<K>, end: u32) -> Part<K>
    ensures answer { (start : ℕ) → Lasting K.FlagKind.flag_of (T.Table.rows table.now) 0 start so_far → start ≤ end → end ≤ length (T.Table.rows table.now) → Lasting K.FlagKind.flag_of (T.Table.rows table.now) 0 end result }
{
    match so_far.until {
        Some(until) if until < end => joined_on(table, so_far.flag, until, end),
        _ => so_far,
    }
}

// Hands the flag on from member to member, at first that of no rows. By the member's number: to zip the
// output with the members' ends was tried, and its proof did not close.
fn hand_on<T: Table, K: FlagKind + Copy>(table: &T, members: &Members, out: &mut [K])
    requires depth { members.now.depth ≡ length (T.Table.rows table.now) }
    requires out { length out.old ≡ length members.now.starts.now }
    ensures out { out.new ≡ flags_so_far K.FlagKind.flag_of (T.Table.rows table.now) members.now.starts.now }
{
    let mut so_far = Part {
        flag: K::nothing(),
        until: Some(0),
    };
    for (member, flag) in out.iter_mut().enumerate() {
        so_far = carried(table, so_far, members.end_of(member));
        *flag = so_far.flag;
    }
}

// Writes for each member the flag of all rows from 0 up to the member's end. A refusal leaves the
// output as it was.
pub fn flags<T: Table, K: FlagKind + Copy>(
    table: &T,
    cut: &[u32],
    out: &mut [K],
) -> Result<(), FlagsFault>
    ensures answer { result ≡ checked_cut (length out.old) cut.now (length (T.Table.rows table.now)) }
    ensures out { out.new ≡ granted result (flags_so_far K.FlagKind.flag_of (T.Table.rows table.now) cut.now) out.old }
    ensures running { OnOk result (Running K.FlagKind.flag_of K.FlagKind.joined K.FlagKind.none (T.Table.rows table.now) cut.now) }
{
    let members = Members::checked(out.len(), cut, table.shape().depth)?;
    hand_on(table, &members, out);
    Ok(())
}
