// Cuts of a table into members: a list of starting rows, checked.
ghost use Rattle.std.specs.Prelude.{◌≡◌, ◌<◌, ◌≤◌, length, Err, IfErr, IfOk, Ok, OnOk};
ghost use Rattle.flags.specs.Cuts.{Cut, checked_cut, end_of, first_break, obeys, refused_at};

use crate::faults::FlagsFault;

// How many members a cut may have.
pub const MEMBERS: usize = 32;

// A table's members by a cut that passed the check, and the depth of the table.
#[derive(Clone, Copy)]
pub(crate) struct Members<'a> {
    starts: &'a [u32],
    depth: u32,
    ghost cut: { Cut starts.now depth },
}

impl<'a> Members<'a> {
    // The members of a cut, where so many flags can be written for them: as many as it has, and the
    // cut keeps its rule.
    pub(crate) fn checked(
        flags: usize,
        cut: &'a [u32],
        depth: u32,
    ) -> Result<Members<'a>, FlagsFault>
        ensures refused { IfErr result (λ fault. checked_cut flags cut.now depth ≡ Err fault) }
        ensures passed { OnOk result (checked_cut flags cut.now depth ≡ Ok tt) }
        ensures members { IfOk result (λ m. (m.starts.now ≡ cut.now) × (m.depth ≡ depth) × (flags ≡ length cut.now)) }
    {
        if flags != cut.len() {
            return Err(FlagsFault::Length(flags, cut.len()));
        }
        if cut.is_empty() || cut.len() > MEMBERS {
            return Err(FlagsFault::Starts(cut.len()));
        }
        check_starts(cut, depth)?;
        Ok(Members { starts: cut, depth })
    }

    // Where a member ends: before the next start, or at the depth.
    pub(crate) fn end_of(&self, member: usize) -> u32
        requires { member < length self.now.starts.now }
        ensures answer { result ≡ end_of self.now.starts.now self.now.depth member }
    {
        self.starts.get(member + 1).copied().unwrap_or(self.depth)
    }
}

// Whether the start of a member keeps the rule: the first is 0, none is less than the one before,
// none is above the depth.
// By the member's number: with `windows` of two starts the proof was tried, and did not close. The cut
// and the depth stand apart here, since they are `Members` only once this holds.
fn keeps_rule(cut: &[u32], depth: u32, member: usize) -> bool
    requires { member < length cut.now }
    ensures answer { result ≡ obeys cut.now depth member }
{
    if member == 0 {
        return cut[member] == 0;
    }
    cut[member - 1] <= cut[member] && cut[member] <= depth
}

// Refuses the first start that breaks the rule.
fn check_starts(cut: &[u32], depth: u32) -> Result<(), FlagsFault>
    ensures answer { result ≡ refused_at (first_break (obeys cut.now depth) 0 (length cut.now)) }
    ensures cut { OnOk result (1 ≤ length cut.now → Cut cut.now depth) }
{
    match (0..cut.len()).find(|member| !keeps_rule(cut, depth, *member)) {
        Some(member) => Err(FlagsFault::Start(member)),
        None => Ok(()),
    }
}
