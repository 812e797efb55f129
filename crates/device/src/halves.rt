// Looking for the first row with a mark, by halves.
ghost use Rattle.std.specs.Prelude.{Bool, length, slice_index};
ghost use Rattle.device.specs.Halves.{Any, FirstOf, has_bit};

// Whether a row has the mark: one pass without a branch, so not by `any`, which would branch.
fn any_with(marks: &[u8], mark: u8) -> bool
    ensures { Any (λ k. has_bit mark (slice_index marks.now k)) 0 (length marks.now) result }
{
    let mut found = false;
    for byte in marks {
        found |= *byte & mark != 0;
    }
    found
}

// The first row that has the mark, by halves as the rules want it: the lower half is looked through
// first, down to one row.
pub(crate) fn first_with(marks: &[u8], mark: u8) -> Option<usize>
    ensures { FirstOf (λ k. has_bit mark (slice_index marks.now k)) 0 (length marks.now) result }
{
    if !any_with(marks, mark) {
        return None;
    }
    let mut part = marks;
    let mut first = 0;
    while part.len() > 1 {
        let (lower, upper) = part.split_at(part.len() / 2);
        if any_with(lower, mark) {
            part = lower;
        } else {
            first += lower.len();
            part = upper;
        }
    }
    Some(first)
}
