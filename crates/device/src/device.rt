// The device and what holds of it at all times.
ghost use Rattle.std.specs.Prelude.{◌≡◌, ℕ, ◌*◌, ◌<◌, ◌≤◌, true, length, slice_index};
ghost use Rattle.device.specs.Layout.{proper};

// Segment s of row r is word r × width + s, and mark byte r holds the marks of row r. All of the lent
// memory is held, also what lies past the rows: a call leaves it as it was, and the owner is told so.
#[derive(Drop)]
pub struct Device<'a> {
    pub(crate) words: &'a mut [u32],
    pub(crate) marks: &'a mut [u8],
    pub(crate) width: u32,
    pub(crate) depth: u32,
    ghost some: { 1 ≤ width },
    ghost narrow: { width ≤ 8 },
    ghost few: { depth ≤ 8192 },
    ghost worded: { depth * width ≤ length words.now },
    ghost marked: { depth ≤ length marks.now },
    ghost tidy: { (r : ℕ) → r < depth → proper (slice_index marks.now r) ≡ true },
}
