// Single bits of a number.
ghost use Rattle.std.specs.Prelude.{◌≡◌, ℕ, ◌<◌};
ghost use Rattle.planes.specs.Bits.{FirstBit, bit_of};

// The number whose every bit is `on`.
#[tactic(auto, using(crate::proofs::BitLaws::plane_laws))]
pub(crate) fn spread(on: bool) -> u64
    ensures { (k : ℕ) → k < 64 → bit_of result k ≡ on }
{
    if on { u64::MAX } else { 0 }
}

// The smallest place, `from` or later, whose bit is set.
#[tactic(auto, using(crate::proofs::BitLaws::first_none, crate::proofs::BitLaws::first_some))]
pub(crate) fn first_from(number: u64, from: u32) -> Option<u32>
    ensures { FirstBit number from result }
{
    let left = number.checked_shr(from)?;
    if left == 0 {
        None
    } else {
        Some(from + left.trailing_zeros())
    }
}
