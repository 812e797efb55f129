// The arithmetic of blocks: which bits a block moves, and which bits make a key.
ghost use Rattle.std.specs.Prelude.{◌≡◌, ◌-◌, ◌^◌, ◌<◌, ◌≤◌, nat_lt};
ghost use Rattle.ports.specs.Blocks.{FourKeys, bit_of, bits_of, high, joined, key_at, low, shifted_in};

use registers::{BlockWidth, Buffers};

// Whether a value needs no more bits than a block has.
pub(crate) fn fits(width: BlockWidth, value: u32) -> bool
    ensures answer { result ≡ nat_lt value (2 ^ bits_of width) }
{
    u64::from(value) < 1 << u32::from(width)
}

// Whether a bit of a channel's word is set.
pub(crate) fn bit(word: u64, block: u32) -> bool
    requires below { block < 64 }
    ensures answer { result ≡ bit_of word block }
{
    word >> block & 1 == 1
}

// A word moved up, with other bits put in below. All 32 may be moved out.
fn joined(upper: u32, bits: u32, lower: u32) -> u32
    requires bits { bits ≤ 32 }
    requires fits { lower < 2 ^ bits }
    ensures answer { result ≡ joined (low (32 - bits) upper) bits lower }
{
    upper.unbounded_shl(bits) | lower
}

// The upper bits of a word.
fn high(word: u32, bits: u32) -> u32
    requires { bits ≤ 32 }
    ensures answer { result ≡ high bits word }
    ensures few { result < 2 ^ bits }
{
    word.unbounded_shr(32 - bits)
}

// The buffers once a block has come in.
pub(crate) fn shifted_in(buffers: Buffers, width: BlockWidth, value: u32) -> Buffers
    requires fits { value < 2 ^ bits_of width }
    ensures answer { result ≡ shifted_in (bits_of width) value buffers }
{
    let Buffers { accumulation, sub } = buffers;
    let bits = u32::from(width);
    Buffers {
        accumulation: joined(accumulation, bits, value),
        sub: joined(sub, bits, high(accumulation, bits)),
    }
}

// The key of a step with a shift; four bytes on, all of it comes from the sub-accumulation buffer.
pub(crate) fn key(buffers: Buffers, shift: u32) -> u32
    ensures answer { result ≡ key_at shift buffers }
    ensures examples { FourKeys }
{
    let bits = 8 * shift.min(4);
    joined(buffers.accumulation, bits, high(buffers.sub, bits))
}
