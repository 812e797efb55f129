// The types of numbers that a line can hold.
ghost use Rattle.std.specs.Prelude.{◌≡◌, ℕ, ◌+◌, ◌^◌, ◌≤◌, ◌<◌, MatchOption};
ghost use Rattle.tokens.specs.declared.faults.Expected.{Expected};
ghost use Rattle.tokens.specs.declared.faults.Expected.TheVariants.{Number32, Number64};

use crate::faults::Expected;

// `MOST` is the largest number, `DIGITS` how many hexadecimal digits it has, and `EXPECTED` what should
// have stood where no such number stands. Not by `Into<u64>` and `TryFrom<u64>`: laws that tie these to
// `value` would be longer than the two methods.
pub trait Numeral: Copy {
    const MOST: u64;

    const DIGITS: usize;

    const EXPECTED: Expected;

    ghost MOST: { ℕ };

    ghost DIGITS: { ℕ };

    ghost EXPECTED: { Expected };

    ghost value: { Self → ℕ };

    // The number as this type, if it is not too large.
    fn from_u64(number: u64) -> Option<Self>
        ensures { MatchOption result (MOST < number) (λ x. value x ≡ number) };

    fn to_u64(self) -> u64
        ensures number { result ≡ value self }
        ensures within { result ≤ MOST };

    // The largest number has just the digits that there are, one to sixteen of them.
    ghost whole: { (MOST + 1 ≡ 16 ^ DIGITS) × (0 < DIGITS) × (DIGITS ≤ 16) };
}

impl Numeral for u32 {
    const MOST: u64 = u32::MAX as u64;

    const DIGITS: usize = 8;

    const EXPECTED: Expected = Expected::Number32;

    ghost MOST = { 4294967295 };

    ghost DIGITS = { 8 };

    ghost EXPECTED = { Number32 };

    ghost value = { λ n. n };

    fn from_u64(number: u64) -> Option<u32> {
        u32::try_from(number).ok()
    }

    fn to_u64(self) -> u64 {
        u64::from(self)
    }

    ghost use Rattle.std.proofs.Common.{rules};

    ghost whole = { Prim.search rules };
}

impl Numeral for u64 {
    const MOST: u64 = u64::MAX;

    const DIGITS: usize = 16;

    const EXPECTED: Expected = Expected::Number64;

    ghost MOST = { 18446744073709551615 };

    ghost DIGITS = { 16 };

    ghost EXPECTED = { Number64 };

    ghost value = { λ n. n };

    fn from_u64(number: u64) -> Option<u64> {
        Some(number)
    }

    fn to_u64(self) -> u64 {
        self
    }

    ghost use Rattle.std.proofs.Common.{rules};

    ghost whole = { Prim.search rules };
}
