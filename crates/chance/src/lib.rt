// Numbers that look like chance, and are the same in every run.
#![tactic(auto)]

ghost use Rattle.std.specs.Prelude.{◌≡◌, Some};
ghost use Rattle.chance.specs.Numbers.{after};

// The latest number: each comes from the one before, the first from a seed. They never end.
#[derive(Clone, Copy)]
pub struct Chance(pub u32);

impl Iterator for Chance {
    type Item = u32;

    ghost next_gives = { λ s r t. (t.0 ≡ after s.0) × (r ≡ Some t.0) };

    fn next(&mut self) -> Option<u32> {
        self.0 = self.0.wrapping_mul(1664525).wrapping_add(1013904223);
        Some(self.0)
    }
}
