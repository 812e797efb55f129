// Runs of the plane table: many searches in one call, to be timed from outside, and examples.
#![tactic(auto)]

use chance::Chance;
use planes::Planes;
use table::{Search, Table};

#[cfg(test)]
mod beside;
#[cfg(test)]
mod tests;

// A table whose rows hold numbers that look like chance, the same that the loop by hand in bench/
// draws. Not by what bench_device fills with: that leaves rows empty and takes the upper halves.
fn filled(seed: u32) -> Planes {
    let mut table = Planes::new();
    let shape = table.shape();
    let mut numbers = Chance(seed);
    for row in 0..shape.depth {
        for (segment, n) in (0..shape.width).zip(&mut numbers) {
            let _ = table.write(row, segment, n);
        }
    }
    table
}

// Searches `rounds` times and mixes the first hits into one number.
pub fn planes_searches(rounds: u32, seed: u32) -> u32 {
    let mut table = filled(seed);
    let mut mixed = 0u32;
    for (round, n) in (0..rounds).zip(Chance(seed)) {
        let query = Search {
            key: n,
            mask: n | n << 3 | n << 7,
            segment: round & 1,
            head: round & 1 == 0,
            access: n & 64 == 64,
        };
        let _ = table.search(query);
        if let Some(row) = table.first_hit(0) {
            mixed = mixed.wrapping_mul(31).wrapping_add(row);
        }
    }
    mixed
}
