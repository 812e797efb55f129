// Work on any table: it is filled, and then a call is made many times.
use chance::Chance;
use table::{Search, Table};

// A trait and no closure: it works on a table of any type.
pub(crate) trait Work {
    // Ends with one number that depends on the last answers.
    fn on<T: Table + Drop>(self, table: T) -> u32;
}

// Searches, with numbers that come from the seed.
pub(crate) struct Searches {
    pub(crate) rounds: u32,
    pub(crate) seed: u32,
}

// Questions for the first hit. No row has a hit, or the last one alone.
pub(crate) struct FirstHits {
    pub(crate) hit: bool,
    pub(crate) rounds: u32,
}

// Fills every row in every segment but those whose number ends in binary ones, which stay empty. The
// loop by hand in bench/ draws the same numbers.
fn fill<T: Table>(table: &mut T, seed: u32) {
    let shape = table.shape();
    let mut numbers = Chance(seed);
    for row in 0..shape.depth {
        for (segment, n) in (0..shape.width).zip(&mut numbers) {
            if row & 7 != 7 {
                let _ = table.write(row, segment, n >> 16);
            }
        }
    }
}

impl Work for Searches {
    fn on<T: Table + Drop>(self, mut table: T) -> u32 {
        let Searches { rounds, seed } = self;
        fill(&mut table, seed);
        let shape = table.shape();
        for (round, n) in (0..rounds).zip(Chance(seed)) {
            let query = Search {
                key: n >> 16,
                mask: n | n << 3 | n << 7,
                segment: round % shape.width,
                head: round & 3 != 3,
                access: n & 0x7000_0000 == 0,
            };
            let _ = table.search(query);
        }
        table.first_hit(0).unwrap_or(shape.depth)
    }
}

impl Work for FirstHits {
    fn on<T: Table + Drop>(self, mut table: T) -> u32 {
        let FirstHits { hit, rounds } = self;
        let _ = table.write(table.shape().depth.saturating_sub(1), 0, 5);
        let _ = table.search(Search {
            key: if hit { 5 } else { 6 },
            mask: 0,
            segment: 0,
            head: true,
            access: false,
        });
        let mut mixed = 0u32;
        for round in 0..rounds {
            if let Some(row) = table.first_hit(round & 3) {
                mixed = mixed.wrapping_add(row);
            }
        }
        mixed
    }
}
