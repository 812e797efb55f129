// Joins and fences at worked examples, over devices: tests, and the search that they make.
#![tactic(auto)]

ghost use Rattle.std.specs.Prelude.{◌≡◌, true, false};

use table::Search;

#[cfg(test)]
mod tests;

// Key 5 in segment 0, every bit compared, as the first search of a group.
pub fn five() -> Search
    ensures answer { result ≡ record { key = 5; mask = 0; segment = 0; head = true; access = false } }
{
    Search {
        key: 5,
        mask: 0,
        segment: 0,
        head: true,
        access: false,
    }
}
