// Piles: joins and fences nested over any tables, and code that is proved for every such pile.
#![tactic(auto)]

mod fours;
mod pairs;

pub use fours::{find_in_four, four};
pub use pairs::{Pair, find, find_in_pair, pair};
