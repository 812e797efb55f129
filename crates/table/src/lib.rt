// What a table is: rows of words with marks, the calls that every table answers, and its refusals.
#![tactic(auto)]

mod faults;
mod parts;
mod tables;

pub use faults::{Place, Refusal, TableFault};
pub use parts::{MAX_DEPTH, MAX_WIDTH, Marking, Marks, Purge, Search, Shape};
pub use tables::Table;
