// The worked examples: those that are proved of the definitions, as one list, and tests.
#![tactic(auto)]

#[cfg(test)]
mod commands;
mod lists;
#[cfg(test)]
mod streams;

pub use lists::sums_stand;
