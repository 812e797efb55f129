// The record of a listing: each line worked on the cascade, its answer beside the listing's own.
#![tactic(auto)]

mod asks;
mod holding;
mod lines;
mod lists;
mod members;
mod rows;
mod same;
mod shown;

pub use holding::{Tally, hold};
pub use same::same_answer;
