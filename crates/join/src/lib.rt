// A join: the rows of one table and then those of another, as one table.
#![tactic(auto, using(crate::proofs::Calls::of_join))]

mod joins;
mod tables;

pub use joins::Join;
