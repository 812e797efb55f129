// A fence: a table with its first rows hidden.
#![tactic(auto, using(crate::proofs::Calls::of_fence))]

mod fences;
mod tables;

pub use fences::Fence;
