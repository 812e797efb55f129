// The device: a table over 8,192 words and 8,192 mark bytes that its owner lends.
#![tactic(auto, using(crate::proofs::Calls::refusals))]

mod as_table;
mod bytes;
mod cells;
mod device;
mod halves;
mod opening;
mod sweeps;

pub use cells::Cells;
pub use device::Device;
pub use opening::{CELLS, OpenFault};
