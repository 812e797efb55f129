// A table of 64 rows and width 2 that is held in bit planes.
#![tactic(auto)]

mod bits;
mod memory;
mod places;
mod planes;
mod tables;

pub use planes::Planes;
