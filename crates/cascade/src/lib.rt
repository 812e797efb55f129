// Cascades of members that are chosen as the program runs.
#![tactic(auto, using(crate::proofs::Calls::of_cascade))]

mod cascades;
mod levels;
mod members;
mod plans;
mod seats;
mod sites;
mod tables;

pub use cascades::{MEMBERS, on_cascade};
pub use levels::Job;
pub use members::Member;
pub use plans::{CascadeFault, Kind, Seat};
pub use seats::{Build, Fresh, Lent};
pub use sites::{Lot, Site};
