// Listings: the head that describes a cascade, and the lines that ask something, as values.
#![tactic(auto)]

mod asks;
mod head;
mod lines;
mod listings;
mod names;

pub use asks::{Ask, FlagName, Line};
pub use head::{HeadLine, read_head_line};
pub use lines::read_line;
pub use listings::{Entry, LineFault, Listing, read_listing};
pub use names::RegisterName;
