// The registers of an address processor as plain values, and the calls that change nothing else:
// the set-up of the ports, their starts and their stop.
#![tactic(auto)]

mod faults;
mod setting;
mod start;
mod state;
mod steps;

pub use faults::{OutOfRange, SetUpFault, StartFault};
pub use setting::{BlockWidth, Channel, ChannelSetUp, InputStep, Item, OutputStep, SetUp};
pub use state::{Buffers, Found, Input, InputPlace, OutputPlace, Registers, Sequence};
