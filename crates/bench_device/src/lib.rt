// Runs of devices and of joins of devices: many calls in one, to be timed from outside. Words and mark
// bytes come apart, and numbers plain, as C hands them in.
#![tactic(auto)]

mod cascades;
mod lent;
mod work;

use cascades::{Depth, One, Twice};
use device::{Cells, Device};
use work::{FirstHits, Searches, Work};

// One device, of the width given.
pub fn device_searches(
    words: &mut [u32],
    marks: &mut [u8],
    width: u32,
    rounds: u32,
    seed: u32,
) -> u32 {
    Searches { rounds, seed }.on(Device::open(width, words, marks))
}

type Eight = Twice<Twice<Twice<One>>>;

// As many devices of width 1 as are asked for: 1, 2, 8 or 32; the number comes from C. The cells are
// made here: no proof is made yet of a function without type parameters that takes such a struct and
// hands it on.
fn cascade<W: Work>(words: &mut [u32], marks: &mut [u8], devices: u32, work: W) -> u32 {
    let cells = Cells { words, marks };
    match devices {
        1 => One::on::<Cells, Device, W>(cells, work),
        2 => Twice::<One>::on::<Cells, Device, W>(cells, work),
        8 => Eight::on::<Cells, Device, W>(cells, work),
        _ => Twice::<Twice<Eight>>::on::<Cells, Device, W>(cells, work),
    }
}

pub fn cascade_searches(
    words: &mut [u32],
    marks: &mut [u8],
    devices: u32,
    rounds: u32,
    seed: u32,
) -> u32 {
    cascade(words, marks, devices, Searches { rounds, seed })
}

pub fn cascade_first_hits(
    words: &mut [u32],
    marks: &mut [u8],
    devices: u32,
    hit: bool,
    rounds: u32,
) -> u32 {
    cascade(words, marks, devices, FirstHits { hit, rounds })
}
