// Opening a device: a check that may refuse, and an opening that never does.
ghost use Rattle.std.specs.Prelude.{◌≡◌, length};
ghost use Rattle.device.specs.Opening.{checked, number_of, place_of};
ghost use Rattle.device.specs.Rows.{Opened};

use crate::bytes::EMPTY;
use crate::device::Device;
use table::{MAX_WIDTH, Place, Refusal};

// How many words a device takes, and how many mark bytes.
pub const CELLS: usize = 8192;

// Why a device cannot be opened as asked, with the width, or the numbers of words and mark bytes.
#[derive(Clone, Copy, PartialEq, Eq, Debug)]
pub enum OpenFault {
    Width(u32),
    Memory(usize, usize),
}

impl Refusal for OpenFault {
    ghost numbered = { number_of };

    ghost found_at = { place_of };

    fn number(self) -> u32 {
        match self {
            OpenFault::Width(_) => 1,
            OpenFault::Memory(..) => 2,
        }
    }

    fn place(self) -> Place {
        match self {
            OpenFault::Width(_) | OpenFault::Memory(..) => Place::Opening,
        }
    }
}

impl<'a> Device<'a> {
    // Whether a device of this width can be opened over this memory.
    pub fn check(width: u32, words: &[u32], marks: &[u8]) -> Result<(), OpenFault>
        ensures answer { result ≡ checked width (length words.now) (length marks.now) }
    {
        if !(1..=MAX_WIDTH).contains(&width) {
            return Err(OpenFault::Width(width));
        }
        if words.len() != CELLS || marks.len() != CELLS {
            return Err(OpenFault::Memory(words.len(), marks.len()));
        }
        Ok(())
    }

    // A device that passes the check starts with every word 0 and every row empty. One that fails
    // it has width 1 and no rows, and leaves the memory as it is. The words and the marks come apart
    // and not as `Cells`: most owners have two arrays, so a struct would be made only to be taken apart.
    pub fn open(width: u32, words: &'a mut [u32], marks: &'a mut [u8]) -> Device<'a>
        ensures memory { Opened width words.entry marks.entry result }
    {
        if Device::check(width, words, marks).is_err() {
            return Device {
                words,
                marks,
                width: 1,
                depth: 0,
            };
        }
        words.fill(0);
        marks.fill(EMPTY);
        Device {
            words,
            marks,
            width,
            depth: 4 * (2048 / width),
        }
    }
}
