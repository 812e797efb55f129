// An owner lends its memory to a device, and knows every word and mark byte when it is back.
ghost use Rattle.std.specs.Prelude.{◌≡◌, ◌<◌, length, replicate, Ok, slice_set};
ghost use Rattle.device.specs.Opening.{checked};

use device::Device;
use table::{Table, TableFault};

// Stores one word in a row of width 1. Of whatever memory a device opens over, the owner then
// knows each word: 0, but for that row's.
pub fn stored(words: &mut [u32], marks: &mut [u8], row: u32, word: u32) -> Result<(), TableFault>
    ensures words { checked 1 (length words.old) (length marks.old) ≡ Ok tt → row < 8192 → words.new ≡ slice_set (replicate (length words.old) 0) row word }
{
    let mut device = Device::open(1, words, marks);
    device.write(row, 0, word)
}
