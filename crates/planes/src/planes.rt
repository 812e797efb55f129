// The table, with what holds of it between calls.
ghost use Rattle.planes.specs.Rows.{Laid, Quiet};

use crate::memory::Memory;

// An empty row never has the hit mark, and the memory is the one that its rows lay out: no plane
// and no mark holds anything that the rows do not tell.
#[derive(Drop)]
pub struct Planes {
    pub(crate) memory: Memory,
    ghost quiet: { Quiet memory.marks.empty memory.marks.hit },
    ghost laid: { Laid memory },
}
