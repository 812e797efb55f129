// The processor: a table of any kind, and registers beside it.
ghost use Rattle.std.specs.Prelude.{◌≡◌};
ghost use Rattle.registers.specs.Fresh.{fresh};

use registers::Registers;
use table::Table;

// Both parts are plain: set-up, starts and stop are calls of the registers, and the ports stand in a
// crate above. Every call is right for any registers, also for those that were put there by hand.
#[derive(Drop)]
pub struct Processor<T> {
    pub table: T,
    pub registers: Registers,
}

impl<T: Table> Processor<T> {
    // A processor with fresh registers. The table stays as it is.
    pub fn new(table: T) -> Processor<T>
        ensures table { result.table ≡ table }
        ensures registers { result.registers ≡ fresh }
    {
        Processor {
            table,
            registers: Registers::fresh(),
        }
    }

    // All registers, the eight keys and the eight step hits among them.
    pub fn registers(&self) -> Registers
        ensures answer { result ≡ self.now.registers }
    {
        self.registers
    }
}
