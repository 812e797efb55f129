// The calls that read or change rows. None but reset changes a register.
ghost use Rattle.std.specs.Prelude.{◌≡◌, map};
ghost use Rattle.std.specs.Option.{ok_or};
ghost use Rattle.processor.specs.Commands.{at_address, became_valid, change_at, command};
ghost use Rattle.processor.specs.declared.faults.CommandFault.TheVariants.{NoHitAddress, NoEmptyAddress};
ghost use Rattle.registers.specs.Fresh.{fresh};
ghost use Rattle.table.specs.Calls.{change, granted, marks_at, on_cell, on_row, word_at};
ghost use Rattle.table.specs.Row.{marked, purged, unvisited, vacated, written};

use crate::faults::CommandFault;
use crate::processors::Processor;
use registers::Registers;
use table::{Marking, Marks, Purge, Table};

impl<T: Table> Processor<T> {
    pub fn read(&self, row: u32, segment: u32) -> Result<u32, CommandFault>
        ensures answer { result ≡ command (on_cell (T.width self.now.table) (T.rows self.now.table) row segment (word_at (T.rows self.now.table) row segment)) }
    {
        Ok(self.table.read(row, segment)?)
    }

    pub fn write(&mut self, row: u32, segment: u32, word: u32) -> Result<(), CommandFault>
        ensures answer { result ≡ command (on_cell (T.width self.old.table) (T.rows self.old.table) row segment tt) }
        ensures registers { self.new.registers ≡ self.old.registers }
        ensures rows { T.rows self.new.table ≡ granted result (change row (written segment word) (T.rows self.old.table)) (T.rows self.old.table) }
        ensures width { T.width self.new.table ≡ T.width self.old.table }
        ensures frame { T.frame self.old.table self.new.table }
    {
        self.table.write(row, segment, word)?;
        Ok(())
    }

    pub fn marks(&self, row: u32) -> Result<Marks, CommandFault>
        ensures answer { result ≡ command (on_row (T.rows self.now.table) row (marks_at (T.rows self.now.table) row)) }
    {
        Ok(self.table.marks(row)?)
    }

    pub fn set_marks(&mut self, row: u32, marking: Marking) -> Result<(), CommandFault>
        ensures answer { result ≡ command (on_row (T.rows self.old.table) row tt) }
        ensures registers { self.new.registers ≡ self.old.registers }
        ensures rows { T.rows self.new.table ≡ granted result (change row (marked marking) (T.rows self.old.table)) (T.rows self.old.table) }
        ensures width { T.width self.new.table ≡ T.width self.old.table }
        ensures frame { T.frame self.old.table self.new.table }
    {
        self.table.set_marks(row, marking)?;
        Ok(())
    }

    fn hit_address(&self) -> Result<u32, CommandFault>
        ensures answer { result ≡ ok_or self.now.registers.found.address NoHitAddress }
    {
        self.registers
            .found
            .address
            .ok_or(CommandFault::NoHitAddress)
    }

    fn empty_address(&self) -> Result<u32, CommandFault>
        ensures answer { result ≡ ok_or self.now.registers.empty NoEmptyAddress }
    {
        self.registers.empty.ok_or(CommandFault::NoEmptyAddress)
    }

    // The word in a segment of the row at the hit address.
    pub fn read_at_hit(&self, segment: u32) -> Result<u32, CommandFault>
        ensures answer { result ≡ at_address NoHitAddress (λ row. on_cell (T.width self.now.table) (T.rows self.now.table) row segment (word_at (T.rows self.now.table) row segment)) self.now.registers.found.address }
    {
        let hit = self.hit_address()?;
        self.read(hit, segment)
    }

    // Replaces the word in a segment of the row at the hit address.
    pub fn write_at_hit(&mut self, segment: u32, word: u32) -> Result<(), CommandFault>
        ensures answer { result ≡ at_address NoHitAddress (λ row. on_cell (T.width self.old.table) (T.rows self.old.table) row segment tt) self.old.registers.found.address }
        ensures registers { self.new.registers ≡ self.old.registers }
        ensures rows { T.rows self.new.table ≡ granted result (change_at (written segment word) (T.rows self.old.table) self.old.registers.found.address) (T.rows self.old.table) }
        ensures width { T.width self.new.table ≡ T.width self.old.table }
        ensures frame { T.frame self.old.table self.new.table }
    {
        let hit = self.hit_address()?;
        self.write(hit, segment, word)
    }

    // The word in a segment of the row at the empty address.
    pub fn read_at_empty(&self, segment: u32) -> Result<u32, CommandFault>
        ensures answer { result ≡ at_address NoEmptyAddress (λ row. on_cell (T.width self.now.table) (T.rows self.now.table) row segment (word_at (T.rows self.now.table) row segment)) self.now.registers.empty }
    {
        let empty = self.empty_address()?;
        self.read(empty, segment)
    }

    // Replaces the word in a segment of the row at the empty address.
    pub fn write_at_empty(&mut self, segment: u32, word: u32) -> Result<(), CommandFault>
        ensures answer { result ≡ at_address NoEmptyAddress (λ row. on_cell (T.width self.old.table) (T.rows self.old.table) row segment tt) self.old.registers.empty }
        ensures registers { self.new.registers ≡ self.old.registers }
        ensures rows { T.rows self.new.table ≡ granted result (change_at (written segment word) (T.rows self.old.table) self.old.registers.empty) (T.rows self.old.table) }
        ensures width { T.width self.new.table ≡ T.width self.old.table }
        ensures frame { T.frame self.old.table self.new.table }
    {
        let empty = self.empty_address()?;
        self.write(empty, segment, word)
    }

    // Makes the row at the empty address valid; its access mark stays.
    #[tactic(auto, using(crate::proofs::Valid::change_valid), unfolding(table::specs::Calls::on_row))]
    pub fn append(&mut self) -> Result<(), CommandFault>
        ensures answer { result ≡ at_address NoEmptyAddress (λ row. on_row (T.rows self.old.table) row tt) self.old.registers.empty }
        ensures registers { self.new.registers ≡ self.old.registers }
        ensures rows { T.rows self.new.table ≡ granted result (change_at became_valid (T.rows self.old.table) self.old.registers.empty) (T.rows self.old.table) }
        ensures width { T.width self.new.table ≡ T.width self.old.table }
        ensures frame { T.frame self.old.table self.new.table }
    {
        let empty = self.empty_address()?;
        let marks = self.table.marks(empty)?;
        let valid = Marking {
            empty: false,
            access: marks.access,
        };
        self.table.set_marks(empty, valid)?;
        Ok(())
    }

    pub fn purge(&mut self, kind: Purge)
        ensures registers { self.new.registers ≡ self.old.registers }
        ensures rows { T.rows self.new.table ≡ map (purged kind) (T.rows self.old.table) }
        ensures width { T.width self.new.table ≡ T.width self.old.table }
        ensures frame { T.frame self.old.table self.new.table }
    {
        self.table.purge(kind);
    }

    pub fn clear_access(&mut self)
        ensures registers { self.new.registers ≡ self.old.registers }
        ensures rows { T.rows self.new.table ≡ map unvisited (T.rows self.old.table) }
        ensures width { T.width self.new.table ≡ T.width self.old.table }
        ensures frame { T.frame self.old.table self.new.table }
    {
        self.table.clear_access();
    }

    // Empties the table, and makes the registers fresh, the set-up too.
    pub fn reset(&mut self)
        ensures registers { self.new.registers ≡ fresh }
        ensures rows { T.rows self.new.table ≡ map vacated (T.rows self.old.table) }
        ensures width { T.width self.new.table ≡ T.width self.old.table }
        ensures frame { T.frame self.old.table self.new.table }
    {
        self.table.reset();
        self.registers = Registers::fresh();
    }
}
