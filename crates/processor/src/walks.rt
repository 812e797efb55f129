// Searches, and the walks over hits and over empty rows. No other call but reset changes an address.
ghost use Rattle.std.specs.Prelude.{◌≡◌, ◌+◌, ◌-◌, ◌^◌, map, min, MatchOption};
ghost use Rattle.processor.specs.Commands.{command};
ghost use Rattle.processor.specs.Walks.{after, found_in, moved_to, with_empty, with_found};
ghost use Rattle.table.specs.Calls.{first, granted, on_segment};
ghost use Rattle.table.specs.Row.{is_empty, is_hit, searched};

use crate::faults::CommandFault;
use crate::processors::Processor;
use registers::Found;
use table::{Search, Table};

impl<T: Table> Processor<T> {
    // Compares every row. The hit address is then the first hit, and the answer.
    #[tactic(auto, unfolding(table::specs::Calls::on_segment))]
    pub fn search(&mut self, query: Search) -> Result<Option<u32>, CommandFault>
        ensures answer { result ≡ command (on_segment (T.width self.old.table) query.segment (first is_hit (map (searched query) (T.rows self.old.table)) 0)) }
        ensures registers { self.new.registers ≡ granted result (with_found (found_in (map (searched query) (T.rows self.old.table))) self.old.registers) self.old.registers }
        ensures rows { T.rows self.new.table ≡ granted result (map (searched query) (T.rows self.old.table)) (T.rows self.old.table) }
        ensures width { T.width self.new.table ≡ T.width self.old.table }
        ensures frame { T.frame self.old.table self.new.table }
    {
        self.table.search(query)?;
        let address = self.table.first_hit(0);
        let several = after(address, |from| self.table.first_hit(from)).is_some();
        self.registers.found = Found {
            address,
            hit: address.is_some(),
            several,
        };
        Ok(address)
    }

    // Sets the hit address to the first hit.
    pub fn rewind(&mut self) -> Option<u32>
        ensures answer { result ≡ first is_hit (T.rows self.old.table) 0 }
        ensures registers { self.new.registers ≡ with_found (moved_to (first is_hit (T.rows self.old.table) 0) self.old.registers.found) self.old.registers }
        ensures table { self.new.table ≡ self.old.table }
    {
        self.registers.found.address = self.table.first_hit(0);
        self.registers.found.address
    }

    // Sets the hit address to the first hit behind it; none stays none.
    pub fn next_hit(&mut self) -> Option<u32>
        ensures answer { result ≡ after is_hit (T.rows self.old.table) self.old.registers.found.address }
        ensures registers { self.new.registers ≡ with_found (moved_to (after is_hit (T.rows self.old.table) self.old.registers.found.address) self.old.registers.found) self.old.registers }
        ensures table { self.new.table ≡ self.old.table }
    {
        let present = self.registers.found.address;
        let next = after(present, |from| self.table.first_hit(from));
        self.registers.found.address = next;
        next
    }

    // Sets the empty address to the first empty row.
    pub fn find_empty(&mut self) -> Option<u32>
        ensures answer { result ≡ first is_empty (T.rows self.old.table) 0 }
        ensures registers { self.new.registers ≡ with_empty (first is_empty (T.rows self.old.table) 0) self.old.registers }
        ensures table { self.new.table ≡ self.old.table }
    {
        self.registers.empty = self.table.first_empty(0);
        self.registers.empty
    }

    // Sets the empty address to the first empty row behind it; none stays none.
    pub fn next_empty(&mut self) -> Option<u32>
        ensures answer { result ≡ after is_empty (T.rows self.old.table) self.old.registers.empty }
        ensures registers { self.new.registers ≡ with_empty (after is_empty (T.rows self.old.table) self.old.registers.empty) self.old.registers }
        ensures table { self.new.table ≡ self.old.table }
    {
        let present = self.registers.empty;
        let next = after(present, |from| self.table.first_empty(from));
        self.registers.empty = next;
        next
    }
}

// The first row behind an address, by the table's question for the first row from a number on.
fn after<F: Fn(u32) -> Option<u32>>(address: Option<u32>, first: F) -> Option<u32>
    requires { F.IsAlwaysCallable first }
    ensures { MatchOption address (result ≡ None) (λ row. F.post first (min (row + 1) (2 ^ 32 - 1)) result) }
{
    address.and_then(|row| first(row.saturating_add(1)))
}
