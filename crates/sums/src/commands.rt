// Searches, walks and commands at addresses, over a bit-plane table.
use planes::Planes;
use processor::{CommandFault, Processor};
use registers::Found;
use std::test::Fail;
use table::{Marking, Marks, Place, Refusal, Search, Table, TableFault};

// Each test crate makes its own searches, with the flags that it varies.
const fn search(key: u32, segment: u32, head: bool) -> Search {
    Search {
        key,
        mask: 0,
        segment,
        head,
        access: false,
    }
}

// Rows 0 to 2: valid with 5, 7; empty with 5, 7; valid with 5, 9. The others are empty.
pub(crate) fn filled() -> Result<Processor<Planes>, CommandFault> {
    let mut processor = Processor::new(Planes::new());
    processor.write(0, 1, 7)?;
    processor.write(0, 0, 5)?;
    processor.write(1, 1, 7)?;
    processor.write(1, 0, 5)?;
    processor.set_marks(
        1,
        Marking {
            empty: true,
            access: false,
        },
    )?;
    processor.write(2, 1, 9)?;
    processor.write(2, 0, 5)?;
    Ok(processor)
}

#[test]
fn two_steps_and_a_walk(rt: HostRuntime) -> Result<(), Fail> {
    let mut processor = filled()?;
    assert_eq!(rt; processor.search(search(5, 0, true)), Ok(Some(0)));
    let found = processor.registers().found;
    assert!(rt; found.hit && found.several);
    assert_eq!(rt; processor.next_hit(), Some(2));
    assert_eq!(rt; processor.next_hit(), None);
    assert_eq!(rt; processor.next_hit(), None);
    assert_eq!(rt; processor.rewind(), Some(0));
    assert_eq!(rt; processor.search(search(9, 1, false)), Ok(Some(2)));
    assert!(rt; !processor.registers().found.several);
    assert_eq!(rt; processor.next_hit(), None);
    Ok(())
}

#[test]
fn a_refused_search_changes_nothing(rt: HostRuntime) -> Result<(), Fail> {
    let mut processor = filled()?;
    processor.search(search(5, 0, true))?;
    let refused = CommandFault::InTable(TableFault::Segment(2));
    assert_eq!(rt; processor.search(search(9, 2, true)), Err(refused));
    assert_eq!(rt; refused.number(), 4);
    assert_eq!(rt; refused.place(), Place::Table);
    let found = Found {
        address: Some(0),
        hit: true,
        several: true,
    };
    assert_eq!(rt; processor.registers().found, found);
    assert_eq!(rt; processor.next_hit(), Some(2));
    Ok(())
}

#[test]
fn no_addresses_at_first(rt: HostRuntime) -> Result<(), Fail> {
    let mut processor = filled()?;
    assert_eq!(rt; processor.read_at_hit(0), Err(CommandFault::NoHitAddress));
    assert_eq!(rt;
        processor.write_at_hit(9, 0),
        Err(CommandFault::NoHitAddress)
    );
    assert_eq!(rt;
        processor.read_at_empty(0),
        Err(CommandFault::NoEmptyAddress)
    );
    assert_eq!(rt; processor.append(), Err(CommandFault::NoEmptyAddress));
    assert_eq!(rt; CommandFault::NoHitAddress.number(), 5);
    assert_eq!(rt; CommandFault::NoEmptyAddress.number(), 6);
    assert_eq!(rt; CommandFault::NoEmptyAddress.place(), Place::Command);
    assert_eq!(rt; processor.next_hit(), None);
    assert_eq!(rt; processor.next_empty(), None);
    Ok(())
}

#[test]
fn an_append_leaves_the_access_mark(rt: HostRuntime) -> Result<(), Fail> {
    let mut processor = filled()?;
    processor.set_marks(
        1,
        Marking {
            empty: true,
            access: true,
        },
    )?;
    assert_eq!(rt; processor.find_empty(), Some(1));
    assert_eq!(rt; processor.write_at_empty(1, 9), Ok(()));
    assert_eq!(rt; processor.append(), Ok(()));
    let marks = Marks {
        empty: false,
        access: true,
        hit: false,
    };
    assert_eq!(rt; processor.marks(1), Ok(marks));
    assert_eq!(rt; processor.registers().empty, Some(1));
    assert_eq!(rt; processor.next_empty(), Some(3));
    processor.search(search(9, 1, true))?;
    assert_eq!(rt; processor.read_at_hit(0), Ok(5));
    processor.reset();
    assert_eq!(rt; processor.registers().found.address, None);
    assert_eq!(rt; processor.registers().empty, None);
    assert_eq!(rt; processor.rewind(), None);
    Ok(())
}
