// Examples of searches, of an empty row, and of a refusal.
use planes::Planes;
use std::test::Fail;
use table::{Marking, Purge, Search, Table, TableFault};

// Each test crate makes its own searches, with the flags that it varies.
fn query(key: u32, segment: u32, head: bool) -> Search {
    Search {
        key,
        mask: 0,
        segment,
        head,
        access: !head,
    }
}

#[test]
fn a_group_narrows(rt: HostRuntime) -> Result<(), Fail> {
    let mut table = Planes::new();
    table.write(0, 0, 5)?;
    table.write(63, 0, 5)?;
    table.write(63, 1, 0xffff_ffff)?;
    table.search(query(5, 0, true))?;
    assert_eq!(rt; table.first_hit(0), Some(0));
    assert_eq!(rt; table.first_hit(1), Some(63));
    table.search(query(0xffff_ffff, 1, false))?;
    assert_eq!(rt; table.first_hit(0), Some(63));
    assert_eq!(rt; table.first_hit(64), None);
    Ok(())
}

#[test]
fn an_empty_row_never_hits(rt: HostRuntime) -> Result<(), Fail> {
    let mut table = Planes::new();
    table.write(3, 0, 5)?;
    table.set_marks(
        3,
        Marking {
            empty: true,
            access: true,
        },
    )?;
    table.search(query(5, 0, true))?;
    assert_eq!(rt; table.first_hit(0), None);
    table.purge(Purge::WithAccess);
    assert_eq!(rt; table.first_empty(3), Some(3));
    assert_eq!(rt; table.first_empty(0xffff_ffff), None);
    Ok(())
}

#[test]
fn row_is_refused_before_segment(rt: HostRuntime) {
    assert_eq!(rt; Planes::new().read(64, 2), Err(TableFault::Row(64)));
}
