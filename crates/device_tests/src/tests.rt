// Examples of openings, checks and searches.
use device::{Cells, Device, OpenFault};
use std::test::Fail;
use table::{Marking, Refusal, Search, Table, TableFault};

fn depth_at(width: u32) -> u32 {
    let mut words = [1; 8192];
    let mut marks = [1; 8192];
    Device::open(width, &mut words, &mut marks).shape().depth
}

#[test]
fn depths(rt: HostRuntime) {
    assert_eq!(rt; depth_at(1), 8192);
    assert_eq!(rt; depth_at(3), 2728);
    assert_eq!(rt; depth_at(8), 1024);
    assert_eq!(rt; depth_at(0), 0);
    assert_eq!(rt; depth_at(9), 0);
}

#[test]
fn refused_openings(rt: HostRuntime) {
    let words = [0; 8192];
    let marks = [0; 8192];
    assert_eq!(rt; Device::check(8, &words, &marks), Ok(()));
    assert_eq!(rt; Device::check(0, &words, &marks), Err(OpenFault::Width(0)));
    assert_eq!(rt; Device::check(9, &words, &marks), Err(OpenFault::Width(9)));
    assert_eq!(rt;
        Device::check(9, &words[1..], &marks),
        Err(OpenFault::Width(9))
    );
    assert_eq!(rt;
        Device::check(1, &words[1..], &marks),
        Err(OpenFault::Memory(8191, 8192))
    );
    assert_eq!(rt;
        Device::check(1, &words, &marks[0..1]),
        Err(OpenFault::Memory(8192, 1))
    );
    assert_eq!(rt;
        Device::check(1, &[0; 8193], &marks),
        Err(OpenFault::Memory(8193, 8192))
    );
    assert_eq!(rt; OpenFault::Width(9).number(), 1);
    assert_eq!(rt; OpenFault::Memory(0, 0).number(), 2);
}

#[test]
fn refused_memory_stays(rt: HostRuntime) {
    let mut words = [7; 8192];
    let mut marks = [9; 8191];
    let mut device = Device::open(1, &mut words, &mut marks);
    device.reset();
    assert_eq!(rt; device.read(0, 0), Err(TableFault::Row(0)));
    drop(device);
    assert_eq!(rt; words[8191], 7);
    assert_eq!(rt; marks[0], 9);
}

#[test]
fn halves_of_odd_numbers(rt: HostRuntime) {
    let mut words = [1, 2, 3];
    let mut marks = [4, 5, 6, 7, 8];
    let cells = Cells {
        words: &mut words,
        marks: &mut marks,
    };
    let (upper, lower) = cells.halves();
    assert_eq!(rt; &*upper.words, [1].as_slice());
    assert_eq!(rt; &*upper.marks, [4, 5].as_slice());
    assert_eq!(rt; &*lower.words, [2, 3].as_slice());
    assert_eq!(rt; &*lower.marks, [6, 7, 8].as_slice());
}

#[test]
fn row_before_segment(rt: HostRuntime) {
    let mut words = [0; 8192];
    let mut marks = [0; 8192];
    let mut device = Device::open(8, &mut words, &mut marks);
    assert_eq!(rt; device.read(1023, 7), Ok(0));
    assert_eq!(rt; device.read(1024, 7), Err(TableFault::Row(1024)));
    assert_eq!(rt; device.read(1023, 8), Err(TableFault::Segment(8)));
    assert_eq!(rt;
        device.write(4_294_967_295, 8, 1),
        Err(TableFault::Row(4_294_967_295))
    );
    assert_eq!(rt; TableFault::Row(5).number(), 3);
    assert_eq!(rt; TableFault::Segment(8).number(), 4);
}

// Each test crate makes its own searches, with the flags that it varies.
const fn search(key: u32, segment: u32, head: bool, access: bool) -> Search {
    Search {
        key,
        mask: 0,
        segment,
        head,
        access,
    }
}

// An empty row keeps its words and does not hit by them.
#[test]
fn empty_rows_do_not_hit(rt: HostRuntime) -> Result<(), Fail> {
    let mut words = [0; 8192];
    let mut marks = [0; 8192];
    let mut device = Device::open(2, &mut words, &mut marks);
    device.write(3, 0, 5)?;
    device.write(4, 0, 5)?;
    device.set_marks(
        3,
        Marking {
            empty: true,
            access: true,
        },
    )?;
    device.search(search(5, 0, true, false))?;
    assert_eq!(rt; device.first_hit(0), Some(4));
    assert_eq!(rt; device.read(3, 0), Ok(5));
    assert_eq!(rt; device.first_hit(5), None);
    assert_eq!(rt; device.first_empty(4), Some(5));
    Ok(())
}

// The second step of a group marks the rows that it leaves, and no others.
#[test]
fn access_of_the_last_step(rt: HostRuntime) -> Result<(), Fail> {
    let mut words = [0; 8192];
    let mut marks = [0; 8192];
    let mut device = Device::open(2, &mut words, &mut marks);
    device.write(0, 1, 7)?;
    device.write(0, 0, 5)?;
    device.write(1, 1, 9)?;
    device.write(1, 0, 5)?;
    device.search(search(5, 0, true, false))?;
    device.search(search(9, 1, false, true))?;
    drop(device);
    assert_eq!(rt; marks[0], 0);
    assert_eq!(rt; marks[1], 0x60);
    assert_eq!(rt; marks[2], 0x80);
    Ok(())
}
