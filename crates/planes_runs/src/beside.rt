// The same calls on a bit-plane table and on a device of width 2 cut to 64 rows.
use chance::Chance;
use device::{CELLS, Device};
use fence::Fence;
use planes::Planes;
use std::process::Abort;
use table::{Marking, Purge, Search, Table};

fn kind(n: u32) -> Purge {
    match n % 3 {
        0 => Purge::All,
        1 => Purge::WithAccess,
        _ => Purge::WithoutAccess,
    }
}

// One change, with numbers taken from n; wrong rows and segments come too.
fn same_change<A: Table, B: Table>(rt: &impl Abort, a: &mut A, b: &mut B, n: u32) {
    let row = (n >> 8) % 66;
    let segment = (n >> 16) % 3;
    let word = (n >> 20) & 5;
    match n >> 28 {
        0..=5 => assert_eq!(rt; a.write(row, segment, word), b.write(row, segment, word)),
        6 | 7 => {
            let marking = Marking {
                empty: n & 64 == 0,
                access: n & 128 == 0,
            };
            assert_eq!(rt; a.set_marks(row, marking), b.set_marks(row, marking));
        }
        8..=13 => {
            let query = Search {
                key: word,
                mask: n & 1,
                segment,
                head: n & 2 == 0,
                access: n & 4 == 0,
            };
            assert_eq!(rt; a.search(query), b.search(query));
        }
        14 => {
            a.clear_access();
            b.clear_access();
        }
        _ => {
            a.purge(kind(n));
            b.purge(kind(n));
        }
    }
}

// Every question, at numbers taken from n.
fn same_answers<A: Table, B: Table>(rt: &impl Abort, a: &A, b: &B, n: u32) {
    let row = (n >> 9) % 66;
    let segment = (n >> 17) % 3;
    assert_eq!(rt; a.first_hit(0), b.first_hit(0));
    assert_eq!(rt; a.first_hit(row), b.first_hit(row));
    assert_eq!(rt; a.first_empty(0), b.first_empty(0));
    assert_eq!(rt; a.first_empty(row), b.first_empty(row));
    assert_eq!(rt; a.read(row, segment), b.read(row, segment));
    assert_eq!(rt; a.marks(row), b.marks(row));
}

fn same<A: Table + Drop, B: Table + Drop>(rt: &impl Abort, mut a: A, mut b: B) {
    assert_eq!(rt; a.shape(), b.shape());
    // The questions after a change take the next change's number.
    let numbers = Chance(5).zip(Chance(5).skip(1));
    for (round, (change, question)) in (0..5000u32).zip(numbers) {
        same_change(rt, &mut a, &mut b, change);
        same_answers(rt, &a, &b, question);
        if round == 2500 {
            a.reset();
            b.reset();
        }
    }
}

// Beside the last 64 rows of a device.
fn same_as_last_rows<A: Table + Drop, D: Table + Drop>(rt: &impl Abort, planes: A, device: D) {
    same(rt, planes, Fence::new(4032, device));
}

#[test]
fn beside_a_device(rt: HostRuntime) {
    let mut words = [0; CELLS];
    let mut marks = [0; CELLS];
    let device = Device::open(2, &mut words, &mut marks);
    same_as_last_rows(&rt, Planes::new(), device);
}
