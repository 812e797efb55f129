// Joins and fences at worked examples, over devices.
use crate::five;
use device::{CELLS, Device};
use fence::Fence;
use join::Join;
use std::process::Abort;
use std::test::Fail;
use table::{Marking, Shape, Table, TableFault};

// Fills rows 0 to 2 of a table of two segments: valid with 5, 7; empty with 5, 7; valid with 5, 9.
fn three<T: Table + Drop>(mut table: T) -> Result<T, TableFault> {
    table.write(0, 0, 5)?;
    table.write(0, 1, 7)?;
    table.write(1, 0, 5)?;
    table.write(1, 1, 7)?;
    table.set_marks(
        1,
        Marking {
            empty: true,
            access: false,
        },
    )?;
    table.write(2, 0, 5)?;
    table.write(2, 1, 9)?;
    Ok(table)
}

// Fills rows 0 and 1 of a table: valid with 5 and with 6.
fn two<T: Table + Drop>(mut table: T) -> Result<T, TableFault> {
    table.write(0, 0, 5)?;
    table.write(1, 0, 6)?;
    Ok(table)
}

// The last rows of each of two tables, filled and joined.
fn joined<A: Table + Drop, B: Table + Drop>(
    upper: A,
    lower: B,
) -> Result<Join<Fence<A>, Fence<B>>, TableFault> {
    let above = upper.shape().depth.saturating_sub(3);
    let below = lower.shape().depth.saturating_sub(2);
    let upper = three(Fence::new(above, upper))?;
    let lower = two(Fence::new(below, lower))?;
    Ok(Join::new(upper, lower))
}

// What a test looks at on a joined table. A trait and no closure: a closure that takes devices by
// value gets no proof yet.
trait Check {
    fn check<T: Table + Drop>(rt: &impl Abort, pile: T) -> Result<(), Fail>;
}

fn check_shape<T: Table>(rt: &impl Abort, table: &T, width: u32, depth: u32) {
    assert_eq!(rt; table.shape(), Shape { width, depth });
}

struct AJoin;

impl Check for AJoin {
    fn check<T: Table + Drop>(rt: &impl Abort, mut pile: T) -> Result<(), Fail> {
        check_shape(rt, &pile, 1, 5);
        pile.search(five())?;
        assert_eq!(rt; pile.first_hit(0), Some(0));
        assert_eq!(rt; pile.first_hit(1), Some(2));
        assert_eq!(rt; pile.first_hit(3), Some(3));
        assert_eq!(rt; pile.first_hit(4), None);
        assert_eq!(rt; pile.first_empty(0), Some(1));
        assert_eq!(rt; pile.first_empty(2), None);
        assert_eq!(rt; pile.read(4, 0)?, 6);
        Ok(())
    }
}

struct Refusals;

impl Check for Refusals {
    fn check<T: Table + Drop>(rt: &impl Abort, mut pile: T) -> Result<(), Fail> {
        assert_eq!(rt; pile.read(5, 0), Err(TableFault::Row(5)));
        assert_eq!(rt; pile.read(5, 1), Err(TableFault::Row(5)));
        assert_eq!(rt; pile.read(4, 1), Err(TableFault::Segment(1)));
        assert_eq!(rt; pile.write(4, 1, 9), Err(TableFault::Segment(1)));
        assert_eq!(rt;
            pile.marks(4_294_967_295),
            Err(TableFault::Row(4_294_967_295))
        );
        assert_eq!(rt; pile.read(4, 0)?, 6);
        Ok(())
    }
}

struct AFence;

impl Check for AFence {
    fn check<T: Table + Drop>(rt: &impl Abort, pile: T) -> Result<(), Fail> {
        let mut pile = Fence::new(2, pile);
        check_shape(rt, &pile, 1, 3);
        pile.search(five())?;
        assert_eq!(rt; pile.first_hit(0), Some(0));
        assert_eq!(rt; pile.first_hit(1), Some(1));
        assert_eq!(rt; pile.first_hit(2), None);
        assert_eq!(rt; pile.first_hit(4_294_967_295), None);
        assert_eq!(rt; pile.read(3, 0), Err(TableFault::Row(3)));
        Ok(())
    }
}

struct AllHidden;

impl Check for AllHidden {
    fn check<T: Table + Drop>(rt: &impl Abort, pile: T) -> Result<(), Fail> {
        let mut pile = Fence::new(4_294_967_295, pile);
        check_shape(rt, &pile, 1, 0);
        pile.search(five())?;
        assert_eq!(rt; pile.first_hit(0), None);
        assert_eq!(rt; pile.first_hit(4_294_967_295), None);
        assert_eq!(rt; pile.first_empty(1), None);
        assert_eq!(rt; pile.marks(0), Err(TableFault::Row(0)));
        Ok(())
    }
}

fn on_tables<C: Check, A: Table + Drop, B: Table + Drop>(
    rt: &impl Abort,
    upper: A,
    lower: B,
) -> Result<(), Fail> {
    C::check(rt, joined(upper, lower)?)
}

// Checks the join of two devices, of two segments and of one.
fn on_devices<C: Check>(rt: &impl Abort) -> Result<(), Fail> {
    let mut words = [0; CELLS];
    let mut marks = [0; CELLS];
    let mut more = [0; CELLS];
    let mut bytes = [0; CELLS];
    let upper = Device::open(2, &mut words, &mut marks);
    let lower = Device::open(1, &mut more, &mut bytes);
    on_tables::<C, _, _>(rt, upper, lower)
}

#[test]
fn a_join(rt: HostRuntime) -> Result<(), Fail> {
    on_devices::<AJoin>(&rt)
}

#[test]
fn refusals_of_a_join(rt: HostRuntime) -> Result<(), Fail> {
    on_devices::<Refusals>(&rt)
}

#[test]
fn a_fence(rt: HostRuntime) -> Result<(), Fail> {
    on_devices::<AFence>(&rt)
}

#[test]
fn all_hidden(rt: HostRuntime) -> Result<(), Fail> {
    on_devices::<AllHidden>(&rt)
}
