//! Each table at its edges.

use loose::Loose;
use ordered::Ordered;
use std::process::Abort;
use std::test::Fail;
use store::{PutRefusal, Store, pairs};

/// A table of no place holds nothing.
fn no_place<S: Store<u8>>(rt: &impl Abort, table: &mut S) {
    assert!(rt; table.capacity() == 0);
    assert!(rt; table.put(1, 1u8) == Err(PutRefusal::Full));
    assert!(rt; table.get(1) == None);
    assert!(rt; table.first_from(0) == None);
    assert!(rt; table.take_out(1).is_err());
}

/// The one place of a table is used again.
fn one_place<S: Store<u8>>(rt: &impl Abort, table: &mut S) {
    assert!(rt; table.put(7, 1u8).is_ok());
    assert!(rt; table.change(7, 2u8).is_ok());
    assert!(rt; table.change(8, 2u8).is_err());
    assert!(rt; table.take_out(7).is_ok());
    assert!(rt; table.count() == 0);
    assert!(rt; table.put(8, 3u8).is_ok());
    assert!(rt; table.get(8) == Some(3));
    assert!(rt; table.get(7) == None);
}

/// Three places, filled with the smallest, the largest and a middle key.
fn three_places<S: Store<u8>>(rt: &impl Abort, table: &mut S) {
    assert!(rt; table.put(u64::MAX, 30u8).is_ok());
    assert!(rt; table.put(0, 10u8).is_ok());
    assert!(rt; table.put(5, 20u8).is_ok());
    assert!(rt; table.put(5, 21u8) == Err(PutRefusal::Present));
    assert!(rt; table.put(6, 21u8) == Err(PutRefusal::Full));
    assert!(rt; table.first_from(0) == Some((0, 10)));
    assert!(rt; table.first_from(1) == Some((5, 20)));
    assert!(rt; table.first_from(6) == Some((u64::MAX, 30)));
    assert!(rt; pairs(table).next() == Some((0, 10)));
    assert!(rt; pairs(table).last() == Some((u64::MAX, 30)));
}

/// The middle, the last and the first pair of a full table of three leave.
fn leaving<S: Store<u8>>(rt: &impl Abort, table: &mut S) {
    three_places(rt, table);
    assert!(rt; table.take_out(5).is_ok());
    assert!(rt; table.first_from(1) == Some((u64::MAX, 30)));
    assert!(rt; table.take_out(u64::MAX).is_ok());
    assert!(rt; table.first_from(1) == None);
    assert!(rt; table.take_out(0).is_ok());
    assert!(rt; table.count() == 0);
    three_places(rt, table);
    table.clear();
    assert!(rt; table.count() == 0 && table.capacity() == 3);
}

// A test for each table: the slots are lent for as long as the table lives, so a test over both would lend them through a closure.
#[test]
fn the_ordered_table(rt: HostRuntime) {
    let mut none = [None; 0];
    let mut one = [None; 1];
    let mut three = [None; 3];
    no_place(&rt, &mut Ordered::over(&mut none));
    one_place(&rt, &mut Ordered::over(&mut one));
    leaving(&rt, &mut Ordered::over(&mut three));
}

#[test]
fn the_loose_table(rt: HostRuntime) {
    let mut none = [None; 0];
    let mut one = [None; 1];
    let mut three = [None; 3];
    no_place(&rt, &mut Loose::over(&mut none));
    one_place(&rt, &mut Loose::over(&mut one));
    leaving(&rt, &mut Loose::over(&mut three));
}

#[test]
fn no_table_has_more_than_65536_places(rt: HostRuntime) -> Result<(), Fail> {
    let none: Option<(u64, u8)> = None;
    let mut slots = vec![in rt.alloc(); none; 65_537]?;
    assert!(rt; Ordered::over(&mut slots).capacity() == 65_536);
    assert!(rt; Loose::over(&mut slots).capacity() == 65_536);
    Ok(())
}
