//! Tests of `GivenRows` of `observer`: the rows that replicas gave from a position on, of which two equal ones of four replicas
//! count.

use command_log::LogRow;
use observer::{GivenRows, PieceFault, given_row_is_true};
use ritas_base::{Mem, Params};
use std::alloc::Global;

// Row 5 of a log: command 0 of replica 0, request 1 of client 7, "hi".
const HI: &[u8] = b"\x03\0\0\0\x05\x01\0\0\0\0\0\0\0\0\x07\0\0\0\x01\0\x02hi";

// The same, but for its last byte.
const HJ: &[u8] = b"\x03\0\0\0\x05\x01\0\0\0\0\0\0\0\0\x07\0\0\0\x01\0\x02hj";

// The same row at position 68, which is the last of the 64 from 5 on, and at the one behind it.
const LAST: &[u8] = b"\x03\0\0\0\x44\x01\0\0\0\0\0\0\0\0\x07\0\0\0\x01\0\x02hi";

const BEYOND: &[u8] = b"\x03\0\0\0\x45\x01\0\0\0\0\0\0\0\0\x07\0\0\0\x01\0\x02hi";

// Those of four replicas from position 5 on.
fn from_five(alloc: Global) -> Result<GivenRows, Mem> {
    let Ok(p) = Params::new(4, 1) else {
        return Err(Mem);
    };
    GivenRows::new(alloc, &p, 5)
}

// The calls stand in functions of their own that promise nothing, so that what makes several has a short proof.

fn take(alloc: Global, rows: &mut GivenRows, from: u8, bytes: &[u8]) -> Result<(), PieceFault> {
    rows.take_piece(alloc, from, bytes)
}

fn next(rows: &mut GivenRows) -> Option<LogRow> {
    rows.next()
}

fn len(rows: &GivenRows) -> u32 {
    rows.len()
}

// Passes the next position, where it isn't the last.
fn pass(rows: &mut GivenRows) {
    if rows.len() < u32::MAX {
        rows.pass();
    }
}

#[test]
fn two_of_four_give_a_row(rt: HostRuntime) {
    let mut rows = from_five(rt.alloc()).expect(&rt, "memory");
    assert_eq!(rt; len(&rows), 5);
    assert_eq!(rt; take(rt.alloc(), &mut rows, 0, HI), Ok(()));
    assert_eq!(rt; take(rt.alloc(), &mut rows, 0, HI), Ok(()));
    assert!(rt; next(&mut rows).is_none());
    assert_eq!(rt; take(rt.alloc(), &mut rows, 2, HI), Ok(()));
    assert!(rt; next(&mut rows).is_some_and(|row| row.client == 7 && row.request == 1));
    assert_eq!(rt; len(&rows), 6);
    assert!(rt; next(&mut rows).is_none());
}

#[test]
fn another_row_is_a_change(rt: HostRuntime) {
    let mut rows = from_five(rt.alloc()).expect(&rt, "memory");
    assert_eq!(rt; take(rt.alloc(), &mut rows, 0, HI), Ok(()));
    assert_eq!(rt;
        take(rt.alloc(), &mut rows, 0, HJ),
        Err(PieceFault::Changed(5))
    );
    assert_eq!(rt; take(rt.alloc(), &mut rows, 3, HJ), Ok(()));
    assert!(rt; next(&mut rows).is_none());
}

#[test]
fn a_position_that_is_passed_waits_for_nothing(rt: HostRuntime) {
    let mut rows = from_five(rt.alloc()).expect(&rt, "memory");
    assert_eq!(rt; take(rt.alloc(), &mut rows, 0, HI), Ok(()));
    pass(&mut rows);
    assert_eq!(rt; len(&rows), 6);
    assert_eq!(rt; take(rt.alloc(), &mut rows, 2, HI), Ok(()));
    assert!(rt; next(&mut rows).is_none());
}

#[test]
fn waits_for_64_positions(rt: HostRuntime) {
    let mut rows = from_five(rt.alloc()).expect(&rt, "memory");
    assert_eq!(rt; take(rt.alloc(), &mut rows, 1, LAST), Ok(()));
    assert_eq!(rt;
        take(rt.alloc(), &mut rows, 1, BEYOND),
        Err(PieceFault::Ahead(5))
    );
    assert_eq!(rt;
        take(rt.alloc(), &mut rows, 4, HI),
        Err(PieceFault::NoSuchReplica)
    );
}

// The law is a function that does nothing.
#[test]
fn law_can_be_called(_rt: HostRuntime) {
    given_row_is_true();
}
