//! Tests of `command_log`: one row for each request, an origin that counts once, and an epoch that goes on from the one before and
//! ends.

use command_log::{CLOSING_CLIENT, Log, chain_rows, closes, command_rows, log_follows};
use ritas_base::Id;
use std::alloc::Global;

// Appends a command of this identifier, where it has a client's number and a request's, and tells the answer.
fn append(
    alloc: Global,
    log: &mut Log,
    origin: u8,
    num: u32,
    command: &[u8],
) -> Option<Option<u32>> {
    if command.len() < 8 || log.len() == u32::MAX {
        return None;
    }
    log.append(alloc, Id { origin, num }, command).ok()
}

// Getters, each in a function that promises nothing, so that what calls several has a short proof.

fn len(log: &Log) -> u32 {
    log.len()
}

fn find(log: &Log, client: u32, request: u32) -> Option<u32> {
    log.find(client, request)
}

fn has_row(log: &Log, position: u32) -> bool {
    log.row(position).is_some()
}

fn closes_at(log: &Log, position: u32) -> bool {
    match log.row(position) {
        Some(row) => closes(row),
        None => false,
    }
}

fn is_over(log: &Log) -> bool {
    log.is_over()
}

fn base_len(log: &Log) -> u32 {
    log.base_len()
}

// The log of the next epoch, behind the rows of this one.
fn next(alloc: Global, log: Log) -> Log {
    Log::over(alloc, 0, log.into_rows())
}

// Whether the row at a position has the first command of this origin, and these parts.
fn is_row(log: &Log, position: u32, origin: u8, client: u32, request: u32, payload: &[u8]) -> bool {
    match log.row(position) {
        Some(row) => {
            row.id == Id { origin, num: 0 }
                && row.client == client
                && row.request == request
                && row.payload.as_slice() == payload
        }
        None => false,
    }
}

// A command enters at its second origin, and no more where its client and request have a row.
#[test]
fn each_request_has_one_row(rt: HostRuntime) {
    let mut log = Log::new(rt.alloc(), 1);
    assert!(rt; len(&log) == 0 && !has_row(&log, 0) && find(&log, 7, 1).is_none());
    for (origin, command, position) in [
        (0, b"\0\0\0\x07\0\0\0\x01hi".as_slice(), None),
        (1, b"\0\0\0\x07\0\0\0\x01ho".as_slice(), None),
        (200, b"\0\0\0\x07\0\0\0\x01hi".as_slice(), Some(0)),
        (2, b"\0\0\0\x07\0\0\0\x01ho".as_slice(), None),
    ] {
        let entered = append(rt.alloc(), &mut log, origin, 0, command);
        assert!(rt; entered == Some(position), "of {origin}");
    }
    assert!(rt; len(&log) == 1 && find(&log, 7, 1) == Some(0));
    assert!(rt; is_row(&log, 0, 200, 7, 1, b"hi") && !has_row(&log, 1));
}

// The next epoch goes on behind the rows of the first, and ends with its own closing row.
#[test]
fn an_epoch_goes_on_and_ends(rt: HostRuntime) {
    let mut first = Log::new(rt.alloc(), 0);
    let request = b"\0\0\0\x07\0\0\0\x01hi".as_slice();
    let close = b"\xff\xff\xff\xff\0\0\0\0".as_slice();
    assert!(rt; append(rt.alloc(), &mut first, 0, 0, request) == Some(Some(0)));
    assert!(rt; append(rt.alloc(), &mut first, 1, 0, close) == Some(Some(1)));
    assert!(rt; !is_over(&first) && base_len(&first) == 0 && closes_at(&first, 1));
    let mut second = next(rt.alloc(), first);
    for (command, position) in [
        (request, None),
        (close, None),
        (b"\0\0\0\x07\0\0\0\x02hi".as_slice(), Some(2)),
        (b"\xff\xff\xff\xff\0\0\0\x01".as_slice(), Some(3)),
        (b"\0\0\0\x07\0\0\0\x03hi".as_slice(), None),
    ] {
        assert!(rt; append(rt.alloc(), &mut second, 0, 0, command) == Some(position));
    }
    assert!(rt; is_over(&second) && base_len(&second) == 2 && len(&second) == 4);
    assert!(rt; find(&second, 7, 1) == Some(0) && find(&second, CLOSING_CLIENT, 1) == Some(3));
}

// The laws are functions that do nothing.
#[test]
fn laws_can_be_called(_rt: HostRuntime) {
    command_rows();
    chain_rows();
    log_follows();
}
