//! Tests of `observer`, and of the pieces and queries of `client_port`: two equal pieces of four replicas enter a row.

use client_port::{QUERY_LEN, queries_are_read, read_query, write_piece, write_query};
use command_log::Log;
use observer::{Observer, PieceFault, log_is_true, pieces_are_read, row_is_true};
use ritas_base::{Id, Mem, Params};
use std::alloc::Global;

// Row 0 of a log: command 0 of replica 0, request 1 of client 7, "hi".
const HI: &[u8] = b"\x03\0\0\0\0\x01\0\0\0\0\0\0\0\0\x07\0\0\0\x01\0\x02hi";

// The same, but for its last byte.
const HJ: &[u8] = b"\x03\0\0\0\0\x01\0\0\0\0\0\0\0\0\x07\0\0\0\x01\0\x02hj";

// Appends a command, where it has a client's number and a request's.
fn append(alloc: Global, log: &mut Log, command: &[u8]) -> bool {
    if command.len() < 8 || log.len() == u32::MAX {
        return false;
    }
    log.append(alloc, Id { origin: 0, num: 0 }, command).is_ok()
}

#[test]
fn queries_have_five_bytes(rt: HostRuntime) {
    assert_eq!(rt; write_query(258).as_slice(), b"\x4c\0\0\x01\x02".as_slice());
    assert_eq!(rt; QUERY_LEN, 5);
    assert_eq!(rt; read_query(b"\x4c\0\0\x01\x02"), Some(258));
    assert!(rt;
        read_query(b"\x4d\0\0\x01\x02").is_none() && read_query(b"\x4c\0\0\x01\x02\0").is_none()
    );
}

// Row 0 is there, and nothing from position 1 on.
#[test]
fn a_piece_has_what_is_there(rt: HostRuntime) {
    let mut log = Log::new(rt.alloc(), 0);
    assert!(rt; append(rt.alloc(), &mut log, b"\0\0\0\x07\0\0\0\x01hi"));
    let piece = write_piece(rt.alloc(), &log, 0).expect(&rt, "memory");
    assert!(rt; piece.as_slice() == HI);
    let piece = write_piece(rt.alloc(), &log, 1).expect(&rt, "memory");
    assert!(rt; piece.as_slice() == b"\x03\0\0\0\x01\0".as_slice());
}

// Eight rows at most: nine are there.
#[test]
fn a_piece_has_eight_rows_at_most(rt: HostRuntime) {
    let mut log = Log::new(rt.alloc(), 0);
    for request in 0..9u8 {
        assert!(rt; append(rt.alloc(), &mut log, &[0, 0, 0, 7, 0, 0, 0, request]));
    }
    let piece = write_piece(rt.alloc(), &log, 0).expect(&rt, "memory");
    assert_eq!(rt; piece.as_slice().len(), 6 + 8 * 15);
}

// No more rows than make 16,384 bytes: of rows of 4,103 bytes three.
#[test]
fn a_piece_has_room(rt: HostRuntime) {
    let mut log = Log::new(rt.alloc(), 0);
    for request in 0..4u8 {
        let mut command = [0; 4_096];
        command[7] = request;
        assert!(rt; append(rt.alloc(), &mut log, &command));
    }
    let piece = write_piece(rt.alloc(), &log, 0).expect(&rt, "memory");
    assert_eq!(rt; piece.as_slice().len(), 6 + 3 * 4_103);
    let p = Params::new(1, 0).expect(&rt, "a session");
    let mut observer = Observer::new(rt.alloc(), &p).expect(&rt, "memory");
    assert_eq!(rt; observer.piece(rt.alloc(), 0, piece.as_slice()), Ok(3));
}

#[test]
fn two_of_four_enter_a_row(rt: HostRuntime) {
    let p = Params::new(4, 1).expect(&rt, "a session");
    let mut observer = Observer::new(rt.alloc(), &p).expect(&rt, "memory");
    assert_eq!(rt; observer.piece(rt.alloc(), 0, HI), Ok(0));
    assert_eq!(rt; observer.piece(rt.alloc(), 0, HI), Ok(0));
    assert_eq!(rt; observer.piece(rt.alloc(), 2, HI), Ok(1));
    assert_eq!(rt; observer.len(), 1);
    assert!(rt;
        observer
            .row(0)
            .is_some_and(|row| row.client == 7 && row.request == 1)
    );
}

#[test]
fn another_row_is_a_change(rt: HostRuntime) {
    let p = Params::new(4, 1).expect(&rt, "a session");
    let mut observer = Observer::new(rt.alloc(), &p).expect(&rt, "memory");
    assert_eq!(rt; observer.piece(rt.alloc(), 0, HI), Ok(0));
    assert_eq!(rt;
        observer.piece(rt.alloc(), 0, HJ),
        Err(PieceFault::Changed(0))
    );
    assert_eq!(rt; observer.piece(rt.alloc(), 3, HJ), Ok(0));
    assert_eq!(rt; observer.len(), 0);
}

// Four rows that make just 16,384 bytes.
fn four_rows() -> [u8; 16_384] {
    let mut bytes = [0; 16_384];
    bytes[0] = 3;
    bytes[5] = 4;
    for (at, size) in [
        (6, 4_088u16),
        (4_109, 4_088),
        (8_212, 4_088),
        (12_315, 4_054),
    ] {
        let [high, low] = size.to_be_bytes();
        bytes[at + 13] = high;
        bytes[at + 14] = low;
    }
    bytes
}

// These bytes, and a zero behind them.
fn with_a_byte(alloc: Global, bytes: &[u8]) -> Result<Vec<u8>, Mem> {
    let mut longer = Vec::new(alloc);
    longer.extend_from_slice(bytes)?;
    longer.push(0)?;
    Ok(longer)
}

#[test]
fn a_piece_has_16384_bytes_at_most(rt: HostRuntime) {
    let rows = four_rows();
    let longer = with_a_byte(rt.alloc(), &rows).expect(&rt, "memory");
    let p = Params::new(1, 0).expect(&rt, "a session");
    let mut observer = Observer::new(rt.alloc(), &p).expect(&rt, "memory");
    assert_eq!(rt;
        observer.piece(rt.alloc(), 0, longer.as_slice()),
        Err(PieceFault::Form(16_384))
    );
    assert_eq!(rt; observer.piece(rt.alloc(), 0, &rows), Ok(4));
}

#[test]
fn laws_can_be_called(_rt: HostRuntime) {
    queries_are_read();
    pieces_are_read();
    row_is_true();
    log_is_true();
}
