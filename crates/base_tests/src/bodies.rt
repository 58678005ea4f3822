//! Tests of `frame_codec`: bodies in each version, which are read and written again, and inputs. `cases` has those
//! that are refused.

use frame_codec::{LONGEST_ENTRY, body_len, input_fault, read_body, write_body};
use ritas_base::{Bytes, FrameVersion, Item, LONGEST_INPUT, Mode, Params, Vect};
use std::alloc::Global;
use std::test::*;

// Four replicas, one of which may be faulty.
fn session(root: u8, version: FrameVersion) -> Option<(Params, Mode)> {
    let mode = Mode::new(root, Vect::Echo)?.with_version(version);
    Some((Params::new(4, 1).ok()?, mode))
}

// The next ones promise nothing, so that what calls them has a short proof.

fn read(alloc: Global, root: u8, version: FrameVersion, bytes: &[u8]) -> Option<Item> {
    let (p, mode) = session(root, version)?;
    read_body(alloc, &p, &mode, 2, bytes).ok()
}

fn write(alloc: Global, item: &Item) -> Option<Bytes> {
    write_body(alloc, item).ok()
}

// Whether a body of replica 2 is read, and written again.
fn comes_back(alloc: Global, root: u8, version: FrameVersion, bytes: &[u8]) -> Option<bool> {
    let item = read(alloc, root, version, bytes)?;
    let written = write(alloc, &item)?;
    Some(item.from == 2 && written.as_slice() == bytes)
}

// Of each form of a payload: a value, a bit, and a list of identifiers. In version 3 a command's value is answered, as in version 2,
// and the ECHO of a step carries the bit, as in version 1.
#[test]
fn bodies_that_are_items(rt: HostRuntime) {
    let cases: [(u8, FrameVersion, &[u8]); 9] = [
        (1, FrameVersion::One, b"\x01\x01\0\0\0\0\0\0\0\0a"),
        (3, FrameVersion::One, b"\x01\x05\0\0\0\0\0\x01\x03\0\x02"),
        (6, FrameVersion::One, b"\x01\x02\0\0\0\0\0\0\0\0\0\0\0\0\0"),
        (7, FrameVersion::One, b"\x01\x02\0\0\0\0\0\0\0\0\0\0\0\0\0"),
        (7, FrameVersion::One, b"\x01\x03\0\0\0\0\0\0\0\0"),
        (7, FrameVersion::One, b"\x01\x03\0\0\0\0\0\0\0\0\0\0\0\0\0"),
        (1, FrameVersion::Two, b"\x08\x01\0\0\0\0\0\0\0\0a"),
        (1, FrameVersion::Three, b"\x08\x01\0\0\0\0\0\0\0\0a"),
        (3, FrameVersion::Three, b"\x02\x05\0\0\0\0\0\x01\x03\0\x02"),
    ];
    for (root, version, bytes) in cases {
        assert!(rt;
            comes_back(rt.alloc(), root, version, bytes) == Some(true),
            "of root service {root}"
        );
    }
}

// How long a body is, for a caller that knows that what it read is of the grammar.
fn length_of(alloc: Global, bytes: &[u8]) -> Option<u32> {
    let (p, mode) = session(1, FrameVersion::One)?;
    match read_body(alloc, &p, &mode, 2, bytes) {
        Ok(item) => Some(body_len(&item)),
        Err(_) => None,
    }
}

#[test]
fn length_of_a_body(rt: HostRuntime) {
    assert!(rt; length_of(rt.alloc(), b"\x01\x01\0\0\0\0\0\0\0\0abc") == Some(13));
}

// Where an input isn't one, if it isn't.
fn fault_of(root: u8, bytes: &[u8]) -> Option<Option<u32>> {
    let (p, mode) = session(root, FrameVersion::One)?;
    Some(input_fault(&p, &mode, bytes))
}

#[test]
fn inputs(rt: HostRuntime) {
    let long = [7; LONGEST_INPUT + 1];
    assert!(rt; fault_of(2, &long[..LONGEST_INPUT]) == Some(None));
    assert!(rt; fault_of(2, &long) == Some(Some(LONGEST_INPUT as u32)));
    assert!(rt; fault_of(5, &long[..LONGEST_ENTRY]) == Some(None));
}
