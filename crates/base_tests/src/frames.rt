//! Tests of `keyed_channel`: frames in each version, and the parts of those that nobody opened.

use crate::dealt::{dealt, front, known_frame, known_frame_2, known_frame_3};
use keyed_channel::{
    FrameHeader, HEAD_LEN, Keys, OpenFault, Opened, frame_header, frame_parts, open_frame, seal,
};
use ritas_base::{Bytes, FrameVersion, Mem, Params};
use std::alloc::Global;
use std::process::Abort;
use std::test::Fail;

// The frame of a sender for 1 with number 258 and two bytes. Like the next ones it promises nothing, so that what
// calls it has a short proof.
fn sealed_by(rt: &impl Abort, alloc: Global, sender: &Keys) -> Result<Bytes, Mem> {
    assert!(rt; 1 < sender.n());
    seal(alloc, sender, 1, 258, b"\xaa\xbb")
}

// That of replica 3.
fn sealed(rt: &impl Abort, alloc: Global, version: FrameVersion) -> Result<Bytes, Mem> {
    sealed_by(rt, alloc, &dealt(rt, 3).with_version(version))
}

#[test]
fn frames_are_sealed(rt: HostRuntime) -> Result<(), Fail> {
    let frame = sealed(&rt, rt.alloc(), FrameVersion::One)?;
    assert!(rt; frame.as_slice() == known_frame());
    let frame = sealed(&rt, rt.alloc(), FrameVersion::Two)?;
    assert!(rt; frame.as_slice() == known_frame_2());
    let frame = sealed(&rt, rt.alloc(), FrameVersion::Three)?;
    assert!(rt; frame.as_slice() == known_frame_3());
    Ok(())
}

// Whether it is the frame of replica 3 with number 258 and these two bytes.
fn is_opened(opened: &Opened) -> bool {
    opened.from == 3 && opened.seq == 258 && opened.body == b"\xaa\xbb".as_slice()
}

// Whether these bytes open as that frame.
fn opens(keys: &Keys, bytes: &[u8]) -> bool {
    match open_frame(keys, bytes) {
        Ok(opened) => is_opened(&opened),
        Err(_) => false,
    }
}

// Why these bytes don't open, where they don't.
fn fault_of(keys: &Keys, bytes: &[u8]) -> Option<OpenFault> {
    match open_frame(keys, bytes) {
        Ok(_) => None,
        Err(fault) => Some(fault),
    }
}

// A session of each version has frames of its own, and opens none of another.
#[test]
fn frames_open(rt: HostRuntime) {
    let old = dealt(&rt, 1);
    let receiver = old.with_version(FrameVersion::Two);
    assert!(rt; opens(&old, known_frame()));
    assert!(rt; opens(&receiver, known_frame_2()));
    assert!(rt; fault_of(&receiver, known_frame()) == Some(OpenFault::Version));
    let receiver = old.with_version(FrameVersion::Three);
    assert!(rt; opens(&receiver, known_frame_3()));
    assert!(rt; fault_of(&receiver, known_frame_2()) == Some(OpenFault::Version));
}

// The keys of a replica of 4, all of which are one.
fn alike(rt: &impl Abort, me: u8) -> Keys {
    let p = Params::new(4, 1).expect(rt, "numbers");
    assert!(rt; p.n() == 4 && me < 4);
    Keys::from_row(7, &p, me, &[[9; 32]; 4])
}

#[test]
fn a_row_of_keys(rt: HostRuntime) -> Result<(), Fail> {
    let frame = sealed_by(&rt, rt.alloc(), &alike(&rt, 3))?;
    assert!(rt; opens(&alike(&rt, 1), frame.as_slice()));
    Ok(())
}

// Whether the parts of a frame are those that are sealed above, whoever reads it.
fn has_parts(frame: &[u8]) -> bool {
    match frame_parts(frame) {
        Some(parts) => {
            parts.from == 3 && parts.seq == 258 && parts.body == b"\xaa\xbb".as_slice()
        }
        None => false,
    }
}

#[test]
fn parts_of_what_is_not_opened(rt: HostRuntime) {
    assert!(rt; has_parts(known_frame_2()));
    let head = frame_header(front(known_frame(), HEAD_LEN));
    assert!(rt; head == Some(FrameHeader { from: 3, seq: 258 }));
}
