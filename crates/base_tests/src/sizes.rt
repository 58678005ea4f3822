//! Tests of sizes where memory is ample: what fits is taken at each length, and no call answers that memory is short, which contracts leave open.

use crate::dealt::{dealt, front};
use keyed_channel::{Channel, FRAME_OVERHEAD, LazyFrame};
use ritas_base::{Bytes, LONGEST_FRAME, Mem};
use std::alloc::Global;
use std::process::Abort;
use std::rc::Rc;
use std::test::Fail;

// The longest body that a frame may have.
const LONGEST_BODY: usize = LONGEST_FRAME - FRAME_OVERHEAD;
// The longest text of an event, and in steps of how many bytes lengths up to it are tried.
const LONGEST_TEXT: usize = 65_535;

const STEP: usize = 997;

// The channel of replica me of 4.
fn channel(rt: &impl Abort, alloc: Global, me: u8) -> Result<Channel, Mem> {
    Channel::new(alloc, dealt(rt, me))
}

// The frame of a replica for 1 with this body.
fn seal(rt: &impl Abort, alloc: Global, sender: &Channel, body: &[u8]) -> Result<Bytes, Mem> {
    assert!(rt; 1 < sender.keys().n());
    sender.seal(alloc, 1, 258, body)
}

// The same frame, made lazily.
fn seal_lazily(
    rt: &impl Abort,
    alloc: Global,
    sender: &Channel,
    body: &[u8],
) -> Result<LazyFrame, Mem> {
    assert!(rt; 1 < sender.keys().n());
    let body = Rc::new(alloc, Bytes::from_slice(alloc, body)?)?;
    sender.seal_lazily(1, 258, &body)
}

// Whether the bytes of a frame open as this body.
fn opens(receiver: &Channel, frame: &Bytes, body: &[u8]) -> bool {
    match receiver.open(frame.as_slice()) {
        Ok(opened) => opened.body == body,
        Err(_) => false,
    }
}

// Whether a frame that was made lazily does.
fn opens_lazily(receiver: &Channel, frame: &LazyFrame, body: &[u8]) -> bool {
    match receiver.open_lazily(frame) {
        Ok(opened) => opened.body == body,
        Err(_) => false,
    }
}

// Whether a frame of this body opens as it.
fn comes(
    rt: &impl Abort,
    alloc: Global,
    sender: &Channel,
    receiver: &Channel,
    body: &[u8],
) -> Result<bool, Mem> {
    let frame = seal(rt, alloc, sender, body)?;
    Ok(opens(receiver, &frame, body))
}

// The same of one that is made lazily, and of its bytes.
fn comes_lazily(
    rt: &impl Abort,
    alloc: Global,
    sender: &Channel,
    receiver: &Channel,
    body: &[u8],
) -> Result<bool, Mem> {
    let frame = seal_lazily(rt, alloc, sender, body)?;
    let bytes = frame.to_bytes(alloc)?;
    Ok(opens_lazily(receiver, &frame, body) && opens(receiver, &bytes, body))
}

// The frame of each body opens as it.
fn all_come(rt: &impl Abort, alloc: Global, lazily: bool) -> Result<(), Mem> {
    let sender = channel(rt, alloc, 3)?;
    let receiver = channel(rt, alloc, 1)?;
    let text = vec![in alloc; b'x'; LONGEST_BODY]?;
    for size in 0..LONGEST_BODY + 1 {
        let body = front(&text, size);
        let is_open = if lazily {
            comes_lazily(rt, alloc, &sender, &receiver, body)?
        } else {
            comes(rt, alloc, &sender, &receiver, body)?
        };
        assert!(rt; is_open && body.len() == size, "of {size} bytes");
    }
    Ok(())
}

#[test]
fn every_body_is_sealed_and_opened(rt: HostRuntime) -> Result<(), Fail> {
    all_come(&rt, rt.alloc(), false)?;
    Ok(())
}

#[test]
fn every_body_is_sealed_lazily(rt: HostRuntime) -> Result<(), Fail> {
    all_come(&rt, rt.alloc(), true)?;
    Ok(())
}

// Whether the first bytes of a text, so many, are those of their copy.
fn is_copied(alloc: Global, text: &[u8], size: usize) -> Result<bool, Mem> {
    let bytes = Bytes::from_slice(alloc, front(text, size))?;
    Ok(bytes.as_slice().len() == size && bytes.as_slice() == front(text, size))
}

#[test]
fn bytes_of_many_lengths(rt: HostRuntime) -> Result<(), Fail> {
    let text = vec![in rt.alloc(); b'x'; LONGEST_TEXT]?;
    for turn in 0..LONGEST_TEXT / STEP + 1 {
        let size = turn * STEP;
        assert!(rt; is_copied(rt.alloc(), &text, size)?, "of {size} bytes");
    }
    assert!(rt; is_copied(rt.alloc(), &text, LONGEST_TEXT)?);
    Ok(())
}
