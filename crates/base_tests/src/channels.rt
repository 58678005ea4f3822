//! Tests of `keyed_channel`: a channel in each version, with the states of its keys.

use crate::dealt::{
    SLOT, dealt, digest_of_abc, known_entry, known_frame, known_frame_2, known_frame_3,
};
use keyed_channel::{Channel, LazyFrame, Opened};
use ritas_base::{Bytes, FrameVersion, Mem, Tagger};
use std::alloc::Global;
use std::process::Abort;
use std::rc::Rc;
use std::test::Fail;

// The channel of replica me of 4.
fn channel(rt: &impl Abort, alloc: Global, me: u8, version: FrameVersion) -> Result<Channel, Mem> {
    Channel::new(alloc, dealt(rt, me).with_version(version))
}

// The frame of replica 3 for 1 with number 258 and two bytes.
fn sealed(rt: &impl Abort, alloc: Global, version: FrameVersion) -> Result<Bytes, Mem> {
    let sender = channel(rt, alloc, 3, version)?;
    assert!(rt; 1 < sender.keys().n());
    sender.seal(alloc, 1, 258, b"\xaa\xbb")
}

#[test]
fn a_channel_seals(rt: HostRuntime) -> Result<(), Fail> {
    let frame = sealed(&rt, rt.alloc(), FrameVersion::One)?;
    assert!(rt; frame.as_slice() == known_frame());
    let frame = sealed(&rt, rt.alloc(), FrameVersion::Two)?;
    assert!(rt; frame.as_slice() == known_frame_2());
    let frame = sealed(&rt, rt.alloc(), FrameVersion::Three)?;
    assert!(rt; frame.as_slice() == known_frame_3());
    Ok(())
}

// Whether it is the frame of replica 3 with number 258 and these two bytes.
fn is_opened(opened: &Opened) -> bool {
    opened.from == 3 && opened.seq == 258 && opened.body == b"\xaa\xbb".as_slice()
}

// Whether these bytes open as that frame. Like the next ones it promises nothing, so that what calls it has a
// short proof.
fn opens(receiver: &Channel, bytes: &[u8]) -> bool {
    match receiver.open(bytes) {
        Ok(opened) => is_opened(&opened),
        Err(_) => false,
    }
}

// The same of a frame that was made lazily.
fn opens_lazily(receiver: &Channel, frame: &LazyFrame) -> bool {
    match receiver.open_lazily(frame) {
        Ok(opened) => is_opened(&opened),
        Err(_) => false,
    }
}

#[test]
fn a_channel_opens(rt: HostRuntime) -> Result<(), Fail> {
    let old = channel(&rt, rt.alloc(), 1, FrameVersion::One)?;
    let receiver = channel(&rt, rt.alloc(), 1, FrameVersion::Two)?;
    assert!(rt; opens(&old, known_frame()));
    assert!(rt; opens(&receiver, known_frame_2()));
    let receiver = channel(&rt, rt.alloc(), 1, FrameVersion::Three)?;
    assert!(rt; opens(&receiver, known_frame_3()));
    Ok(())
}

#[test]
fn a_channel_tags(rt: HostRuntime) -> Result<(), Fail> {
    let channel = channel(&rt, rt.alloc(), 1, FrameVersion::One)?;
    assert!(rt; Tagger::me(&channel) == 1);
    assert!(rt; channel.digest(b"abc").as_slice() == digest_of_abc().as_slice());
    assert!(rt; channel.entry(&SLOT, 3, 1, digest_of_abc()).as_slice() == known_entry().as_slice());
    Ok(())
}

// The same frame as `sealed`, whose tag isn't computed yet.
fn lazily(rt: &impl Abort, alloc: Global, version: FrameVersion) -> Result<LazyFrame, Mem> {
    let sender = channel(rt, alloc, 3, version)?;
    assert!(rt; 1 < sender.keys().n());
    let body = Rc::new(alloc, Bytes::from_slice(alloc, b"\xaa\xbb")?)?;
    sender.seal_lazily(1, 258, &body)
}

// Whether these are the bytes that a lazy frame makes.
fn makes(alloc: Global, frame: &LazyFrame, bytes: &[u8]) -> Result<bool, Mem> {
    let made = frame.to_bytes(alloc)?;
    Ok(made.as_slice() == bytes)
}

// Whether it says that these are its bytes.
fn is(frame: &LazyFrame, bytes: &[u8]) -> bool {
    frame.is(bytes)
}

// Whether its parts are those of the frame of replica 3 with number 258 and these two bytes.
fn has_parts(frame: &LazyFrame) -> bool {
    let parts = frame.parts();
    parts.from == 3 && parts.seq == 258 && parts.body == b"\xaa\xbb".as_slice()
}

#[test]
fn a_lazy_frame(rt: HostRuntime) -> Result<(), Fail> {
    for (version, bytes, other) in [
        (FrameVersion::One, known_frame(), known_frame_2()),
        (FrameVersion::Two, known_frame_2(), known_frame()),
        (FrameVersion::Three, known_frame_3(), known_frame_2()),
    ] {
        let frame = lazily(&rt, rt.alloc(), version)?;
        let receiver = channel(&rt, rt.alloc(), 1, version)?;
        assert!(rt; makes(rt.alloc(), &frame, bytes)?);
        assert!(rt; is(&frame, bytes) && !is(&frame, other));
        assert!(rt; has_parts(&frame) && opens_lazily(&receiver, &frame));
    }
    Ok(())
}
