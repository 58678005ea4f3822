//! Tests of `link_resume`: frames that are kept, acknowledged, refused for want of room, or dropped to make it.

use crate::dealt::dealt;
use keyed_channel::{Channel, FRAME_OVERHEAD, LazyFrame};
use link_resume::{KeepFault, Resume, most_kept};
use ritas_base::{Bytes, FrameVersion, LONGEST_FRAME, Mem};
use std::alloc::Global;
use std::process::Abort;
use std::rc::Rc;

// How many bytes are kept for one peer.
const MOST_BYTES: u64 = 8_388_608;

// Each call stands in a function of its own that promises nothing, so that what makes several has a short proof.

fn resume_of(alloc: Global, peers: u8, version: FrameVersion) -> Result<Resume, Mem> {
    Resume::new(alloc, peers, most_kept(version))
}

// A frame of replica 3 for 1 with this body.
fn frame_with(rt: &impl Abort, alloc: Global, body: &[u8]) -> Result<LazyFrame, Mem> {
    let sender = Channel::new(alloc, dealt(rt, 3))?;
    assert!(rt; 1 < sender.keys().n());
    let body = Rc::new(alloc, Bytes::from_slice(alloc, body)?)?;
    sender.seal_lazily(1, 258, &body)
}

fn keep(
    rt: &impl Abort,
    resume: &mut Resume,
    peer: u8,
    seq: u64,
    frame: &LazyFrame,
) -> Result<(), KeepFault> {
    assert!(rt; usize::from(peer) < resume.peers());
    resume.keep(peer, seq, frame)
}

fn make_room(rt: &impl Abort, resume: &mut Resume, peer: u8, size: u64) {
    assert!(rt; usize::from(peer) < resume.peers());
    resume.make_room(peer, size);
}

fn count(rt: &impl Abort, resume: &Resume, peer: u8) -> usize {
    assert!(rt; usize::from(peer) < resume.peers());
    resume.count(peer)
}

fn bytes(rt: &impl Abort, resume: &Resume, peer: u8) -> u64 {
    assert!(rt; usize::from(peer) < resume.peers());
    resume.bytes(peer)
}

// The number of what is kept for a peer at a place, if there is such a place.
fn waiting(rt: &impl Abort, resume: &Resume, peer: u8, at: usize) -> Option<u64> {
    assert!(rt; usize::from(peer) < resume.peers());
    match resume.waiting(peer, at) {
        Some(kept) => Some(kept.seq),
        None => None,
    }
}

// The number of the last frame of a batch of what is kept for the one peer, of at most 262,144
// bytes.
fn last_of_batch(rt: &impl Abort, resume: &Resume, after: Option<u64>, last: u64) -> Option<u64> {
    assert!(rt; resume.peers() == 1);
    resume.last_of_batch(0, after, last, 262_144)
}

// The same of at most so many bytes, in front of all that is kept.
fn last_of_front(rt: &impl Abort, resume: &Resume, most: u64) -> Option<u64> {
    assert!(rt; resume.peers() == 1);
    resume.last_of_batch(0, None, 199_999, most)
}

// The longest frame.
fn longest(rt: &impl Abort, alloc: Global) -> Result<LazyFrame, Mem> {
    frame_with(rt, alloc, &[0; LONGEST_FRAME - FRAME_OVERHEAD])
}

// As many of the longest frames as there is room for, for one peer, and then a short one: it isn't kept, and another peer's is.
#[test]
fn a_full_queue_is_told(rt: HostRuntime) {
    let mut resume = resume_of(rt.alloc(), 2, FrameVersion::Two).expect(&rt, "memory");
    let frame = longest(&rt, rt.alloc()).expect(&rt, "memory");
    let short = frame_with(&rt, rt.alloc(), &[]).expect(&rt, "memory");
    let many = MOST_BYTES / LONGEST_FRAME as u64;
    for seq in 0..many {
        assert!(rt; keep(&rt, &mut resume, 0, seq, &frame).is_ok());
    }
    assert!(rt; keep(&rt, &mut resume, 0, many, &short) == Err(KeepFault::QueueFull(MOST_BYTES)));
    assert!(rt; keep(&rt, &mut resume, 1, many, &short).is_ok());
}

// Keeps this frame for the one peer under each number below this one.
fn keep_all(resume: &mut Resume, frame: &LazyFrame, many: u64) -> bool {
    for seq in 0..many {
        if resume.peers() != 1 || resume.keep(0, seq, frame).is_err() {
            return false;
        }
    }
    true
}

// The peer acknowledges every second of these, the newest first.
fn acknowledge_half(resume: &mut Resume, many: u64) {
    for seq in (0..many / 2).rev() {
        if resume.peers() == 1 {
            resume.acked(0, 2 * seq);
        }
    }
}

// Whether what is kept has the odd numbers, in their order.
fn are_odd(resume: &Resume) -> bool {
    let mut next: u64 = 1;
    if resume.peers() == 1 {
        for kept in resume.frames(0) {
            if kept.seq != next {
                return false;
            }
            next = kept.seq.saturating_add(2);
        }
    }
    true
}

// A hundred thousand frames are kept, and every second one is acknowledged, the newest first: the others stay in
// their order, and the oldest make room.
#[test]
fn many_are_acknowledged(rt: HostRuntime) {
    let mut resume = resume_of(rt.alloc(), 1, FrameVersion::One).expect(&rt, "memory");
    let frame = frame_with(&rt, rt.alloc(), &[5; 37]).expect(&rt, "memory");
    assert!(rt; keep_all(&mut resume, &frame, 100_000));
    acknowledge_half(&mut resume, 100_000);
    assert!(rt; are_odd(&resume));
    assert!(rt; count(&rt, &resume, 0) == 50_000 && bytes(&rt, &resume, 0) == 4_000_000);
    make_room(&rt, &mut resume, 0, MOST_BYTES - 80);
    assert!(rt; count(&rt, &resume, 0) == 1 && waiting(&rt, &resume, 0, 0) == Some(99_999));
}

// In version 3 there is no limit, and two hundred thousand frames go out again 3,276 at a time.
#[test]
fn many_go_out_again(rt: HostRuntime) {
    let mut resume = resume_of(rt.alloc(), 1, FrameVersion::Three).expect(&rt, "memory");
    let frame = frame_with(&rt, rt.alloc(), &[5; 37]).expect(&rt, "memory");
    assert!(rt; keep_all(&mut resume, &frame, 200_000));
    assert!(rt; bytes(&rt, &resume, 0) == 16_000_000);
    assert!(rt; last_of_batch(&rt, &resume, None, 199_999) == Some(3_275));
    assert!(rt; last_of_batch(&rt, &resume, Some(3_275), 199_999) == Some(6_551));
    assert!(rt; last_of_batch(&rt, &resume, Some(3_275), 4_000) == Some(4_000));
    assert!(rt; last_of_batch(&rt, &resume, Some(199_999), 199_999).is_none());
    assert!(rt; last_of_front(&rt, &resume, 0) == Some(0));
    assert!(rt; last_of_front(&rt, &resume, 160) == Some(1));
    assert!(rt; last_of_front(&rt, &resume, 239) == Some(1));
}
