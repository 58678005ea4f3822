//! Frames, sealed and opened: a body between its sender, receiver and number, and the tag of these.

ghost use Rattle.std.specs.Prelude.{◌≡◌, ◌<◌, ◌≤◌, ◌∷◌, ◌++◌, length, IfOk, OnOk, MatchResult, Ok, Err, Some, None};
ghost use Rattle.std.specs.Int.{w64, to_be_bytes};
ghost use Rattle.keyed_channel.specs.Lengths.{tag_length, frame_overhead, least_frame};
ghost use Rattle.ritas_base.specs.Bytes.{version_byte};
ghost use Rattle.ritas_base.specs.Places.{first_failed};
ghost use Rattle.keyed_channel.specs.Frames.{sealed, frame_front, opening, plain_fault, parts_tests, opening_parts, sender_of, is_tagged};

use crate::keys::Keys;
use crate::lengths::{FRAME_OVERHEAD, LEAST_FRAME, TAG_LEN};
use crate::parts::{FrameParts, parts};
use crate::tags::hmac;
use ritas_base::{Bytes, FrameVersion, LONGEST_FRAME, Mem};
use std::alloc::Global;

/// Why a frame doesn't open: the first of these that holds.
#[derive(Clone, Copy, Debug, PartialEq, Eq)]
pub enum OpenFault {
    /// It has fewer than `LEAST_FRAME` (43) bytes.
    Short,
    /// It has more than `LONGEST_FRAME` (16,384) bytes.
    Long,
    /// The first byte isn't that of the keys' version.
    Version,
    /// The receiver isn't this replica.
    NotMine,
    /// The sender isn't a replica, or is this one.
    NoSuchReplica,
    /// The tag isn't that of the bytes before it.
    BadTag,
}

/// What a frame says, and which replica sent it.
#[derive(Clone, Copy, Debug)]
pub struct Opened<'a> {
    /// The sender.
    pub from: u8,
    /// The sender's number of the frame.
    pub seq: u64,
    /// What is sent, borrowed from the frame.
    pub body: &'a [u8],
}

// What is tagged, with room for the tag: a first byte, the sender, the receiver, a number and a body.
pub(crate) fn front_of(
    alloc: Global,
    first: u8,
    me: u8,
    to: u8,
    number: u64,
    body: &[u8],
) -> Result<Vec<u8>, Mem>
    ensures { IfOk result
        (λ front. front.items ≡ first ∷ me ∷ to ∷ to_be_bytes w64 number ++ body.now) }
{
    let mut front = Vec::with_capacity(alloc, body.len() + FRAME_OVERHEAD)?;
    front.extend_from_slice(&[first, me, to])?;
    front.extend_from_slice(&number.to_be_bytes())?;
    front.extend_from_slice(body)?;
    Ok(front)
}

// The frame without its tag, with room for the tag.
pub(crate) fn front(
    alloc: Global,
    version: FrameVersion,
    me: u8,
    to: u8,
    seq: u64,
    body: &[u8],
) -> Result<Vec<u8>, Mem>
    ensures { IfOk result (λ frame. frame.items ≡ frame_front version me to seq body.now) }
{
    front_of(alloc, version.byte(), me, to, seq, body)
}

// The front with its tag behind it.
pub(crate) fn tagged(mut front: Vec<u8>, tag: &[u8; TAG_LEN]) -> Result<Bytes, Mem>
    ensures { IfOk result (λ frame. frame ≡ front.items ++ tag.now) }
{
    front.extend_from_slice(tag)?;
    Ok(Bytes::from_vec(front))
}

/// The frame that carries a body to a replica: the version of the keys, sender, receiver, sequence number (8 bytes, big-endian),
/// body, and the tag of all these bytes (HMAC-SHA-256, RFC 2104) under the key that sender and receiver share. The one
/// error is want of memory. A body of more than `longest_body` (16,341) bytes gives a frame that opens nowhere.
pub fn seal(alloc: Global, keys: &Keys, to: u8, seq: u64, body: &[u8]) -> Result<Bytes, Mem>
    requires { to < keys.now.n }
    ensures { IfOk result (λ frame. frame ≡ sealed keys.now to seq body.now) }
{
    let front = front(alloc, keys.version(), keys.me(), to, seq, body)?;
    let tag = hmac(keys.key(to), front.as_slice());
    tagged(front, &tag)
}

// The first fault that shows without a key: by the frame's length, and the version, sender and receiver that it names.
pub(crate) fn check_parts(
    keys: &Keys,
    length: usize,
    version: u8,
    from: u8,
    to: u8,
) -> Result<(), OpenFault>
    ensures fault { MatchResult result
        (λ _. first_failed (parts_tests keys.now length version from to) ≡ None)
        (λ fault. first_failed (parts_tests keys.now length version from to) ≡ Some fault) }
    ensures sender { OnOk result ((from < keys.now.n) × (keys.now.n ≤ 31)) }
{
    if length < LEAST_FRAME {
        return Err(OpenFault::Short);
    }
    if length > LONGEST_FRAME {
        return Err(OpenFault::Long);
    }
    if version != keys.version().byte() {
        return Err(OpenFault::Version);
    }
    if to != keys.me() {
        return Err(OpenFault::NotMine);
    }
    if from >= keys.n() || from == keys.me() {
        return Err(OpenFault::NoSuchReplica);
    }
    Ok(())
}

// The first fault that shows without a key.
pub(crate) fn check(keys: &Keys, bytes: &[u8]) -> Result<(), OpenFault>
    ensures fault { MatchResult result
        (λ _. plain_fault keys.now bytes.now ≡ None)
        (λ fault. plain_fault keys.now bytes.now ≡ Some fault) }
    ensures long { OnOk result (least_frame ≤ length bytes.now) }
    ensures sender { OnOk result ((sender_of bytes.now < keys.now.n) × (keys.now.n ≤ 31)) }
{
    if bytes.len() < LEAST_FRAME {
        return Err(OpenFault::Short);
    }
    check_parts(keys, bytes.len(), bytes[0], bytes[1], bytes[2])
}

// Whether the tag at the end is that of the bytes before it, under the key that is shared with the sender.
pub(crate) fn is_tagged(keys: &Keys, bytes: &[u8]) -> bool
    requires long { tag_length ≤ length bytes.now }
    requires sender { sender_of bytes.now < 31 }
    ensures { result ≡ is_tagged keys.now bytes.now }
{
    let (front, tag) = bytes.split_at(bytes.len() - TAG_LEN);
    hmac(keys.key(bytes[1]), front).as_slice() == tag
}

// What a frame says that passed all tests.
pub(crate) fn as_opened<'a>(bytes: &'a [u8]) -> Opened<'a>
    requires { frame_overhead ≤ length bytes.now }
    ensures { record { from = result.from; seq = result.seq; body = result.body.now } ≡ opening_parts bytes.now }
{
    let FrameParts { from, seq, body } = parts(bytes);
    Opened { from, seq, body }
}

/// Opens a frame: who sent it, its sequence number and its body. Where it doesn't open, the first fault that holds, in
/// the order of `OpenFault`. It takes no memory.
pub fn open_frame<'a>(keys: &Keys, bytes: &'a [u8]) -> Result<Opened<'a>, OpenFault>
    ensures { MatchResult result
        (λ o. opening keys.now bytes.now ≡ Ok (record { from = o.from; seq = o.seq; body = o.body.now }))
        (λ fault. opening keys.now bytes.now ≡ Err fault) }
{
    check(keys, bytes)?;
    if !is_tagged(keys, bytes) {
        return Err(OpenFault::BadTag);
    }
    Ok(as_opened(bytes))
}
