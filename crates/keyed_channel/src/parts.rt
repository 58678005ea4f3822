//! What a frame says of itself, whether it opens or not.

ghost use Rattle.std.specs.Prelude.{◌≡◌, ◌<◌, ◌≤◌, length, MatchOption};
ghost use Rattle.keyed_channel.specs.Lengths.{head_length, frame_overhead};
ghost use Rattle.keyed_channel.specs.Frames.{sender_of, seq_of, frame_body};

use crate::lengths::{FRAME_OVERHEAD, HEAD_LEN, TAG_LEN};

/// Whose a frame says it is, before anything of it is checked.
#[derive(Clone, Copy, Debug, PartialEq, Eq)]
pub struct FrameHeader {
    /// The replica that it names as its sender.
    pub from: u8,
    /// The sender's number of the frame.
    pub seq: u64,
}

/// What a frame says of itself, before anything of it is checked.
#[derive(Clone, Copy, Debug)]
pub struct FrameParts<'a> {
    /// The replica that it names as its sender.
    pub from: u8,
    /// The sender's number of the frame.
    pub seq: u64,
    /// What is sent, borrowed from the frame.
    pub body: &'a [u8],
}

// The sender and the number, where they are there.
fn header(bytes: &[u8]) -> FrameHeader
    requires { head_length ≤ length bytes.now }
    ensures { (result.from ≡ sender_of bytes.now) × (result.seq ≡ seq_of bytes.now) }
{
    let mut seq = [0; 8];
    seq.copy_from_slice(&bytes[3..HEAD_LEN]);
    FrameHeader {
        from: bytes[1],
        seq: u64::from_be_bytes(seq),
    }
}

// The parts of a frame that isn't too short.
pub(crate) fn parts<'a>(bytes: &'a [u8]) -> FrameParts<'a>
    requires { frame_overhead ≤ length bytes.now }
    ensures { (result.from ≡ sender_of bytes.now) × (result.seq ≡ seq_of bytes.now) × (result.body.now ≡ frame_body bytes.now) }
{
    let FrameHeader { from, seq } = header(bytes);
    FrameParts {
        from,
        seq,
        body: &bytes[HEAD_LEN..bytes.len() - TAG_LEN],
    }
}

/// The sender and the number that bytes name where they are read as a frame. Nothing is checked, as with `frame_parts`.
///
/// `None` is answered exactly where they have fewer than `HEAD_LEN` (11) bytes. It takes no memory.
pub fn frame_header(bytes: &[u8]) -> Option<FrameHeader>
    ensures { MatchOption result
        (length bytes.now < head_length)
        (λ named. (head_length ≤ length bytes.now) × (named.from ≡ sender_of bytes.now) × (named.seq ≡ seq_of bytes.now)) }
{
    if bytes.len() < HEAD_LEN {
        return None;
    }
    Some(header(bytes))
}

/// What bytes say of themselves where they are read as a frame. Neither the version, the receiver, the sender nor the tag
/// is checked, so whoever made the bytes may have made it up: `open_frame` tells what is true of it.
///
/// `None` is answered exactly where they are too short for a frame, with fewer than `FRAME_OVERHEAD` (43) bytes. It takes no memory.
pub fn frame_parts<'a>(bytes: &'a [u8]) -> Option<FrameParts<'a>>
    ensures { MatchOption result
        (length bytes.now < frame_overhead)
        (λ parts. (frame_overhead ≤ length bytes.now) × (parts.from ≡ sender_of bytes.now) × (parts.seq ≡ seq_of bytes.now)
        × (parts.body.now ≡ frame_body bytes.now)) }
{
    if bytes.len() < FRAME_OVERHEAD {
        return None;
    }
    Some(parts(bytes))
}
