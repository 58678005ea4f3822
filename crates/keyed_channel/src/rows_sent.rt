//! Rows of the chain that a replica sends a peer, sealed and opened.

ghost use Rattle.std.specs.Prelude.{◌≡◌, ◌<◌, ◌≤◌, true, length, IfOk, MatchOption, Some, None};
ghost use Rattle.keyed_channel.specs.Lengths.{frame_overhead};
ghost use Rattle.keyed_channel.specs.Frames.{sender_of};
ghost use Rattle.keyed_channel.specs.RowsSent.{sealed_rows, is_rows, is_plain_rows, rows_opening};

use crate::frame::{front_of, is_tagged, tagged};
use crate::keys::Keys;
use crate::lengths::LEAST_FRAME;
use crate::parts::{FrameParts, parts};
use crate::tags::hmac;
use ritas_base::{Bytes, Mem};
use std::alloc::Global;

// The first byte of rows.
const ROWS: u8 = 0x52;

/// Rows of the chain that a replica sent.
#[derive(Clone, Copy, Debug)]
pub struct RowsSent<'a> {
    /// The sender.
    pub from: u8,
    /// The position in the chain of the first row.
    pub position: u64,
    /// The rows, borrowed from the bytes that were opened. Nothing is said here of how they are written.
    pub body: &'a [u8],
}

/// Whether bytes begin as rows that are sent. What does is neither a frame nor a note (`rows_are_no_frames`), and what
/// doesn't opens as no rows.
pub fn is_rows(bytes: &[u8]) -> bool
    ensures { result ≡ is_rows bytes.now }
{
    bytes.first() == Some(&ROWS)
}

/// Rows of the chain for a replica, from a position on. They are 0x52, sender, receiver, the position (8 bytes, big-endian),
/// the body, and a tag of 32 bytes. The tag is HMAC-SHA-256 (RFC 2104, FIPS 180-4) of all bytes before it, under the key that
/// sender and receiver share. The form is this project's own. The one error is want of memory.
pub fn seal_rows(
    alloc: Global,
    keys: &Keys,
    to: u8,
    position: u64,
    body: &[u8],
) -> Result<Bytes, Mem>
    requires { to < keys.now.n }
    ensures { IfOk result (λ rows. rows ≡ sealed_rows keys.now to position body.now) }
{
    let front = front_of(alloc, ROWS, keys.me(), to, position, body)?;
    let tag = hmac(keys.key(to), front.as_slice());
    tagged(front, &tag)
}

// The tests that need no key.
fn is_plain_rows(keys: &Keys, bytes: &[u8]) -> bool
    ensures value { result ≡ is_plain_rows keys.now bytes.now }
    ensures long { result ≡ true → frame_overhead ≤ length bytes.now }
    ensures sender { result ≡ true → (sender_of bytes.now < keys.now.n) × (keys.now.n ≤ 31) }
{
    bytes.len() >= LEAST_FRAME
        && bytes[0] == ROWS
        && bytes[2] == keys.me()
        && bytes[1] < keys.n()
        && bytes[1] != keys.me()
}

/// Opens rows of the chain that a replica sent. `None` comes exactly where the bytes are fewer than `LEAST_FRAME` (43), don't
/// begin with 0x52, aren't for this replica, aren't from another one below n, or have a wrong tag. It takes no memory.
pub fn open_rows<'a>(keys: &Keys, bytes: &'a [u8]) -> Option<RowsSent<'a>>
    ensures { MatchOption result
        (rows_opening keys.now bytes.now ≡ None)
        (λ rows. rows_opening keys.now bytes.now
        ≡ Some (record { from = rows.from; position = rows.position; body = rows.body.now })) }
{
    if !is_plain_rows(keys, bytes) {
        return None;
    }
    if !is_tagged(keys, bytes) {
        return None;
    }
    let FrameParts { from, seq, body } = parts(bytes);
    Some(RowsSent {
        from,
        position: seq,
        body,
    })
}
