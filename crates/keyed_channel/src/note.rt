//! Notes, sealed and opened: that a frame was taken, or that frames are to be sent again.

ghost use Rattle.std.specs.Prelude.{◌≡◌, ◌<◌, ◌≤◌, ◌&&◌, ◌++◌, true, length};
ghost use Rattle.keyed_channel.specs.Lengths.{note_length};
ghost use Rattle.keyed_channel.specs.Frames.{sender_of, is_tagged};
ghost use Rattle.keyed_channel.specs.Notes.{note_front, sealed_note, ack_note, again_note, may_ask_from, note_form, note_number, note_of, is_note, is_plain_note, noted};

use crate::frame::is_tagged;
use crate::keys::Keys;
use crate::lengths::{NOTE_FRONT_LEN, NOTE_LEN, TAG_LEN};
use crate::tags::hmac;
use ritas_base::FrameVersion;

// The first byte of a note.
const NOTE: u8 = 0x4e;

const ACK: u8 = 1;

const AGAIN: u8 = 2;

/// What a note says, and which replica sent it.
#[derive(Clone, Copy, Debug, PartialEq, Eq)]
pub enum Note {
    /// The frame with this number was taken.
    Ack { from: u8, seq: u64 },
    /// The frames that weren't acknowledged are to be sent again, from this number on. In versions 1 and 2 it is 0.
    Again { from: u8, seq: u64 },
}

// The note without its tag.
pub(crate) fn note_front(me: u8, to: u8, form: u8, number: u64) -> [u8; NOTE_FRONT_LEN]
    ensures { result ≡ note_front me to form number }
{
    let n = number.to_be_bytes();
    [
        NOTE, me, to, form, n[0], n[1], n[2], n[3], n[4], n[5], n[6], n[7],
    ]
}

// The front with its tag behind it.
pub(crate) fn tagged_note(front: &[u8; NOTE_FRONT_LEN], tag: &[u8; TAG_LEN]) -> [u8; NOTE_LEN]
    ensures { result ≡ front.now ++ tag.now }
{
    let mut note = [0; NOTE_LEN];
    note[NOTE_FRONT_LEN..].copy_from_slice(tag);
    note[..NOTE_FRONT_LEN].copy_from_slice(front);
    note
}

/// Whether bytes begin as a note. What does opens as no frame (`notes_are_no_frames`), and what doesn't says nothing as a
/// note.
pub fn is_note(bytes: &[u8]) -> bool
    ensures { result ≡ is_note bytes.now }
{
    bytes.first() == Some(&NOTE)
}

// The tests that need no key.
pub(crate) fn is_plain_note(keys: &Keys, bytes: &[u8]) -> bool
    ensures value { result ≡ is_plain_note keys.now bytes.now }
    ensures long { result ≡ true → length bytes.now ≡ note_length }
    ensures sender { result ≡ true → (sender_of bytes.now < keys.now.n) × (keys.now.n ≤ 31) }
{
    bytes.len() == NOTE_LEN
        && bytes[0] == NOTE
        && bytes[2] == keys.me()
        && bytes[1] < keys.n()
        && bytes[1] != keys.me()
}

// Whether bytes are a note for this replica, from another one, with a right tag.
pub(crate) fn is_right_note(keys: &Keys, bytes: &[u8]) -> bool
    ensures value { result ≡ (is_plain_note keys.now bytes.now && is_tagged keys.now bytes.now) }
    ensures long { result ≡ true → length bytes.now ≡ note_length }
{
    is_plain_note(keys, bytes) && is_tagged(keys, bytes)
}

// Whether a replica may ask for frames from this number on in a session of a version.
fn may_ask_from(version: FrameVersion, seq: u64) -> bool
    ensures { result ≡ may_ask_from version seq }
{
    match version {
        FrameVersion::One | FrameVersion::Two => seq == 0,
        FrameVersion::Three => true,
    }
}

// The number of a note.
pub(crate) fn note_number(bytes: &[u8]) -> u64
    requires { length bytes.now ≡ note_length }
    ensures { result ≡ note_number bytes.now }
{
    let mut number = [0; 8];
    number.copy_from_slice(&bytes[4..NOTE_FRONT_LEN]);
    u64::from_be_bytes(number)
}

// What the parts of a note say in a session of a version.
pub(crate) fn note_of(version: FrameVersion, bytes: &[u8]) -> Option<Note>
    requires { length bytes.now ≡ note_length }
    ensures { result ≡ note_of version (sender_of bytes.now) (note_form bytes.now) (note_number bytes.now) }
{
    let from = bytes[1];
    let seq = note_number(bytes);
    if bytes[3] == ACK {
        Some(Note::Ack { from, seq })
    } else if bytes[3] == AGAIN && may_ask_from(version, seq) {
        Some(Note::Again { from, seq })
    } else {
        None
    }
}

// A note of a form and a number.
pub(crate) fn seal_note(keys: &Keys, to: u8, form: u8, number: u64) -> [u8; NOTE_LEN]
    requires { to < keys.now.n }
    ensures { result ≡ sealed_note keys.now to form number }
{
    let front = note_front(keys.me(), to, form, number);
    let tag = hmac(keys.key(to), &front);
    tagged_note(&front, &tag)
}

/// The note for a replica that its frame with this number was taken: 0x4e, sender, receiver, form 1, the number (8 bytes,
/// big-endian), and the tag of all these bytes (HMAC-SHA-256, RFC 2104) under the key that sender and receiver share. It
/// takes no memory.
pub fn seal_ack(keys: &Keys, to: u8, seq: u64) -> [u8; NOTE_LEN]
    requires { to < keys.now.n }
    ensures { result ≡ ack_note keys.now to seq }
{
    seal_note(keys, to, ACK, seq)
}

/// The note for a replica that it is to send its frames again from this number on: as that of `seal_ack`, with form 2. In
/// versions 1 and 2 it says something with number 0 alone. It takes no memory.
pub fn seal_again(keys: &Keys, to: u8, seq: u64) -> [u8; NOTE_LEN]
    requires { to < keys.now.n }
    ensures { result ≡ again_note keys.now to seq }
{
    seal_note(keys, to, AGAIN, seq)
}

/// What a note says: `None` exactly where the bytes aren't a note for this replica, from another one below n, with a right
/// tag, of form 1, or of form 2, in versions 1 and 2 with number 0. It takes no memory.
pub fn open_note(keys: &Keys, bytes: &[u8]) -> Option<Note>
    ensures { result ≡ noted keys.now bytes.now }
{
    if !is_right_note(keys, bytes) {
        return None;
    }
    note_of(keys.version(), bytes)
}
