//! How long frames and notes are, each defined once in `specs/Lengths.antt`.
ghost use Rattle.std.specs.Prelude.{◌≡◌};
ghost use Rattle.keyed_channel.specs.Lengths.{head_length, tag_length, frame_overhead, least_frame, note_front_length, note_length};

/// What stands before the body of a frame: version, sender, receiver and sequence number.
pub const HEAD_LEN: usize = 11;

/// The tag of a frame or a note.
pub const TAG_LEN: usize = 32;

/// A frame has so many bytes more than its body.
pub const FRAME_OVERHEAD: usize = HEAD_LEN + TAG_LEN;

/// The shortest frame that opens has so many bytes.
pub const LEAST_FRAME: usize = FRAME_OVERHEAD;

/// What stands before the tag of a note: its first byte, sender, receiver, form and number.
pub(crate) const NOTE_FRONT_LEN: usize = 12;

/// A note has so many bytes.
pub const NOTE_LEN: usize = NOTE_FRONT_LEN + TAG_LEN;

/// A law: these constants are what the definitions say.
///
/// It does nothing: its contract is the law.
pub fn lengths_are()
    ensures head { HEAD_LEN ≡ head_length }
    ensures tag { TAG_LEN ≡ tag_length }
    ensures overhead { FRAME_OVERHEAD ≡ frame_overhead }
    ensures least { LEAST_FRAME ≡ least_frame }
    ensures note_front { NOTE_FRONT_LEN ≡ note_front_length }
    ensures note { NOTE_LEN ≡ note_length }
{}
