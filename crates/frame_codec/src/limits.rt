//! The limits of the values that bodies carry, each defined once in `specs/Limits.antt`.
ghost use Rattle.std.specs.Prelude.{◌≡◌};
ghost use Rattle.frame_codec.specs.Limits.{most_ids, longest_ids, longest_entry};

/// An identifier list has at most so many, of which each origin has an equal share.
pub const MOST_IDS: u8 = 64;

/// The bytes of the longest identifier list.
pub(crate) const LONGEST_IDS: usize = 5 * MOST_IDS as usize;

/// The bytes of the longest entry of a vector, where it is a value that is proposed.
pub const LONGEST_ENTRY: usize = 512;

/// A law: these constants are what the definitions say.
///
/// It does nothing: its contract is the law.
pub fn limits_are()
    ensures ids { MOST_IDS ≡ most_ids }
    ensures list { LONGEST_IDS ≡ longest_ids }
    ensures entry { LONGEST_ENTRY ≡ longest_entry }
{}
