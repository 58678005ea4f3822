//! What a file says and which fault it has, for every list of bytes.
ghost use Rattle.std.specs.Prelude.{◌≡◌, ◌≤◌, ◌+◌, ◌++◌, ◌∷◌, [], ◌↔◌, length, false, Ok, Err, Some};
ghost use Rattle.std.specs.List.{AllByRecursion};
ghost use Rattle.ritas_base.specs.Bytes.{IsBytes};
ghost use Rattle.schedule_file.specs.FileBytes.{is_outside, limit};
ghost use Rattle.schedule_file.specs.OwnEvents.{own_event, IsOwnEvent, IsEventRead};
ghost use Rattle.schedule_file.specs.Schedule.{file_of};
ghost use Rattle.schedule_file.specs.Spelling.{event_text, header_size, header_text, FileOf, FrontOf, IsEvent, IsFile, IsHeading};
ghost use Rattle.schedule_file.specs.Faults.{IsMagicFault, IsVersionFault, IsHeaderFault, IsEventFault, IsTrailingFault, IsTruncated, IsTooLong};

use crate::fault::FileFault;

/// What is read as a header and events is spelled so, and what is spelled so is read as it.
///
/// It does nothing: its contract is the law.
pub fn file_laws()
    ensures found { (bytes : _) (h : _) (es : _) → IsBytes bytes → file_of bytes ≡ Ok (h, es) → IsFile bytes h es }
    ensures only { (bytes : _) (h : _) (es : _) → IsFile bytes h es → file_of bytes ≡ Ok (h, es) }
{}

/// Each fault of a file comes exactly where these words about the bytes hold.
///
/// It does nothing: its contract is the law.
pub fn file_faults()
    // The first wrong field of the header is the one at this offset.
    ensures magic { (bytes : _) → IsBytes bytes → (file_of bytes ≡ Err FileFault.Magic) ↔ IsMagicFault bytes }
    ensures version { (bytes : _) → IsBytes bytes → (file_of bytes ≡ Err FileFault.Version) ↔ IsVersionFault bytes }
    ensures header { (bytes : _) (p : _) → IsBytes bytes → (file_of bytes ≡ Err (FileFault.Header p)) ↔ IsHeaderFault bytes p }

    // A header and events that are right end there, and an event begins there that is wrong.
    ensures event { (bytes : _) (p : _) → IsBytes bytes → (file_of bytes ≡ Err (FileFault.Event p)) ↔ IsEventFault bytes p }

    // A whole file ends there, and a byte follows it.
    ensures trailing { (bytes : _) (p : _) → IsBytes bytes → (file_of bytes ≡ Err (FileFault.Trailing p)) ↔ IsTrailingFault bytes p }

    // The bytes are right as far as they go, and end there, or go on behind the limit.
    ensures truncated { (bytes : _) (p : _) → IsBytes bytes → (file_of bytes ≡ Err (FileFault.Truncated p)) ↔ IsTruncated bytes p }
    ensures too_long { (bytes : _) → IsBytes bytes → (file_of bytes ≡ Err FileFault.TooLong) ↔ IsTooLong bytes }

    // A file has no fault of a source or of memory.
    ensures own { (bytes : _) (e : _) → IsBytes bytes → file_of bytes ≡ Err e → is_outside e ≡ false }
{}

/// What the calls of `Writer` write one after the other is a file, which is read back as its header and events. The
/// newest event is the first of its list.
///
/// It does nothing: its contract is the law.
pub fn writer_laws()
    // First the header, then the text of each event, and at last the end mark.
    ensures first { (h : _) → FrontOf h [] ≡ header_text h }
    ensures next { (h : _) (e : _) (es : _) → FrontOf h (e ∷ es) ≡ FrontOf h es ++ event_text e }
    ensures end { (h : _) (es : _) → FileOf h es ≡ FrontOf h es ++ 0 ∷ [] }
    ensures last { (h : _) (e : _) (es : _) → FileOf h (e ∷ es) ≡ FrontOf h es ++ event_text e ++ 0 ∷ [] }

    // How many bytes these are.
    ensures first_length { (h : _) → IsHeading h → length (FrontOf h []) ≡ header_size h }
    ensures next_length { (h : _) (e : _) (es : _) → length (FrontOf h (e ∷ es)) ≡ length (FrontOf h es) + length (event_text e) }
    ensures end_length { (h : _) (es : _) → length (FileOf h es) ≡ length (FrontOf h es) + 1 }

    ensures read_back { (h : _) (es : _) → IsHeading h → AllByRecursion (IsEvent h) es → length (FileOf h es) ≤ limit
        → file_of (FileOf h es) ≡ Ok (h, es) }
{}

/// What `read_event` reads is what the bytes begin with, and it reads whatever event they begin with. So it answers `None`
/// exactly where they begin with no event of that replica.
///
/// It does nothing: its contract is the law.
pub fn own_event_laws()
    ensures found { (me : _) (bytes : _) (e : _) (k : _) → IsBytes bytes → own_event me bytes ≡ Some (e, k) → IsEventRead me bytes e k }
    ensures only { (me : _) (e : _) (rest : _) → IsOwnEvent me e → own_event me (event_text e ++ rest) ≡ Some (e, length (event_text e)) }
{}
