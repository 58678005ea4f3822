//! Why a schedule file is refused: its first fault from the left; or why it couldn't be read.

ghost use Rattle.std.specs.Prelude.{◌≡◌};
ghost use Rattle.schedule_file.specs.declared.fault.FileFault.TheVariants as faults;

use outside::Failed;
use ritas_base::Mem;
use std::alloc::AllocError;

/// The first fault of a file from the left, with the offset of its place, or a fault in reading it.
#[derive(Clone, Copy, Debug, PartialEq, Eq)]
pub enum FileFault {
    /// The first four bytes aren't `RITS`.
    Magic,
    /// The version is none of 1 to 3.
    Version,
    /// The header's field at this offset breaks its rule.
    Header(u32),
    /// The event that begins at this offset has a first byte or a replica that no event of the file may have.
    Event(u32),
    /// The file ends at this length, in the header, in an event, or without an end mark.
    Truncated(u32),
    /// A byte follows the end mark, at this offset.
    Trailing(u32),
    /// A byte at offset 67,108,864 would have to be looked at.
    TooLong,
    /// The source failed.
    Read,
    /// There was not enough memory.
    Mem,
}

impl From<Failed> for FileFault {
    ghost from_gives = { λ _ e. e ≡ faults.Read };

    fn from(_: Failed) -> FileFault {
        FileFault::Read
    }
}

impl From<Mem> for FileFault {
    ghost from_gives = { λ _ e. e ≡ faults.Mem };

    fn from(_: Mem) -> FileFault {
        FileFault::Mem
    }
}

impl From<AllocError> for FileFault {
    ghost from_gives = { λ _ e. e ≡ faults.Mem };

    fn from(_: AllocError) -> FileFault {
        FileFault::Mem
    }
}
