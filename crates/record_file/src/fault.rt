//! Why a call on a file of records fails.

ghost use Rattle.std.specs.Prelude.{◌≡◌};
ghost use Rattle.record_file.specs.declared.fault.RecordFault.TheVariants as faults;

use outside::Failed;
use std::alloc::AllocError;

/// Why a call on a file of records failed.
#[derive(Clone, Copy, Debug, PartialEq, Eq)]
pub enum RecordFault {
    /// The file is made and has another head, which differs first at this offset.
    Foreign(u32),
    /// The open gate at this offset isn't followed by a record and a gate.
    Broken(u32),
    /// The file has, or would have, so many bytes: more than its form allows.
    Full(u64),
    /// The disk failed.
    Disk,
    /// There was not enough memory.
    Mem,
}

impl From<Failed> for RecordFault {
    ghost from_gives = { λ _ e. e ≡ faults.Disk };

    fn from(_: Failed) -> RecordFault {
        RecordFault::Disk
    }
}

impl From<AllocError> for RecordFault {
    ghost from_gives = { λ _ e. e ≡ faults.Mem };

    fn from(_: AllocError) -> RecordFault {
        RecordFault::Mem
    }
}
