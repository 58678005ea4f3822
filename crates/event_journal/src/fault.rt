//! Why a call on a journal fails.

ghost use Rattle.std.specs.Prelude.{◌≡◌};
ghost use Rattle.event_journal.specs.EventRecords.{journal_fault};
ghost use Rattle.event_journal.specs.declared.fault.JournalFault.TheVariants as faults;

use record_file::RecordFault;
use ritas_base::Mem;
use std::alloc::{AllocError, AllocFailed};

/// Why a call on a journal failed.
#[derive(Clone, Copy, Debug, PartialEq, Eq)]
pub enum JournalFault {
    /// The file is made and has another head, which differs first at this offset.
    Foreign(u32),
    /// The open gate at this offset isn't followed by a record and a gate.
    Broken(u32),
    /// The file has, or would have, so many bytes: more than 67,108,864.
    Full(u64),
    /// The disk failed.
    Disk,
    /// There was not enough memory.
    Mem,
}

impl From<RecordFault> for JournalFault {
    ghost use Rattle.std.specs.Prelude.{◌≡◌};
    ghost use Rattle.event_journal.specs.EventRecords.{journal_fault};

    ghost from_gives = { λ fault given. given ≡ journal_fault fault };

    fn from(fault: RecordFault) -> JournalFault {
        match fault {
            RecordFault::Foreign(at) => JournalFault::Foreign(at),
            RecordFault::Broken(at) => JournalFault::Broken(at),
            RecordFault::Full(size) => JournalFault::Full(size),
            RecordFault::Disk => JournalFault::Disk,
            RecordFault::Mem => JournalFault::Mem,
        }
    }
}

impl From<Mem> for JournalFault {
    ghost from_gives = { λ _ e. e ≡ faults.Mem };

    fn from(_: Mem) -> JournalFault {
        JournalFault::Mem
    }
}

impl From<AllocError> for JournalFault {
    ghost from_gives = { λ _ e. e ≡ faults.Mem };

    fn from(_: AllocError) -> JournalFault {
        JournalFault::Mem
    }
}

impl<T: Drop> From<AllocFailed<T>> for JournalFault {
    ghost from_gives = { λ _ e. e ≡ faults.Mem };

    fn from(_: AllocFailed<T>) -> JournalFault {
        JournalFault::Mem
    }
}
