//! How serving ends, and why it can't go on.

use crate::archive::ArchiveFault;
use outside::LinkFault;
use ritas_base::Mem;

/// How serving ended.
#[derive(Clone, Copy, Debug, PartialEq, Eq)]
pub enum ServeEnd {
    /// The epoch of a chain that was served is over: the log of each replica here has its closing row.
    Over,
    /// Each log has as many rows as were wanted.
    Done,
    /// As many items of the link were taken as were to be.
    Limit,
    /// The link gave its end.
    End,
    /// The link failed.
    LinkFault,
    /// The tape failed.
    TapeFault,
    /// There was not enough memory.
    Mem,
    /// The journal's disk failed.
    DiskFault,
    /// With the newest events the journal would be so long, which is too long.
    JournalFull(u64),
    /// So many bytes are kept for the peers of a replica, which are too many.
    KeptFull(u128),
}

/// Why serving can't go on.
#[derive(Clone, Copy, PartialEq, Eq)]
pub(crate) enum Fault {
    /// The link failed.
    Link,
    /// The tape failed.
    Tape,
    /// There was not enough memory.
    Mem,
    /// The journal's disk failed.
    Disk,
    /// With the newest events the journal would be so long, which is too long.
    Full(u64),
}

impl From<Mem> for ServeEnd {
    ghost use Rattle.std.specs.Prelude.{◌≡◌};
    ghost use Rattle.node_loop.specs.declared.end.ServeEnd.TheVariants as ends;

    ghost from_gives = { λ _ end. end ≡ ends.Mem };

    fn from(_: Mem) -> ServeEnd {
        ServeEnd::Mem
    }
}

impl From<Fault> for ServeEnd {
    ghost use Rattle.node_loop.specs.Ends.{IsEndOf};

    ghost from_gives = { IsEndOf };

    fn from(fault: Fault) -> ServeEnd {
        match fault {
            Fault::Link => ServeEnd::LinkFault,
            Fault::Tape => ServeEnd::TapeFault,
            Fault::Mem => ServeEnd::Mem,
            Fault::Disk => ServeEnd::DiskFault,
            Fault::Full(size) => ServeEnd::JournalFull(size),
        }
    }
}

impl From<LinkFault> for ServeEnd {
    ghost use Rattle.node_loop.specs.Ends.{IsEndOfLink};

    ghost from_gives = { IsEndOfLink };

    fn from(fault: LinkFault) -> ServeEnd {
        match fault {
            LinkFault::Failed => ServeEnd::LinkFault,
            LinkFault::Mem => ServeEnd::Mem,
        }
    }
}

impl From<Mem> for Fault {
    ghost use Rattle.std.specs.Prelude.{◌≡◌};
    ghost use Rattle.node_loop.specs.declared.end.Fault.TheVariants as faults;

    ghost from_gives = { λ _ fault. fault ≡ faults.Mem };

    fn from(_: Mem) -> Fault {
        Fault::Mem
    }
}

impl From<LinkFault> for Fault {
    ghost use Rattle.node_loop.specs.Ends.{IsFaultOfLink};

    ghost from_gives = { IsFaultOfLink };

    fn from(fault: LinkFault) -> Fault {
        match fault {
            LinkFault::Failed => Fault::Link,
            LinkFault::Mem => Fault::Mem,
        }
    }
}

impl From<ArchiveFault> for Fault {
    ghost use Rattle.std.specs.Prelude.{◌≡◌};
    ghost use Rattle.node_loop.specs.Ends.{fault_in};

    ghost from_gives = { λ fault given. given ≡ fault_in fault };

    fn from(fault: ArchiveFault) -> Fault {
        match fault {
            ArchiveFault::Disk => Fault::Disk,
            ArchiveFault::Full(size) => Fault::Full(size),
            ArchiveFault::Mem => Fault::Mem,
        }
    }
}
