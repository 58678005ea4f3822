//! How watching ends.

use outside::LinkFault;
use ritas_base::Mem;

/// How watching ended.
#[derive(Clone, Copy, Debug, PartialEq, Eq)]
pub enum WatchEnd {
    /// The log has as many rows as were wanted.
    Rows,
    /// The link gave its end before that.
    End,
    /// The link failed.
    LinkFault,
    /// There was not enough memory.
    Mem,
}

impl From<LinkFault> for WatchEnd {
    ghost use Rattle.log_watch.specs.Waiting.{IsWatchEndOf};

    ghost from_gives = { IsWatchEndOf };

    fn from(fault: LinkFault) -> WatchEnd {
        match fault {
            LinkFault::Failed => WatchEnd::LinkFault,
            LinkFault::Mem => WatchEnd::Mem,
        }
    }
}

impl From<Mem> for WatchEnd {
    ghost use Rattle.std.specs.Prelude.{◌≡◌};
    ghost use Rattle.log_watch.specs.declared.end.WatchEnd.TheVariants as ends;

    ghost from_gives = { λ _ end. end ≡ ends.Mem };

    fn from(_: Mem) -> WatchEnd {
        WatchEnd::Mem
    }
}
