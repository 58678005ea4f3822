//! Frames that are kept, how many may be, and why one isn't.

ghost use Rattle.std.specs.Prelude.{◌≡◌};
ghost use Rattle.link_resume.specs.Lists.{most_kept};

use keyed_channel::LazyFrame;
use ritas_base::{FrameVersion, Mem};
use std::alloc::AllocError;

/// A frame that is kept, and its number.
#[derive(Drop)]
pub struct Kept {
    /// The number by which it is acknowledged.
    pub seq: u64,
    /// The frame, which shares its body with the frames that carry it to others.
    pub frame: LazyFrame,
}

/// The most bytes that are kept for one peer in a session of this version: 8,388,608 in versions 1 and 2. In version 3 there is no limit.
pub fn most_kept(version: FrameVersion) -> Option<u64>
    ensures { result ≡ most_kept version }
{
    match version {
        FrameVersion::One | FrameVersion::Two => Some(8_388_608),
        FrameVersion::Three => None,
    }
}

/// Why a frame isn't kept.
#[derive(Clone, Copy, Debug, PartialEq, Eq)]
pub enum KeepFault {
    /// So many bytes are kept for the peer, and with the frame they would be over the limit.
    QueueFull(u64),
    /// There was not enough memory.
    Mem,
}

impl From<Mem> for KeepFault {
    ghost use Rattle.std.specs.Prelude.{◌≡◌};
    ghost use Rattle.link_resume.specs.declared.kept.KeepFault.TheVariants as faults;

    ghost from_gives = { λ _ e. e ≡ faults.Mem };

    fn from(_: Mem) -> KeepFault {
        KeepFault::Mem
    }
}

impl From<AllocError> for KeepFault {
    ghost use Rattle.std.specs.Prelude.{◌≡◌};
    ghost use Rattle.link_resume.specs.declared.kept.KeepFault.TheVariants as faults;

    ghost from_gives = { λ _ e. e ≡ faults.Mem };

    fn from(_: AllocError) -> KeepFault {
        KeepFault::Mem
    }
}
