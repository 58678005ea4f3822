//! What is known of an event once it happened, for the audit and for whoever asks what became of it.

use crate::seen::Seen;
use keyed_channel::LazyFrame;
use replica::OutFrame;
use ritas_base::Item;
use std::alloc::Global;

/// What an event did: at which replica, what became of it, whether its frame forged, the item that the replica took, where
/// the audit looks at it, and the frames that it made.
#[derive(Drop)]
pub(crate) struct Happened {
    pub(crate) at: u8,
    pub(crate) seen: Seen,
    pub(crate) forged: bool,
    pub(crate) taken: Option<Item>,
    pub(crate) out: Vec<OutFrame<LazyFrame>>,
}

impl Happened {
    ghost use Rattle.std.specs.Prelude.{◌≡◌, [], false, None};

    /// Nothing, since no correct replica made the frame, or got it.
    pub(crate) fn nothing(alloc: Global, at: u8) -> Happened
        ensures at { result.at ≡ at }
        ensures seen { result.seen ≡ Seen.Missed }
        ensures forged { result.forged ≡ false }
        ensures taken { result.taken ≡ None }
        ensures out { result.out.items ≡ [] }
    {
        Happened {
            at,
            seen: Seen::Missed,
            forged: false,
            taken: None,
            out: Vec::new(alloc),
        }
    }
}
