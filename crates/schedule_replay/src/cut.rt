//! Writing a text, and why one wasn't written whole.
ghost use Rattle.std.specs.Prelude.{◌≡◌, ◌≢◌};
ghost use Rattle.outside.specs.Writing.{Writes};
ghost use Rattle.schedule_replay.specs.declared.cut.Cut.TheVariants as cuts;

use outside::{Sink, write_all};
use ritas_base::Mem;
use std::alloc::AllocError;

/// Why a text wasn't written whole.
#[derive(Clone, Copy, PartialEq, Eq)]
pub(crate) enum Cut {
    /// The sink failed.
    Write,
    /// There was not enough memory.
    Mem,
}

impl From<AllocError> for Cut {
    ghost from_gives = { λ _ e. e ≡ cuts.Mem };

    fn from(_: AllocError) -> Cut {
        Cut::Mem
    }
}

impl From<Mem> for Cut {
    ghost from_gives = { λ _ e. e ≡ cuts.Mem };

    fn from(_: Mem) -> Cut {
        Cut::Mem
    }
}

/// Writes a text that is whole.
pub(crate) fn put<K: Sink>(sink: &mut K, text: &[u8]) -> Result<(), Cut>
    ensures writes { Writes text.now K.tells (K.taken sink.old) (K.taken sink.new) (K.faults sink.old) (K.faults sink.new)
        result (result ≡ Err Cut.Write) }
    ensures memory { result ≢ Err Cut.Mem }
{
    match write_all(sink, text) {
        Ok(()) => Ok(()),
        Err(_) => Err(Cut::Write),
    }
}
