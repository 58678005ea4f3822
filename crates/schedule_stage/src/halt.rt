//! Why a step of a player isn't taken.

ghost use Rattle.std.specs.Prelude.{◌≡◌};
ghost use Rattle.schedule_stage.specs.declared.halt.Halt.TheVariants as halts;

use ritas_base::Mem;
use std::alloc::AllocError;

/// Why a step wasn't taken.
#[derive(Clone, Copy, Debug, PartialEq, Eq)]
pub enum Halt {
    /// It would pass this limit: 4,000,000 steps, or 67,108,864 bytes of the schedule's file.
    Limit(u32),
    /// There was not enough memory.
    Mem,
}

impl From<Mem> for Halt {
    ghost from_gives = { λ _ h. h ≡ halts.Mem };

    fn from(_: Mem) -> Halt {
        Halt::Mem
    }
}

impl From<AllocError> for Halt {
    ghost from_gives = { λ _ h. h ≡ halts.Mem };

    fn from(_: AllocError) -> Halt {
        Halt::Mem
    }
}
