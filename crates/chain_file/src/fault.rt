//! Why a text isn't read.

ghost use Rattle.std.specs.Prelude.{◌≡◌};
ghost use Rattle.chain_file.specs.declared.fault.EpochFault.TheVariants as faults;

use ritas_base::Mem;
use std::alloc::AllocFailed;

/// Why a text wasn't read.
#[derive(Clone, Copy, Debug, PartialEq, Eq)]
pub enum EpochFault {
    /// The bytes are the text of no epoch.
    Format,
    /// There was not enough memory.
    Mem,
}

impl From<Mem> for EpochFault {
    ghost from_gives = { λ _ e. e ≡ faults.Mem };

    fn from(_: Mem) -> EpochFault {
        EpochFault::Mem
    }
}

impl<T: Drop> From<AllocFailed<T>> for EpochFault {
    ghost from_gives = { λ _ e. e ≡ faults.Mem };

    fn from(_: AllocFailed<T>) -> EpochFault {
        EpochFault::Mem
    }
}
