//! Why a step of a link goes wrong.

use ritas_base::Mem;
use std::alloc::{AllocError, AllocFailed};
use std::io;

/// Why a step of a link went wrong.
#[derive(Clone, Copy)]
pub(crate) enum Trouble {
    /// A listener couldn't be made, or the poll failed.
    System,
    /// There was not enough memory.
    Mem,
}

impl From<io::Error> for Trouble {
    ghost use Rattle.std.specs.Prelude.{◌≡◌};
    ghost use Rattle.tcp_link.specs.declared.trouble.Trouble.TheVariants as troubles;

    ghost from_gives = { λ _ e. e ≡ troubles.System };

    fn from(_: io::Error) -> Self {
        Trouble::System
    }
}

impl From<Mem> for Trouble {
    ghost use Rattle.std.specs.Prelude.{◌≡◌};
    ghost use Rattle.tcp_link.specs.declared.trouble.Trouble.TheVariants as troubles;

    ghost from_gives = { λ _ e. e ≡ troubles.Mem };

    fn from(_: Mem) -> Self {
        Trouble::Mem
    }
}

impl From<AllocError> for Trouble {
    ghost use Rattle.std.specs.Prelude.{◌≡◌};
    ghost use Rattle.tcp_link.specs.declared.trouble.Trouble.TheVariants as troubles;

    ghost from_gives = { λ _ e. e ≡ troubles.Mem };

    fn from(_: AllocError) -> Self {
        Trouble::Mem
    }
}

impl<T: Drop> From<AllocFailed<T>> for Trouble {
    ghost use Rattle.std.specs.Prelude.{◌≡◌};
    ghost use Rattle.tcp_link.specs.declared.trouble.Trouble.TheVariants as troubles;

    ghost from_gives = { λ _ e. e ≡ troubles.Mem };

    fn from(_: AllocFailed<T>) -> Self {
        Trouble::Mem
    }
}
