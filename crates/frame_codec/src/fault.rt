//! What is wrong with bytes.

ghost use Rattle.frame_codec.specs.declared.fault.BodyFault.TheVariants.{Mem as no_memory};
ghost use Rattle.std.specs.Prelude.{◌≡◌};

use ritas_base::{Mem, SlotFault};

/// Why bytes are no body. Offsets are counted from the body's first byte, so the payload begins at 10.
#[derive(Clone, Copy, Debug, PartialEq, Eq)]
pub enum BodyFault {
    /// The body is empty, its first byte is no kind of the session's version, or its slot is right and goes by a broadcast
    /// without this kind.
    Kind,
    /// The slot is wrong, or `Whole`: there is a kind, and the body has fewer than 10 bytes.
    Slot(SlotFault),
    /// The payload has a field that is wrong, at its first byte, or that isn't whole, at the body's length. A string that
    /// is too long is wrong at its limit.
    Payload(u32),
    /// The payload is whole and right, and bytes follow it, the first of them here.
    Rest(u32),
    /// There was not enough memory.
    Mem,
}

impl From<Mem> for BodyFault {
    ghost from_gives = { λ _ e. e ≡ no_memory };

    fn from(_: Mem) -> Self {
        BodyFault::Mem
    }
}

/// A fault in a payload, by how many bytes are left from it on.
#[derive(Clone, Copy, PartialEq, Eq)]
pub(crate) struct Wrong {
    pub(crate) left: usize,
}
