//! Why a frame, an input or a turn is refused, by the part that refuses it.

use frame_codec::BodyFault;
use keyed_channel::OpenFault;
use ritas_core::CoreFault;

/// Why a frame, an input or a turn was refused.
#[derive(Clone, Copy, Debug, PartialEq, Eq)]
pub enum Refusal {
    /// The frame doesn't open.
    Open(OpenFault),
    /// Its body spells no item, or there was not enough memory to read it.
    Body(BodyFault),
    /// The core refuses it, or there was not enough memory to take it, to hold it, to enter a command into the log, or to seal what
    /// became due by it.
    Core(CoreFault),
}
