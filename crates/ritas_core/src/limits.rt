//! The bounds of the windows: what lies behind them, and what beyond.

ghost use Rattle.std.specs.Prelude.{◌≡◌};
ghost use Rattle.layer_api.specs.Windows.{is_behind, is_beyond};

use layer_api::{COMMAND_WINDOW, ROUNDS_AHEAD, ROUNDS_KEPT};
use ritas_base::{FrameVersion, Slot};

/// Whether a slot lies behind the window that is counted from this command number or count of complete rounds. In version 3
/// none does.
pub(crate) fn is_behind(version: FrameVersion, slot: &Slot, mark: u32) -> bool
    ensures { result ≡ is_behind version slot.now mark }
{
    let back = if slot.class == 1 {
        COMMAND_WINDOW
    } else {
        ROUNDS_KEPT
    };
    version.has_past() && u64::from(slot.a) + u64::from(back) < u64::from(mark)
}

/// Whether a slot lies beyond that window.
pub(crate) fn is_beyond(slot: &Slot, mark: u32) -> bool
    ensures { result ≡ is_beyond slot.now mark }
{
    if slot.class == 1 {
        u64::from(mark) + u64::from(COMMAND_WINDOW) <= u64::from(slot.a)
    } else {
        u64::from(mark) + u64::from(ROUNDS_AHEAD) < u64::from(slot.a)
    }
}
