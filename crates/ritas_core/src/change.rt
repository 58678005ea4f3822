//! What an item changed that the layers took.

use ritas_base::Slot;

/// What changed, so far as held items may wait for it: the broadcast of its slot, which has no columns, or may have some; or
/// the service, which heard what the slot delivered.
#[derive(Clone, Copy)]
pub(crate) enum Change {
    Cast,
    /// Columns of this slot may have opened.
    Columns(Slot),
    Service,
}
