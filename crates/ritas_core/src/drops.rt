//! Dropping the broadcasts of past slots, of which there are none in version 3.

ghost use Rattle.std.specs.Prelude.{◌≡◌};
ghost use Rattle.ritas_core.specs.Drops.{mark_shown, is_dropped_shown, DropsPast};

use crate::limits::is_behind;
use instance_tree::Tree;
use layer_api::{COMMAND_WINDOW, ROUNDS_KEPT, Service};
use ritas_base::{FrameVersion, Slot};

/// What the window of a slot is counted from: the least command number that isn't finished, or how many rounds are
/// complete.
pub(crate) fn mark<S: Service>(service: &S, slot: &Slot) -> u32
    ensures { result ≡ mark_shown (S.shown service.now) slot.now }
{
    if slot.class == 1 {
        service.base(slot.origin)
    } else {
        service.completed()
    }
}

/// Whether the broadcast of a slot is dropped: the slot is past, and one of a replica.
pub(crate) fn is_dropped<S: Service>(
    version: FrameVersion,
    service: &S,
    replicas: u8,
    slot: &Slot,
) -> bool
    ensures { result ≡ is_dropped_shown version (S.shown service.now) replicas slot.now }
{
    let has_class = 1 <= slot.class && slot.class <= 5;
    has_class && slot.origin < replicas && is_behind(version, slot, mark(service, slot))
}

/// Drops the broadcasts of past slots. In version 3 it drops none.
pub(crate) fn drop_past<S: Service, V: Drop>(
    version: FrameVersion,
    service: &S,
    replicas: u8,
    casts: &mut Tree<V>,
)
    ensures { DropsPast (is_dropped_shown version (S.shown service.now) replicas) replicas casts.old casts.new }
{
    if !version.has_past() {
        return;
    }
    casts.drop_before(service.completed().saturating_sub(ROUNDS_KEPT));
    for origin in 0..replicas {
        casts.drop_commands(origin, service.base(origin).saturating_sub(COMMAND_WINDOW));
    }
}
