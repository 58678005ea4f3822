//! Which slots are open.

ghost use Rattle.std.specs.Prelude.{◌≡◌};
ghost use Rattle.vector_consensus.specs.Opening.{is_slot_allowed, attempts_open};

use crate::going::Progress;
use crate::part::Part;
use layer_api::{MultiBox, is_slot_in};
use ritas_base::Slot;

/// Whether items of a slot of the instance may be taken: of a proposal once something is proposed, and of an attempt that
/// began where its box takes them.
fn is_allowed<M: MultiBox>(now: &Progress, tries: &[M], slot: &Slot) -> bool
    ensures { result ≡ is_slot_allowed M.shown now.now tries.now slot.now }
{
    if slot.class == 2 {
        return now.own;
    }
    let k = usize::from(slot.attempt);
    match tries.get(k) {
        Some(one) if k < now.begun => one.is_open(slot),
        _ => false,
    }
}

/// Whether items of the slot may be taken.
pub(crate) fn is_open<M: MultiBox>(part: &Part, now: &Progress, tries: &[M], slot: &Slot) -> bool
    ensures { result ≡ attempts_open M.shown part.now now.now tries.now slot.now }
{
    is_slot_in(part.last, part.a, slot) && is_allowed(now, tries, slot)
}
