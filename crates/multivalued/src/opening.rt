//! Which slots are open.

ghost use Rattle.std.specs.Prelude.{◌≡◌};
ghost use Rattle.layer_api.specs.Multi.{is_slot_of};
ghost use Rattle.multivalued.specs.Opening.{part_opens, is_class_allowed};

use crate::part::Part;
use crate::settling::Progress;
use ritas_base::Slot;

/// Whether the slot is one of the instance of this round and attempt.
pub(crate) fn is_slot_of(a: u32, attempt: u8, slot: &Slot) -> bool
    ensures { result ≡ is_slot_of a attempt slot.now }
{
    3 <= slot.class
        && slot.class <= 5
        && slot.a == a
        && slot.attempt == attempt
        && slot.has_counts()
}

/// Whether items of a class and round may be taken.
fn is_allowed(now: &Progress, class: u8, bround: u8) -> bool
    ensures { result ≡ is_class_allowed now.now class bround }
{
    if class == 5 {
        now.asked && u16::from(bround) <= u16::from(now.round) + 1
    } else {
        now.own
    }
}

/// Whether items of the slot may be taken.
pub(crate) fn is_open(part: &Part, now: &Progress, slot: &Slot) -> bool
    ensures { result ≡ part_opens part.now now.now slot.now }
{
    is_slot_of(part.a, part.attempt, slot) && is_allowed(now, slot.class, slot.bround)
}
