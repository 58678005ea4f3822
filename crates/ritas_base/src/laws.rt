//! What the words of slots mean.

ghost use Rattle.std.specs.Prelude.{◌≡◌};
ghost use Rattle.std.specs.Ordering.{nat_cmp};
ghost use Rattle.std.specs.Cmp.Lexicographic.{slice_cmp};
ghost use Rattle.ritas_base.specs.declared.slot.Slot.{Slot};
ghost use Rattle.ritas_base.specs.Slots.{HasFields, slot_bytes};
ghost use Rattle.ritas_base.specs.SlotOrder.{slot_cmp};

/// The order of slots is that of their nine bytes, as the lists of bytes are ordered.
///
/// It does nothing: its contract is the law.
pub fn order_of_bytes()
    ensures { (s q : Slot) → HasFields s → HasFields q → slot_cmp s q ≡ slice_cmp nat_cmp (slot_bytes s) (slot_bytes q) }
{}
