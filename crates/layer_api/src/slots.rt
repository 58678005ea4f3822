//! Which slots belong to an instance of vector consensus.

ghost use Rattle.std.specs.Prelude.{◌≡◌, ◌==◌, nat_le, if◌then◌else◌};
ghost use Rattle.layer_api.specs.Vectors.{is_slot_in};

use ritas_base::Slot;

/// Whether an attempt is right: 0 at a proposal, and at most the last elsewhere.
fn has_attempt(last: u8, class: u8, attempt: u8) -> bool
    ensures { result ≡ (if class == 2 then attempt == 0 else nat_le attempt last) }
{
    if class == 2 {
        attempt == 0
    } else {
        attempt <= last
    }
}

/// Whether the slot is one of the instance of vector consensus of round `a`, whose attempts are numbered from 0 to `last`:
/// that of a proposal, or one of an attempt.
pub fn is_slot_in(last: u8, a: u32, slot: &Slot) -> bool
    ensures { result ≡ is_slot_in last a slot.now }
{
    2 <= slot.class
        && slot.class <= 5
        && slot.a == a
        && has_attempt(last, slot.class, slot.attempt)
        && slot.has_counts()
}
