//! Commands are said at the slot of their replica's next number.

ghost use Rattle.std.specs.Prelude.{◌≡◌, [], ◌∷◌, ◌++◌, OnOk, OnErr};
ghost use Rattle.ritas_base.specs.Slots.{command_slot};

use ritas_base::{Bytes, Mem, Say, Slot};
use std::alloc::Global;

/// Says the value at the slot of replica `me`'s command of this number. The one error is want of memory.
pub fn say_command(
    alloc: Global,
    me: u8,
    number: u32,
    value: &[u8],
    says: &mut Vec<Say>,
) -> Result<(), Mem>
    ensures said { let slot = command_slot me number in
        OnOk result (says.new.items ≡ says.old.items ++ record { slot = slot; value = value.now } ∷ []) }
    ensures err { OnErr result (says.new.items ≡ says.old.items) }
{
    let value = Bytes::from_slice(alloc, value)?;
    says.push(Say {
        slot: Slot::command(me, number),
        value,
    })?;
    Ok(())
}
