//! When the VECT and the bit are said.

ghost use Rattle.std.specs.Prelude.{◌≡◌, ◌&&◌, not, nat_le, IfOk};
ghost use Rattle.multivalued.specs.Telling.{TellsVect, ProposesBit};

use crate::table::Table;
use layer_api::BinaryBox;
use ritas_base::{Mem, Say, Slot};
use std::alloc::Global;

/// Whether something is due: what goes before it was, enough replicas are there, and it wasn't said.
pub(crate) fn is_due(ready: bool, said: bool, wait: u8, count: u8) -> bool
    ensures { result ≡ ((ready && nat_le wait count) && not said) }
{
    (ready && wait <= count) && !said
}

/// Says the VECT where it is due.
pub(crate) fn tell(
    alloc: Global,
    due: bool,
    slot: Slot,
    table: &Table,
    made: &mut Vec<Say>,
) -> Result<(), Mem>
    ensures { IfOk result (λ u. TellsVect due slot table.now made.old.items made.new.items) }
{
    if due {
        let value = table.told(alloc)?;
        made.push(Say { slot, value })?;
    }
    Ok(())
}

/// Proposes the bit where it is due.
pub(crate) fn ask<B: BinaryBox>(
    alloc: Global,
    due: bool,
    table: &Table,
    inner: &mut B,
    made: &mut Vec<Say>,
) -> Result<(), Mem>
    ensures { IfOk result (λ u. ProposesBit B.stands B.rules due table.now inner.old inner.new made.old.items made.new.items) }
{
    if due {
        inner.propose(alloc, table.is_clear(), made)?;
    }
    Ok(())
}
