//! What a call does: a proposal of one's own, or what a slot delivered.

ghost use Rattle.std.specs.Prelude.{◌≡◌, IfOk};
ghost use Rattle.vector_consensus.specs.Going.{KeepsAttempts};
ghost use Rattle.vector_consensus.specs.Holding.{StartsAttempts, FollowsProposal, FollowsTry, HearsIn, NearTries};

use crate::going::{Progress, go_on};
use crate::part::Part;
use crate::proposals::Proposals;
use layer_api::MultiBox;
use ritas_base::{Bytes, Coin, Mem, Say, Slot};
use std::alloc::Global;

/// Proposes a value, says what follows, and answers how far the attempts have come.
pub(crate) fn start<M: MultiBox>(
    alloc: Global,
    part: &Part,
    value: &[u8],
    table: &Proposals,
    tries: &mut Vec<M>,
    made: &mut Vec<Say>,
) -> Result<Progress, Mem>
    ensures ok { IfOk result (λ now. StartsAttempts M.stands M.rules part.now table.now tries.old.items tries.new.items made.old.items made.new.items now value.now) }
    ensures keeps { KeepsAttempts tries.old.items tries.new.items }
{
    let value = Bytes::from_slice(alloc, value)?;
    made.push(Say {
        slot: part.slot(),
        value,
    })?;
    go_on(alloc, part, true, table, tries, made)
}

/// Hears what replica k proposes, says what follows, and answers how far the attempts have come.
pub(crate) fn hear_proposal<M: MultiBox>(
    alloc: Global,
    part: &Part,
    own: bool,
    k: u8,
    value: &[u8],
    table: &mut Proposals,
    tries: &mut Vec<M>,
    made: &mut Vec<Say>,
) -> Result<Progress, Mem>
    ensures ok { IfOk result (λ now. FollowsProposal M.stands M.rules part.now own table.old table.new tries.old.items tries.new.items made.old.items made.new.items now k value.now) }
    ensures keeps { KeepsAttempts tries.old.items tries.new.items }
{
    table.hear(alloc, k, value)?;
    go_on(alloc, part, own, table, tries, made)
}

/// The attempt that a slot is of hears what it delivered, where that attempt began.
fn hear_in<M: MultiBox, C: Coin>(
    alloc: Global,
    coin: &C,
    slot: &Slot,
    value: &[u8],
    tries: &mut Vec<M>,
    made: &mut Vec<Say>,
) -> Result<(), Mem>
    ensures { HearsIn M.stands M.rules M.live M.shown (C.bits coin.now) tries.old.items tries.new.items slot.now value.now made.old.items made.new.items result }
{
    match tries.get_mut(usize::from(slot.attempt)) {
        Some(one) => one.heard(alloc, coin, slot, value, made),
        None => Ok(()),
    }
}

/// Hears what a slot of an attempt delivered, says what follows, and answers how far the attempts have come.
pub(crate) fn hear_try<M: MultiBox, C: Coin>(
    alloc: Global,
    coin: &C,
    part: &Part,
    own: bool,
    slot: &Slot,
    value: &[u8],
    table: &Proposals,
    tries: &mut Vec<M>,
    made: &mut Vec<Say>,
) -> Result<Progress, Mem>
    ensures ok { IfOk result (λ now. FollowsTry M.stands M.rules part.now (C.bits coin.now) own table.now tries.old.items tries.new.items made.old.items made.new.items now slot.now value.now) }
    ensures near { NearTries M.stands M.rules part.now M.shown (C.bits coin.now) own table.now tries.old.items tries.new.items slot.now value.now }
{
    hear_in(alloc, coin, slot, value, tries, made)?;
    go_on(alloc, part, own, table, tries, made)
}
