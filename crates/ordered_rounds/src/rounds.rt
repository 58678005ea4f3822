//! What a round begins with, and what it waits for.

ghost use Rattle.std.specs.Prelude.{◌≡◌, ◌<◌, false, List, ◌∷◌, IfOk, OnOk, OnErr};
ghost use Rattle.ritas_base.specs.declared.id.Id.{Id};
ghost use Rattle.layer_api.specs.Service.{has_id};
ghost use Rattle.ordered_rounds.specs.Ledger.{LedgerStands};
ghost use Rattle.ordered_rounds.specs.Waiting.{LearnsWanted};
ghost use Rattle.ordered_rounds.specs.Boxes.{RoundBegan};

use crate::ledger::Ledger;
use crate::limits::MOST_REPLICAS;
use crate::place::Place;
use crate::round_box::RoundBox;
use frame_codec::write_ids;
use ritas_base::{Id, Mem, Say, Slot};
use std::alloc::Global;

/// Notes the command that a slot delivered. After `Err` what is known is as before.
pub(crate) fn note_command(ledger: &mut Ledger, slot: &Slot) -> Result<(), Mem>
    ensures ok { let id : Id = record { origin = slot.now.origin; num = slot.now.a } in
        OnOk result ((delivered log : List Id) → slot.now.origin < 31 → has_id delivered id ≡ false
        → LedgerStands ledger.old delivered log → LedgerStands ledger.new (id ∷ delivered) log) }
    ensures err { OnErr result ((delivered log : List Id) → LedgerStands ledger.old delivered log → LedgerStands ledger.new delivered log) }
{
    if usize::from(slot.origin) < MOST_REPLICAS {
        ledger.deliver(Id {
            origin: slot.origin,
            num: slot.a,
        })?;
    }
    Ok(())
}

/// Learns what the current round waits for, once it is decided: the identifiers that this wants.
pub(crate) fn learn<V: RoundBox>(
    alloc: Global,
    place: &Place,
    now: &Option<V>,
    waits: &mut Option<Vec<Id>>,
) -> Result<(), Mem>
    ensures { OnOk result (LearnsWanted V.rules V.shown place.now.numbers now.now waits.old waits.new) }
{
    if waits.is_some() {
        return Ok(());
    }
    if let Some(one) = now {
        if let Some(decided) = one.decision() {
            *waits = Some(V::wanted(alloc, &place.numbers, decided)?);
        }
    }
    Ok(())
}

/// Begins a round: its box is made, and is proposed identifiers of what is pending.
pub(crate) fn begin_round<V: RoundBox>(
    alloc: Global,
    place: &Place,
    ledger: &Ledger,
    a: u32,
    made: &mut Vec<Say>,
) -> Result<V, Mem>
    ensures { IfOk result (λ one. RoundBegan V.stands V.rules place.now ledger.now a one made.old.items made.new.items) }
{
    let ids = ledger.proposal(alloc, place.numbers.n())?;
    let list = write_ids(alloc, &ids)?;
    let mut one = V::new(alloc, &place.numbers, place.me, a)?;
    one.propose(alloc, list.as_slice(), made)?;
    Ok(one)
}
