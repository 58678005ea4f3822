//! The audit of a world as its events happen: what broke first, and what is needed to find it.

ghost use Rattle.std.specs.Prelude.{◌≡◌, ℕ, ◌<◌, true, List, Some};
ghost use Rattle.ritas_base.specs.Messages.{kind_eq};
ghost use Rattle.layer_api.specs.Entries.{sent};
ghost use Rattle.keyed_channel.specs.Keyed.{tags_of};
ghost use Rattle.ritas_core.specs.Machine.{CoreState};
ghost use Rattle.world_model.specs.World.{Setting};
ghost use Rattle.world_model.specs.Audit.{calls_at, place_in, is_made_up};
ghost use Rattle.world_model.specs.Met.{met_with};
ghost use Rattle.world_model.specs.Stands.{SeatsStand};
ghost use Rattle.world_model.specs.Watch.{SlotStands};

use crate::audit::Audit;
use crate::hashed::Hashed;
use crate::met::{Met, MetAtSlot, MetSends, meet};
use crate::rows::is_unknown;
use crate::seats::Seats;
use keyed_channel::Channel;
use ritas_base::{Item, Kind, Mem};
use std::alloc::Global;

/// What the audit found so far and, while the premises hold, what it needs to go on.
#[derive(Drop)]
pub(crate) struct Watch {
    verdict: Audit,
    sent: MetSends,
    hashed: Hashed,
}

// Whether a column that a replica takes, which met this, has a valid entry of a correct echoer which hadn't given it, where the
// replicas met these at its slot.
fn is_made_up(seats: &Seats, here: &MetAtSlot, met: &Met, at: u8, item: &Item, echoer: u8) -> bool
    ensures { (w : Setting) (states : ℕ → CoreState) (m : List ℕ) → SeatsStand w seats.now → SlotStands w states item.now.slot (Some here.now)
        → at < w.numbers.n → echoer < w.numbers.n
        → sent (place_in w at item.now.slot) (calls_at w states at item.now.slot) ≡ Some m
        → met.now ≡ met_with (w.keys at) item.now.slot ((tags_of (w.keys at)).digest m)
        → kind_eq item.now.kind Kind.Column ≡ true → result ≡ is_made_up w states at item.now echoer }
{
    if !seats.correct.has(echoer) {
        return false;
    }
    is_unknown(met, at, here.at(echoer), echoer, item.value.as_slice())
}

impl Watch {
    ghost use Rattle.std.specs.Prelude.{◌≡◌, ℕ, ◌<◌, true, false, List, [], Option, Some, None, OnOk, OnErr, IfOk, is_some};
    ghost use Rattle.std.specs.Option.{option_copied};
    ghost use Rattle.ritas_base.specs.declared.slot.Slot.{Slot};
    ghost use Rattle.ritas_base.specs.Messages.{kind_eq};
    ghost use Rattle.ritas_core.specs.Machine.{CoreState};
    ghost use Rattle.world_model.specs.World.{Setting, CallAt, after_call};
    ghost use Rattle.world_model.specs.Audit.{is_forged_item};
    ghost use Rattle.world_model.specs.Hashed.{entries_met_at, HashedStand};
    ghost use Rattle.world_model.specs.Stands.{SeatsStand};
    ghost use Rattle.world_model.specs.Watch.{TablesStand, MeetsItem, IsTold, WatchStands, verdict_after};

    /// Before any event.
    pub(crate) fn new(alloc: Global) -> Watch
        ensures verdict { result.verdict ≡ Audit.Holds }
        ensures sent { (s : Slot) (i : ℕ) → entries_met_at result.sent.table s i ≡ None }
        ensures hashed { HashedStand result.hashed [] }
    {
        Watch {
            verdict: Audit::Holds,
            sent: MetSends::new(alloc),
            hashed: Hashed::new(alloc),
        }
    }

    /// What broke first, if anything did.
    pub(crate) fn verdict(&self) -> Audit
        ensures { result ≡ self.now.verdict }
    {
        self.verdict
    }

    // Whether a column that a replica takes forges.
    fn forges(&self, seats: &Seats, at: u8, item: &Item) -> bool
        ensures { (w : Setting) (states : ℕ → CoreState) → SeatsStand w seats.now → TablesStand w states self.now
            → w.is_correct at ≡ true → at < w.numbers.n → kind_eq item.now.kind Kind.Column ≡ true
            → result ≡ is_forged_item w states at (Some item.now) }
    {
        let Some(here) = self.sent.of_slot(item.slot) else {
            return false;
        };
        let Some(met) = here.at(at) else {
            return false;
        };
        for echoer in 0..seats.params.n() {
            if is_made_up(seats, here, met, at, item, echoer) {
                return true;
            }
        }
        false
    }

    // A replica takes a SEND. Whether two things hashed, of all so far, have one image.
    fn meets(
        &mut self,
        alloc: Global,
        seats: &Seats,
        keys: &Channel,
        at: u8,
        item: &Item,
    ) -> Result<bool, Mem>
        ensures met { IfOk result (λ clash. (w : Setting) (states : ℕ → CoreState) → SeatsStand w seats.now
            → TablesStand w states self.old → keys.now.n ≡ w.numbers.n → item.now.kind ≡ Kind.Send
            → MeetsItem self.old self.new keys.now at item.now clash) }
        ensures same { self.new.verdict ≡ self.old.verdict }
    {
        let Some(digest) = self.hashed.digest_of(alloc, keys, item.value.as_slice())? else {
            return Ok(true);
        };
        let met = meet(alloc, seats, &self.sent, keys, item.slot, digest)?;
        if self.hashed.add_entries(keys.keys(), item.slot, &met)? {
            return Ok(true);
        }
        if item.from == item.slot.origin {
            self.sent.add(alloc, item.slot, at, met)?;
        }
        Ok(false)
    }

    // A replica takes an INIT or a VALUE. Whether another value has its digest.
    fn hashes(&mut self, alloc: Global, keys: &Channel, item: &Item) -> Result<bool, Mem>
        ensures met { IfOk result (λ clash. (at : ℕ) → kind_eq item.now.kind Kind.Send ≡ false
            → MeetsItem self.old self.new keys.now at item.now clash) }
        ensures same { self.new.verdict ≡ self.old.verdict }
    {
        let digest = self.hashed.digest_of(alloc, keys, item.value.as_slice())?;
        Ok(digest.is_none())
    }

    // A replica takes an item of a kind that its slot's broadcast hashes. Whether two things hashed, of all so far, have one
    // image.
    fn takes(&mut self, alloc: Global, seats: &Seats, at: u8, item: &Item) -> Result<bool, Mem>
        ensures met { IfOk result (λ clash. (w : Setting) (states : ℕ → CoreState) → SeatsStand w seats.now
            → TablesStand w states self.old → at < w.numbers.n → MeetsItem self.old self.new (w.keys at) at item.now clash) }
        ensures same { self.new.verdict ≡ self.old.verdict }
    {
        let Some(keys) = seats.keys.get(usize::from(at)) else {
            return Ok(false);
        };
        match item.kind {
            Kind::Send => self.meets(alloc, seats, keys, at, item),
            _ => self.hashes(alloc, keys, item),
        }
    }

    // The verdict after a replica takes an item that the audit looks at, where nothing broke before.
    fn judge_item(
        &mut self,
        alloc: Global,
        seats: &Seats,
        at: u8,
        item: &Item,
        number: u64,
    ) -> Result<Audit, Mem>
        ensures finds { IfOk result (λ found. (w : Setting) (states : ℕ → CoreState) (c : Option CallAt) → SeatsStand w seats.now
            → ((i : ℕ) → w.is_correct i ≡ true → i < w.numbers.n) → IsTold w states c at false (Some item.now)
            → WatchStands w states Audit.Holds self.old
            → WatchStands w (after_call w states c) (verdict_after w states c Audit.Holds number) (record self.new { verdict = found })) }
        ensures same { self.new.verdict ≡ self.old.verdict }
    {
        match item.kind {
            Kind::Column => {
                if self.forges(seats, at, item) {
                    return Ok(Audit::Forged(number));
                }
                Ok(self.verdict)
            }
            _ => {
                if self.takes(alloc, seats, at, item)? {
                    return Ok(Audit::Collision(number));
                }
                Ok(self.verdict)
            }
        }
    }

    /// The verdict after a call on a replica: whether its frame forged, and the item that it made the replica take, if it did
    /// and the audit looks at it. The verdict so far stays until `settle`. The one error is want of memory, where it took one.
    pub(crate) fn judge(
        &mut self,
        alloc: Global,
        seats: &Seats,
        at: u8,
        forged: bool,
        taken: Option<&Item>,
        number: u64,
    ) -> Result<Audit, Mem>
        ensures finds { IfOk result (λ found. (w : Setting) (states : ℕ → CoreState) (c : Option CallAt) (verdict : Audit)
            → SeatsStand w seats.now → ((i : ℕ) → w.is_correct i ≡ true → i < w.numbers.n)
            → IsTold w states c at forged (option_copied taken.entry) → WatchStands w states verdict self.old
            → WatchStands w (after_call w states c) (verdict_after w states c verdict number) (record self.new { verdict = found })) }
        ensures same { self.new.verdict ≡ self.old.verdict }
        ensures only { OnErr result (is_some (option_copied taken.entry) ≡ true) }
    {
        match self.verdict {
            Audit::Holds => {}
            verdict => return Ok(verdict),
        }
        if forged {
            return Ok(Audit::Forged(number));
        }
        match taken {
            Some(item) => self.judge_item(alloc, seats, at, item, number),
            None => Ok(self.verdict),
        }
    }

    /// This is the verdict from now on.
    pub(crate) fn settle(&mut self, verdict: Audit)
        ensures { self.new ≡ record self.old { verdict = verdict } }
    {
        self.verdict = verdict;
    }
}
