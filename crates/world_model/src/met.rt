//! What replicas met at the messages that were sent to them.

ghost use Rattle.std.specs.Prelude.{◌≡◌, ◌<◌, IfOk, IfSome};
ghost use Rattle.std.specs.List.{list_any};
ghost use Rattle.std.specs.Option.{option_copied};
ghost use Rattle.std.specs.Str.{bytes_eq};
ghost use Rattle.ritas_base.specs.declared.slot.Slot.{Slot};
ghost use Rattle.world_model.specs.World.{Setting};
ghost use Rattle.world_model.specs.Stands.{SeatsStand};
ghost use Rattle.world_model.specs.Met.{pair_of, met_with, turned_pair};
ghost use Rattle.world_model.specs.Hashed.{AreMet, IsMetAt, met_in};

use crate::seats::Seats;
use keyed_channel::Channel;
use ritas_base::{Mem, Slot, Tagger};
use std::alloc::Global;
use std::collections::BTreeMap;
use std::marker::Model;

/// The entries that two replicas have of each other, of one message: what the first gives, and what it expects.
#[derive(Clone, Copy)]
pub(crate) struct EntryPair {
    pub(crate) given: [u8; 32],
    pub(crate) expected: [u8; 32],
}

/// What a replica met at a message: the digest, and the entries that it and each replica have of each other.
#[derive(Drop)]
pub(crate) struct Met {
    digest: [u8; 32],
    pairs: Vec<EntryPair>,
}

impl Model for Met {
    ghost use Rattle.world_model.specs.Met.{MetEntries};

    ghost Value = { MetEntries };

    ghost view = { λ m. record { digest = m.digest; pairs = m.pairs.items } };
}

/// What each replica met at one slot, by its number, where it did; of numbers past the last place none did.
#[derive(Drop)]
pub(crate) struct MetAtSlot {
    places: Vec<Option<Met>>,
}

/// What each replica met at the message that it took from the origin, for each slot where it did.
#[derive(Drop)]
pub(crate) struct MetSends {
    table: BTreeMap<Slot, MetAtSlot>,
}

// Whether this is the entry that is given in one of these.
fn some_gives(pairs: &[EntryPair], entry: &[u8]) -> bool
    ensures { result ≡ list_any (λ pair. bytes_eq entry.now pair.given) pairs.now }
{
    pairs.iter().any(|pair| entry == pair.given.as_slice())
}

impl Met {
    ghost use Rattle.std.specs.Prelude.{◌≡◌, true, slice_get, Some};
    ghost use Rattle.std.specs.Option.{option_copied};
    ghost use Rattle.world_model.specs.Met.{entries_given};
    ghost use Rattle.world_model.specs.Audit.{is_among};

    /// The digest.
    pub(crate) fn digest(&self) -> &[u8; 32]
        ensures { result.now ≡ self.now.digest }
    {
        &self.digest
    }

    /// The entries that the replica and another have of each other.
    pub(crate) fn pair(&self, other: u8) -> Option<&EntryPair>
        ensures { option_copied result ≡ slice_get self.now.pairs other }
    {
        self.pairs.get(usize::from(other))
    }

    // Whether this is the entry that the replica gives another.
    fn gives_to(&self, other: u8, entry: &[u8]) -> bool
        ensures { result ≡ true → is_among (entries_given (Some self.now)) (Some entry.now) ≡ true }
    {
        match self.pair(other) {
            Some(pair) => entry == pair.given.as_slice(),
            None => false,
        }
    }

    /// Whether this is one of the entries that the replica gives. The one for the likely verifier is looked at first.
    pub(crate) fn gives(&self, likely: u8, entry: &[u8]) -> bool
        ensures { result ≡ is_among (entries_given (Some self.now)) (Some entry.now) }
    {
        if self.gives_to(likely, entry) {
            return true;
        }
        some_gives(self.pairs.as_slice(), entry)
    }
}

// The same entries, as the other of the two has them.
fn turned(pair: &EntryPair) -> EntryPair
    ensures { result ≡ turned_pair pair.now }
{
    EntryPair {
        given: pair.expected,
        expected: pair.given,
    }
}

// The entries that the replica with these keys and another have of each other.
fn tagged_pair(keys: &Channel, slot: &Slot, digest: &[u8; 32], other: u8) -> EntryPair
    requires { other < 31 }
    ensures { result ≡ pair_of keys.now slot.now digest.now other }
{
    let me = keys.keys().me();
    EntryPair {
        given: keys.entry(slot, me, other, digest),
        expected: keys.entry(slot, other, me, digest),
    }
}

// The same, where the other met this and has the key too: they were made then.
fn shared_pair(met: &Met, others: &Channel, keys: &Channel, digest: &[u8; 32]) -> Option<EntryPair>
    ensures { IfSome result (λ pair. (s : Slot) → met.now ≡ met_with others.now s met.now.digest
        → pair ≡ pair_of keys.now s digest.now others.now.me) }
{
    if met.digest() != digest || !keys.shares_key(others) {
        return None;
    }
    match met.pair(keys.me()) {
        Some(pair) => Some(turned(pair)),
        None => None,
    }
}

// The same, where what the other met at the slot, if it did, says it.
fn known_pair(
    seats: &Seats,
    met: Option<&Met>,
    keys: &Channel,
    digest: &[u8; 32],
    other: u8,
) -> Option<EntryPair>
    ensures { IfSome result (λ pair. (w : Setting) (s : Slot) → SeatsStand w seats.now → IsMetAt w other s (option_copied met.entry)
        → other < w.numbers.n → pair ≡ pair_of keys.now s digest.now other) }
{
    if !seats.correct.has(other) {
        return None;
    }
    match (seats.keys.get(usize::from(other)), met) {
        (Some(others), Some(met)) => shared_pair(met, others, keys, digest),
        _ => None,
    }
}

// The entries that the replica with these keys and another have of each other, each made once. The other met this at the slot,
// if it did.
fn pair_with(
    seats: &Seats,
    met: Option<&Met>,
    keys: &Channel,
    slot: Slot,
    digest: &[u8; 32],
    other: u8,
) -> EntryPair
    requires { other < 31 }
    ensures { (w : Setting) → SeatsStand w seats.now → IsMetAt w other slot (option_copied met.entry) → other < w.numbers.n
        → result ≡ pair_of keys.now slot digest.now other }
{
    match known_pair(seats, met, keys, digest, other) {
        Some(pair) => pair,
        None => tagged_pair(keys, &slot, digest, other),
    }
}

// What a replica met at a slot, if it did.
fn met_in(here: Option<&MetAtSlot>, replica: u8) -> Option<&Met>
    ensures { option_copied result ≡ met_in (option_copied here.entry) replica }
{
    match here {
        Some(here) => here.at(replica),
        None => None,
    }
}

/// What the replica with these keys meets at a message with this digest. The one error is want of memory.
pub(crate) fn meet(
    alloc: Global,
    seats: &Seats,
    sent: &MetSends,
    keys: &Channel,
    slot: Slot,
    digest: [u8; 32],
) -> Result<Met, Mem>
    ensures { IfOk result (λ met. (w : Setting) → SeatsStand w seats.now → AreMet w sent.now.table
        → keys.now.n ≡ w.numbers.n → met ≡ met_with keys.now slot digest) }
{
    let n = keys.keys().n();
    let here = sent.of_slot(slot);
    let mut pairs = Vec::with_capacity(alloc, usize::from(n))?;
    for other in 0..n {
        let met = met_in(here, other);
        pairs.push(pair_with(seats, met, keys, slot, &digest, other))?;
    }
    Ok(Met { digest, pairs })
}

impl MetAtSlot {
    ghost use Rattle.std.specs.Prelude.{◌≡◌, ℕ, ◌<◌, ◌==◌, length, Some, None, OnOk, if◌then◌else◌};
    ghost use Rattle.std.specs.Option.{option_copied, option_or};
    ghost use Rattle.world_model.specs.Hashed.{met_in};

    // None.
    fn new(alloc: Global) -> MetAtSlot
        ensures { (i : ℕ) → met_in (Some result) i ≡ None }
    {
        MetAtSlot {
            places: Vec::new(alloc),
        }
    }

    /// What a replica met, if it did.
    pub(crate) fn at(&self, replica: u8) -> Option<&Met>
        ensures { option_copied result ≡ met_in (Some self.now) replica }
    {
        match self.places.get(usize::from(replica)) {
            Some(place) => place.as_ref(),
            None => None,
        }
    }

    // A replica has a place from now on. What was met stays.
    fn reach(&mut self, replica: u8) -> Result<(), Mem>
        ensures place { OnOk result (replica < length self.new.places.items) }
        ensures same { OnOk result ((i : ℕ) → met_in (Some self.new) i ≡ met_in (Some self.old) i) }
    {
        for _ in self.places.len()..usize::from(replica) + 1 {
            self.places.push(None)?;
        }
        Ok(())
    }

    // What a replica met, where it met nothing yet.
    fn add(&mut self, replica: u8, met: Met) -> Result<(), Mem>
        ensures { OnOk result ((i : ℕ) → met_in (Some self.new) i
            ≡ (if replica == i then option_or (met_in (Some self.old) i) (Some met) else met_in (Some self.old) i)) }
    {
        self.reach(replica)?;
        let place = usize::from(replica);
        if self.places[place].is_none() {
            self.places[place] = Some(met);
        }
        Ok(())
    }
}

impl MetSends {
    ghost use Rattle.std.specs.Prelude.{◌≡◌, ℕ, Some, None, OnOk, if◌then◌else◌};
    ghost use Rattle.std.specs.Option.{option_copied, option_or};
    ghost use Rattle.std.specs.BTreeMap.{get};
    ghost use Rattle.ritas_base.specs.declared.slot.Slot.{Slot};
    ghost use Rattle.ritas_base.specs.SlotOrder.{slot_cmp};
    ghost use Rattle.world_model.specs.Hashed.{entries_met_at, is_same_at};

    /// None.
    pub(crate) fn new(alloc: Global) -> MetSends
        ensures { (s : Slot) (i : ℕ) → entries_met_at result.table s i ≡ None }
    {
        MetSends {
            table: BTreeMap::new(alloc),
        }
    }

    /// What was met at a slot, if anything was.
    pub(crate) fn of_slot(&self, slot: Slot) -> Option<&MetAtSlot>
        ensures { option_copied result ≡ get slot_cmp self.now.table slot }
    {
        self.table.get(&slot)
    }

    /// What a replica met at a slot, where it met nothing yet.
    pub(crate) fn add(
        &mut self,
        alloc: Global,
        slot: Slot,
        replica: u8,
        met: Met,
    ) -> Result<(), Mem>
        ensures { OnOk result ((s : Slot) (i : ℕ) → entries_met_at self.new.table s i
            ≡ (if is_same_at slot replica s i then option_or (entries_met_at self.old.table s i) (Some met) else entries_met_at self.old.table s i)) }
    {
        match self.table.get_mut(&slot) {
            Some(here) => here.add(replica, met)?,
            None => {
                let mut here = MetAtSlot::new(alloc);
                here.add(replica, met)?;
                self.table.insert(slot, here)?;
            }
        }
        Ok(())
    }
}
