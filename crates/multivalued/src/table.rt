//! What a replica knows of the proposals and VECTs of an instance.

ghost use Rattle.std.specs.Prelude.{◌≡◌, ℕ, ◌≤◌, ◌<◌, true, List, [], length, drop, count_by, position, Option, Some, None, is_some, IfOk};
ghost use Rattle.frame_codec.specs.Values.{mask_of};
ghost use Rattle.std.specs.Str.{bytes_eq};
ghost use Rattle.multivalued.specs.Entries.{is_valid_vect, value_there, HasEntryPlace, KeepsValues};
ghost use Rattle.std.specs.Option.{option_copied};
ghost use Rattle.multivalued.specs.Least.{ValueOf};
ghost use Rattle.ritas_base.specs.History.{replicas, is_value};
ghost use Rattle.ritas_base.specs.Members.{has_member};
ghost use Rattle.multivalued.specs.Tables.{Asked, IsInside, table_told_by, least_with, valid_value, one_clear, IsTable, IsLong, ProposedAt, ClaimedAt, HearsProposal, HearsVect};

use crate::entry::{Entry, either, only};
use crate::least::{any_clear, least_of};
use frame_codec::write_vect;
use ritas_base::{Bytes, Mem, SenderSet};
use std::alloc::Global;

/// Where the entry of this value stands.
fn place_of(entries: &[Entry], value: &[u8]) -> Option<usize>
    ensures { result ≡ position (λ e. bytes_eq e.value value.now) entries.now }
{
    entries
        .iter()
        .position(|entry| entry.value.as_slice() == value)
}

/// Where the entry of this value stands, which is made where there is none. Each entry's value stays.
fn place_for(alloc: Global, entries: &mut Vec<Entry>, value: &[u8]) -> Result<usize, Mem>
    ensures ok { IfOk result (λ i. HasEntryPlace value.now i entries.old.items entries.new.items) }
    ensures keeps { KeepsValues entries.old.items entries.new.items }
{
    if let Some(at) = place_of(entries, value) {
        return Ok(at);
    }
    let at = entries.len();
    let entry = Entry {
        value: Bytes::from_slice(alloc, value)?,
        inits: SenderSet::empty(),
        claims: Vec::new(alloc),
        backs: SenderSet::empty(),
    };
    entries.push(entry)?;
    Ok(at)
}

/// One more replica proposes the value of an entry. It answers whose valid VECTs have the value.
fn propose_at(support: u8, who: SenderSet, at: usize, entries: &mut Vec<Entry>) -> SenderSet
    requires { at < length entries.old.items }
    ensures { ProposedAt support who at entries.old.items entries.new.items result }
{
    let entry = &mut entries[at];
    entry.propose(support, who);
    entry.backs
}

/// One more VECT has the value of an entry. It answers whose valid VECTs have the value.
fn claim_at(
    support: u8,
    who: SenderSet,
    places: SenderSet,
    at: usize,
    entries: &mut Vec<Entry>,
) -> Result<SenderSet, Mem>
    requires { at < length entries.old.items }
    ensures ok { IfOk result (λ backs. ClaimedAt support who places at entries.old.items entries.new.items backs) }
    ensures keeps { KeepsValues entries.old.items entries.new.items }
{
    let entry = &mut entries[at];
    entry.claim(support, who, places)?;
    Ok(entry.backs)
}

/// The places and the value of a VECT that has them.
#[tactic(auto, unfolding(frame_codec::specs::Values::mask_of))]
fn split_vect(value: &[u8]) -> (SenderSet, &[u8])
    requires { 4 ≤ length value.now }
    ensures mask { result.0 ≡ mask_of value.now }
    ensures rest { result.1.now ≡ drop 4 value.now }
{
    let (front, rest) = value.split_at(4);
    let mask = u32::from_be_bytes([front[0], front[1], front[2], front[3]]);
    (SenderSet::from_mask(mask), rest)
}

/// The proposals and VECTs that were heard.
#[derive(Drop)]
pub(crate) struct Table {
    support: u8,
    inits: SenderSet,
    valids: SenderSet,
    valued: SenderSet,
    entries: Vec<Entry>,
}

impl Table {
    /// Nothing is heard yet.
    pub(crate) fn new(alloc: Global, support: u8) -> Table
        ensures { (n : ℕ) → IsTable n support (λ k. None) (λ k. None) result }
    {
        Table {
            support,
            inits: SenderSet::empty(),
            valids: SenderSet::empty(),
            valued: SenderSet::empty(),
            entries: Vec::new(alloc),
        }
    }

    /// Hears what a replica proposes. Each entry's value stays, for want of memory too.
    pub(crate) fn hear_init(&mut self, alloc: Global, k: u8, value: &[u8]) -> Result<(), Mem>
        ensures ok { IfOk result (λ u. HearsProposal k value.now self.old self.new) }
        ensures keeps { KeepsValues self.old.entries.items self.new.entries.items }
    {
        let at = place_for(alloc, &mut self.entries, value)?;
        let who = only(k);
        let backs = propose_at(self.support, who, at, &mut self.entries);
        self.inits = either(self.inits, who);
        self.valids = either(self.valids, backs);
        self.valued = either(self.valued, backs);
        Ok(())
    }

    /// Hears a replica's VECT. Each entry's value stays, for want of memory too.
    pub(crate) fn hear_vect(&mut self, alloc: Global, k: u8, value: &[u8]) -> Result<(), Mem>
        ensures ok { IfOk result (λ u. IsLong value.now → HearsVect k value.now self.old self.new) }
        ensures keeps { KeepsValues self.old.entries.items self.new.entries.items }
    {
        if value.len() < 4 {
            self.hear_none(k);
            Ok(())
        } else {
            self.hear_claim(alloc, k, value)
        }
    }

    // Hears a VECT of none.
    fn hear_none(&mut self, k: u8)
        ensures ok { HearsVect k [] self.old self.new }
        ensures keeps { KeepsValues self.old.entries.items self.new.entries.items }
    {
        self.valids = either(self.valids, only(k));
    }

    // Hears a VECT of a value.
    fn hear_claim(&mut self, alloc: Global, k: u8, value: &[u8]) -> Result<(), Mem>
        requires { 4 ≤ length value.now }
        ensures ok { IfOk result (λ u. HearsVect k value.now self.old self.new) }
        ensures keeps { KeepsValues self.old.entries.items self.new.entries.items }
    {
        let (places, inner) = split_vect(value);
        let at = place_for(alloc, &mut self.entries, inner)?;
        let backs = claim_at(self.support, only(k), places, at, &mut self.entries)?;
        self.valids = either(self.valids, backs);
        self.valued = either(self.valued, backs);
        Ok(())
    }

    /// Where the least value stands that enough replicas proposed.
    pub(crate) fn common(&self) -> Option<usize>
        ensures { Asked self.now (λ n support init vect. ValueOf self.now.entries.items result (least_with n support init)) }
    {
        least_of(self.support, false, &self.entries)
    }

    /// Where the least value stands that enough valid VECTs have.
    pub(crate) fn supported(&self) -> Option<usize>
        ensures { Asked self.now (λ n support init vect. ValueOf self.now.entries.items result (least_with n support (λ k. valid_value n support init (vect k)))) }
    {
        least_of(self.support, true, &self.entries)
    }

    /// Whether enough valid VECTs have one value, and no valid VECT has another.
    pub(crate) fn is_clear(&self) -> bool
        ensures { Asked self.now (λ n support init vect. result ≡ one_clear n support (λ k. valid_value n support init (vect k))) }
    {
        any_clear(self.support, self.valued, &self.entries)
    }

    /// The value of the entry there.
    pub(crate) fn value(&self, at: usize) -> Option<&[u8]>
        ensures { option_copied result ≡ value_there self.now.entries.items at }
    {
        self.entries.get(at).map(|entry| entry.value.as_slice())
    }

    /// How many proposals are there.
    pub(crate) fn proposals(&self) -> u8
        ensures { Asked self.now (λ n support init vect. result ≡ count_by (λ k. is_some (init k)) (replicas n)) }
    {
        self.inits.len()
    }

    /// How many valid VECTs are there.
    pub(crate) fn valids(&self) -> u8
        ensures { Asked self.now (λ n support init vect. result ≡ count_by (λ k. is_valid_vect n support init true (vect k)) (replicas n)) }
    {
        self.valids.len()
    }

    /// The bytes of the VECT that tells what the replicas proposed. The one error is want of memory.
    pub(crate) fn told(&self, alloc: Global) -> Result<Bytes, Mem>
        ensures { IfOk result (λ bytes. Asked self.now (λ n support init vect. bytes ≡ table_told_by n init (least_with n support init))) }
    {
        match least_of(self.support, false, &self.entries) {
            None => Ok(Bytes::from_vec(Vec::new(alloc))),
            Some(at) => {
                let bytes = told_entry(alloc, &self.entries[at])?;
                Ok(bytes)
            }
        }
    }
}

/// The bytes of the VECT of an entry. The one error is want of memory.
fn told_entry(alloc: Global, entry: &Entry) -> Result<Bytes, Mem>
    ensures { IfOk result (λ bytes. (n : ℕ) (init : ℕ → Option (List ℕ)) → n ≤ 31 → ((k : ℕ) → has_member entry.now.inits k ≡ is_value entry.now.value (init k))
        → IsInside n init → bytes ≡ table_told_by n init (Some entry.now.value)) }
{
    let places = SenderSet::from_mask(entry.inits.mask());
    let bytes = write_vect(alloc, places, entry.value.as_slice())?;
    Ok(bytes)
}
