//! The first HASHES of each replica, at the origin of a broadcast.

ghost use Rattle.std.specs.Prelude.{◌≡◌, ℕ, ◌≤◌, [], true, OnErr, OnOk, None, Some, is_some, slice_set, slice_index_or, replicate};
ghost use Rattle.ritas_base.specs.Places.{is_awaited};

use ritas_base::{Bytes, Mem};
use std::alloc::Global;
use std::marker::Model;

/// The first HASHES of each of n replicas. Contracts see a list with a place for each replica. The places are made with the first
/// HASHES, since no replica but the origin gets any.
#[derive(Drop)]
pub(crate) struct Gathered {
    n: u8,
    places: Vec<Option<Bytes>>,
}

impl Model for Gathered {
    ghost use Rattle.std.specs.Prelude.{ℕ, List, Option, ◌≤◌};
    ghost use Rattle.echo_bcast.specs.Gathering.{gathered, HasPlaces};

    ghost Value = { List (Option (List ℕ)) };

    ghost view = { λ g. gathered g.n g.places.items };

    ghost invariant = { λ g. (g.n ≤ 31) × HasPlaces g.n g.places.items };
}

impl Gathered {
    /// None yet.
    pub(crate) fn new(alloc: Global, n: u8) -> Gathered
        requires { n ≤ 31 }
        ensures { result ≡ replicate n None }
    {
        Gathered {
            n,
            places: Vec::new(alloc),
        }
    }

    /// Whether k is one of the replicas and gave none yet.
    pub(crate) fn awaits(&self, k: u8) -> bool
        ensures { result ≡ is_awaited self.now k }
    {
        match self.places.get(usize::from(k)) {
            Some(place) => place.is_none(),
            None => self.places.is_empty() && k < self.n,
        }
    }

    /// Adds the first HASHES of a replica. The first of all takes memory for each place. For want of it nothing changes.
    pub(crate) fn add(&mut self, alloc: Global, k: u8, value: &Bytes) -> Result<(), Mem>
        requires { is_awaited self.old k ≡ true }
        ensures ok { OnOk result (self.new ≡ slice_set self.old k (Some value.now)) }
        ensures err { OnErr result (self.new ≡ self.old) }
    {
        let value = value.copy(alloc)?;
        make_places(alloc, self.n, &mut self.places)?;
        self.places[usize::from(k)] = Some(value);
        Ok(())
    }

    /// The places, where somebody's HASHES are there.
    pub(crate) fn places(&self) -> &[Option<Bytes>]
        ensures { (k : ℕ) → is_some (slice_index_or self.now k None) ≡ true
            → result.now ≡ self.now }
    {
        &self.places
    }
}

/// Makes a place for each of n replicas, where there is none yet. For want of memory nothing changes.
fn make_places(alloc: Global, n: u8, places: &mut Vec<Option<Bytes>>) -> Result<(), Mem>
    ensures made { OnOk result (places.old.items ≡ [] → places.new.items ≡ replicate n None) }
    ensures kept { OnOk result ((places.old.items ≡ [] → ⊥) → places.new.items ≡ places.old.items) }
    ensures err { OnErr result (places.new.items ≡ places.old.items) }
{
    if !places.is_empty() {
        return Ok(());
    }
    let mut made = Vec::with_capacity(alloc, usize::from(n))?;
    for _ in 0..n {
        made.push(None)?;
    }
    *places = made;
    Ok(())
}
