//! A few slots with their keys, in a list.

ghost use Rattle.std.specs.Prelude.{◌≡◌, ℕ, None, OnOk, OnErr, position};
ghost use Rattle.ritas_base.specs.declared.slot.Slot.{Slot};
ghost use Rattle.ritas_base.specs.SlotOrder.{slot_cmp, is_slot};
ghost use Rattle.std.specs.FinMap.{empty, get, insert, remove, find};
ghost use Rattle.instance_tree.specs.SlotMaps.{is_numbered_below};
ghost use Rattle.instance_tree.specs.Keys.{TakesSpotOut, FindsOne};

use ritas_base::{Mem, Slot};
use std::alloc::Global;
use std::marker::Model;

/// Slots with their keys. Each call but `insert` may walk all of them.
#[derive(Drop)]
pub(crate) struct Bucket {
    spots: Vec<(Slot, usize)>,
}

impl Model for Bucket {
    ghost use Rattle.std.specs.Prelude.{ℕ};
    ghost use Rattle.std.specs.Coded.{coded_ℕ};
    ghost use Rattle.std.specs.FinMap.{FinMap, code, from_entries};
    ghost use Rattle.ritas_base.specs.SlotOrder.{slot_cmp};
    ghost use Rattle.instance_tree.specs.SlotMaps.{slot_code};
    ghost use Rattle.instance_tree.specs.Keys.{AreApart};

    ghost Value = { FinMap slot_cmp ℕ };

    ghost coded = { code slot_code coded_ℕ };

    ghost view = { λ k. from_entries k.spots.items };

    ghost invariant = { λ k. AreApart k.spots.items };
}

impl Bucket {
    /// No slot has a key. It takes no memory.
    pub(crate) fn new(alloc: Global) -> Bucket
        ensures { result ≡ empty }
    {
        Bucket {
            spots: Vec::new(alloc),
        }
    }

    /// The key of a slot.
    pub(crate) fn find(&self, slot: &Slot) -> Option<usize>
        ensures { result ≡ get self.now slot.now }
    {
        find_in(self.spots.as_slice(), slot)
    }

    /// Gives a slot a key, where it has none. The one error is want of memory, and all stays as it was then.
    pub(crate) fn insert(&mut self, slot: Slot, key: usize) -> Result<(), Mem>
        requires { get self.old slot ≡ None }
        ensures ok { OnOk result (self.new ≡ insert self.old slot key) }
        ensures err { OnErr result (self.new ≡ self.old) }
    {
        self.spots.push((slot, key))?;
        Ok(())
    }

    /// A slot has no key any more.
    pub(crate) fn remove(&mut self, slot: &Slot)
        ensures { self.new ≡ remove self.old slot.now }
    {
        if let Some(at) = place_of(self.spots.as_slice(), slot) {
            self.spots.remove(at);
        }
    }

    /// Takes out a slot whose number is below, the last that was given a key; `None` where there is no such slot.
    pub(crate) fn take_below(&mut self, bound: u32) -> Option<(Slot, usize)>
        ensures { TakesSpotOut (is_numbered_below bound) self.old self.new result }
    {
        let at = last_below(self.spots.as_slice(), bound)?;
        Some(self.spots.remove(at))
    }
}

// Whether two slots are one.
fn is_same(slot: &Slot, other: &Slot) -> bool
    ensures { result ≡ is_slot slot.now other.now }
{
    slot == other
}

// The key that stands beside a slot.
fn find_in(spots: &[(Slot, usize)], slot: &Slot) -> Option<usize>
    ensures { result ≡ find slot_cmp slot.now spots.now }
{
    for spot in spots {
        if is_same(slot, &spot.0) {
            return Some(spot.1);
        }
    }
    None
}

// The place of a slot.
fn place_of(spots: &[(Slot, usize)], slot: &Slot) -> Option<usize>
    ensures { result ≡ position (λ (e : Slot × ℕ). is_slot slot.now e.0) spots.now }
{
    spots.iter().position(|spot| is_same(slot, &spot.0))
}

// The last place of a slot whose number is below.
fn last_below(spots: &[(Slot, usize)], bound: u32) -> Option<usize>
    ensures { FindsOne (λ (e : Slot × ℕ). is_numbered_below bound e.0) spots.now result }
{
    spots.iter().rposition(|spot| spot.0.a < bound)
}
