//! Slots by their numbers, of which the lesser ones are taken out first.

ghost use Rattle.std.specs.Prelude.{◌≡◌, ◌%◌, ◌<◌, None, OnOk, OnErr};
ghost use Rattle.std.specs.FinMap.{empty, get, insert};
ghost use Rattle.instance_tree.specs.SlotMaps.{is_numbered_below};
ghost use Rattle.instance_tree.specs.Keys.{TakesSpotOut};

use crate::bucket::Bucket;
use crate::buckets::{find_at, insert_at, take_at};
use ritas_base::{Mem, Slot};
use std::alloc::Global;
use std::marker::Model;

/// Slots with their keys. Slots of numbers less than `width` apart don't stand in one another's way.
#[derive(Drop)]
pub(crate) struct Ring {
    // How many buckets there are at most: each has the slots whose numbers are alike, modulo this.
    width: u32,
    // No slot has a lesser number.
    low: u32,
    buckets: Vec<Bucket>,
}

impl Model for Ring {
    ghost use Rattle.std.specs.Prelude.{ℕ};
    ghost use Rattle.std.specs.Coded.{coded_ℕ};
    ghost use Rattle.std.specs.FinMap.{FinMap, code};
    ghost use Rattle.ritas_base.specs.SlotOrder.{slot_cmp};
    ghost use Rattle.instance_tree.specs.SlotMaps.{slot_code};
    ghost use Rattle.instance_tree.specs.Places.{joined_map};
    ghost use Rattle.instance_tree.specs.Keys.{IsRing};

    ghost Value = { FinMap slot_cmp ℕ };

    ghost coded = { code slot_code coded_ℕ };

    ghost view = { λ r. joined_map r.buckets.items };

    ghost invariant = { λ r. IsRing r.width r.low r.buckets.items };
}

impl Ring {
    /// No slot has a key. It takes no memory.
    pub(crate) fn new(alloc: Global, width: u32) -> Ring
        requires { 0 < width }
        ensures { result ≡ empty }
    {
        Ring {
            width,
            low: u32::MAX,
            buckets: Vec::new(alloc),
        }
    }

    /// The key of a slot.
    pub(crate) fn find(&self, slot: &Slot) -> Option<usize>
        ensures { result ≡ get self.now slot.now }
    {
        find_at(self.buckets.as_slice(), place_of(slot.a, self.width), slot)
    }

    /// Gives a slot a key, where it has none. The one error is want of memory, and all stays as it was then.
    pub(crate) fn insert(&mut self, slot: Slot, key: usize) -> Result<(), Mem>
        requires { get self.old slot ≡ None }
        ensures ok { OnOk result (self.new ≡ insert self.old slot key) }
        ensures err { OnErr result (self.new ≡ self.old) }
    {
        let place = place_of(slot.a, self.width);
        insert_at(&mut self.buckets, place, slot, key)?;
        self.low = self.low.min(slot.a);
        Ok(())
    }

    /// Takes out a slot whose number is below; `None` where there is no such slot. It goes on from the number at which the last
    /// call ended, and looks into each bucket once at most.
    pub(crate) fn take_below(&mut self, bound: u32) -> Option<(Slot, usize)>
        ensures { TakesSpotOut (is_numbered_below bound) self.old self.new result }
    {
        let width = self.width;
        for _step in 0..width {
            if self.low >= bound {
                return None;
            }
            if let Some(spot) = take_at(&mut self.buckets, place_of(self.low, width), bound) {
                return Some(spot);
            }
            self.low += 1;
        }
        self.low = bound;
        None
    }
}

// The place of the bucket for slots of this number.
fn place_of(number: u32, width: u32) -> usize
    requires { 0 < width }
    ensures { result ≡ number % width }
{
    (number % width) as usize
}
