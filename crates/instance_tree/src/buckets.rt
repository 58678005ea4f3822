//! Buckets in a row: each stands at a place, and one that isn't there yet is empty.

ghost use Rattle.std.specs.Prelude.{◌≡◌, ◌<◌, None, OnOk, OnErr, length};
ghost use Rattle.std.specs.FinMap.{get, insert, remove};
ghost use Rattle.instance_tree.specs.SlotMaps.{is_numbered_below};
ghost use Rattle.instance_tree.specs.Keys.{TakesSpotOut};
ghost use Rattle.instance_tree.specs.Places.{map_at, AreSame, ChangesAt, AreOthersSame};

use crate::bucket::Bucket;
use ritas_base::{Mem, Slot};

/// The key of a slot in the bucket at a place.
pub(crate) fn find_at(buckets: &[Bucket], place: usize, slot: &Slot) -> Option<usize>
    ensures { result ≡ get (map_at buckets.now place) slot.now }
{
    let bucket = buckets.get(place)?;
    bucket.find(slot)
}

/// Gives a slot a key in the bucket at a place, where it has none there. The one error is want of memory, and no slot has
/// another key then.
pub(crate) fn insert_at(
    buckets: &mut Vec<Bucket>,
    place: usize,
    slot: Slot,
    key: usize,
) -> Result<(), Mem>
    requires { get (map_at buckets.old.items place) slot ≡ None }
    ensures ok { OnOk result (ChangesAt buckets.old.items buckets.new.items place (insert (map_at buckets.old.items place) slot key)) }
    ensures err { OnErr result (AreSame buckets.old.items buckets.new.items) }
{
    reach(buckets, place)?;
    buckets[place].insert(slot, key)
}

/// A slot has no key any more in the bucket at a place.
pub(crate) fn remove_at(buckets: &mut Vec<Bucket>, place: usize, slot: &Slot)
    ensures { ChangesAt buckets.old.items buckets.new.items place (remove (map_at buckets.old.items place) slot.now) }
{
    if place < buckets.len() {
        buckets[place].remove(slot);
    }
}

/// Takes out of the bucket at a place a slot whose number is below; `None` where there is no such slot.
pub(crate) fn take_at(buckets: &mut Vec<Bucket>, place: usize, bound: u32) -> Option<(Slot, usize)>
    ensures takes { TakesSpotOut (is_numbered_below bound) (map_at buckets.old.items place) (map_at buckets.new.items place) result }
    ensures others { AreOthersSame buckets.old.items buckets.new.items place }
{
    if place >= buckets.len() {
        return None;
    }
    buckets[place].take_below(bound)
}

// There is a bucket at the place.
fn reach(buckets: &mut Vec<Bucket>, place: usize) -> Result<(), Mem>
    ensures same { AreSame buckets.old.items buckets.new.items }
    ensures ok { OnOk result (place < length buckets.new.items) }
{
    let alloc = *buckets.allocator();
    while buckets.len() <= place {
        buckets.push(Bucket::new(alloc))?;
    }
    Ok(())
}
