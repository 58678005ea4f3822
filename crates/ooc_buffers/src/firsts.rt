//! Of each group something like its first item, so that a test needs no search among the items.

ghost use Rattle.std.specs.Prelude.{◌≡◌, ℕ, ◌≤◌, Bool, true, false, Some, OnOk, IfOk};
ghost use Rattle.std.specs.List.{list_any};
ghost use Rattle.std.specs.BTreeMap.{get, values};
ghost use Rattle.ritas_base.specs.declared.item.Item.{Item};
ghost use Rattle.ooc_buffers.specs.Closures.{Computes};
ghost use Rattle.ooc_buffers.specs.Spots.{group_cmp, AreAt};
ghost use Rattle.ooc_buffers.specs.Firsts.{likeness, HasUpTo, AreFirsts, IsNoted};

use crate::entry::Entry;
use crate::group::{Group, Spot};
use ritas_base::{Bytes, Item, Mem};
use std::alloc::Global;
use std::collections::BTreeMap;
use std::ops::Bound;

// The item with an empty value, which takes no memory.
pub(crate) fn likeness(alloc: Global, item: &Item) -> Item
    ensures { result ≡ likeness item.now }
{
    Item {
        from: item.from,
        kind: item.kind,
        slot: item.slot,
        value: Bytes::from_vec(Vec::new(alloc)),
    }
}

// Whether a group has a first of no later round.
fn has_up_to(firsts: &BTreeMap<Group, Item>, group: &Group, bround: u8) -> bool
    ensures yes { result ≡ true → HasUpTo firsts.now group.now bround }
    ensures no { result ≡ false → (first : Item)
        → get group_cmp firsts.now group.now ≡ Some first → bround ≤ first.slot.bround }
{
    match firsts.get(group) {
        Some(first) => first.slot.bround <= bround,
        None => false,
    }
}

// Makes this one a group's first, where it has none of a round that is no later.
fn note(firsts: &mut BTreeMap<Group, Item>, group: Group, like: Item) -> Result<(), Mem>
    ensures { OnOk result (IsNoted firsts.old firsts.new group like) }
{
    if has_up_to(firsts, &group, like.slot.bround) {
        return Ok(());
    }
    firsts.insert(group, like)?;
    Ok(())
}

// Notes one of a group, where the firsts are fresh. Answers whether they still are: without memory they aren't.
pub(crate) fn note_if(
    fresh: bool,
    firsts: &mut BTreeMap<Group, Item>,
    group: Group,
    like: Item,
) -> bool
    ensures { result ≡ true → (fresh ≡ true) × IsNoted firsts.old firsts.new group like }
{
    fresh && note(firsts, group, like).is_ok()
}

// The firsts of these items.
pub(crate) fn firsts_of(
    alloc: Global,
    items: &BTreeMap<Spot, Entry>,
) -> Result<BTreeMap<Group, Item>, Mem>
    ensures { IfOk result (λ firsts. (next : ℕ)
        → AreAt next items.now.entries → AreFirsts firsts items.now.entries) }
{
    let mut firsts = BTreeMap::new(alloc);
    let mut from = Bound::Unbounded;
    while let Some((spot, entry)) = items.range((from, Bound::Unbounded)).next() {
        note(&mut firsts, spot.group, likeness(alloc, &entry.item))?;
        from = Bound::Excluded(spot.behind());
    }
    Ok(firsts)
}

// Whether one of the firsts passes the test.
pub(crate) fn any_passes<F: Fn(&Item) -> bool>(firsts: &BTreeMap<Group, Item>, test: &F) -> bool
    requires { F.IsAlwaysCallable test.now }
    ensures { (t : Item → Bool) → Computes F.Fn test.now t
        → result ≡ list_any t (values firsts.now) }
{
    for first in firsts.values() {
        if test(first) {
            return true;
        }
    }
    false
}
