//! The search for items that pass a test, by groups and rounds.

ghost use Rattle.std.specs.Prelude.{◌≡◌, ℕ, ◌+◌, ◌<◌, ◌≤◌, ◌^◌, Bool, ◌++◌, length, sum_by, IfSome, IfNone, IfOk};
ghost use Rattle.std.specs.VecDeque.{deque_len, deque_capacity};
ghost use Rattle.ooc_buffers.specs.Lists.{HeldItem};
ghost use Rattle.ooc_buffers.specs.Tests.{SpotsByGroups};
ghost use Rattle.ooc_buffers.specs.Keys.{CountsKeys};
ghost use Rattle.ooc_buffers.specs.Spots.{held_in, pass, fail, rest_from, AreAt, AreApart, IsNext, Steps, Leaves, Takes};

use crate::entry::Entry;
use crate::group::Spot;
use crate::key::{Key, count_out};
use indexmap::IndexMap;
use ritas_base::{Item, Mem};
use std::collections::{BTreeMap, VecDeque};
use std::ops::Bound;

// The first spot of an item that passes the test.
pub(crate) fn next_open<F: Fn(&Item) -> bool>(
    items: &BTreeMap<Spot, Entry>,
    from: Bound<Spot>,
    test: &F,
) -> Option<Spot>
    requires { F.IsAlwaysCallable test.now }
    ensures found { SpotsByGroups F.Fn test.now items.now.entries (λ t.
        IsNext t from items.now.entries result) }
    ensures steps { IfSome result (Steps from items.now.entries) }
{
    let mut from = from;
    while let Some((spot, entry)) = items.range((from, Bound::Unbounded)).next() {
        if entry.passes(test) {
            return Some(*spot);
        }
        from = Bound::Excluded(spot.behind());
    }
    None
}

// Takes out the first item that passes the test, and goes on behind it.
pub(crate) fn take_next<F: Fn(&Item) -> bool>(
    items: &mut BTreeMap<Spot, Entry>,
    from: &mut Bound<Spot>,
    test: &F,
) -> Option<(Spot, Entry)>
    requires { F.IsAlwaysCallable test.now }
    ensures leaves { IfSome result (λ e. Leaves e items.old.entries items.new.entries) }
    ensures stays { IfNone result (items.new.entries ≡ items.old.entries) }
    ensures next { SpotsByGroups F.Fn test.now items.old.entries (λ t.
        length (pass t items.old.entries) ≡ length (pass t (rest_from from.old items.old.entries))
        → Takes t from.old from.new items.old.entries items.new.entries result) }
{
    let spot = next_open(items, *from, test)?;
    *from = Bound::Excluded(spot);
    let entry = items.remove(&spot)?;
    Some((spot, entry))
}

// How many items pass the test.
pub(crate) fn count_open<F: Fn(&Item) -> bool>(
    items: &BTreeMap<Spot, Entry>,
    test: &F,
) -> Result<usize, Mem>
    requires { F.IsAlwaysCallable test.now }
    ensures { SpotsByGroups F.Fn test.now items.now.entries (λ t.
        IfOk result (λ n. n ≡ length (pass t items.now.entries))) }
{
    let mut found: usize = 0;
    let mut from = Bound::Unbounded;
    while let Some(spot) = next_open(items, from, test) {
        found = found.checked_add(1).ok_or(Mem)?;
        from = Bound::Excluded(spot);
    }
    Ok(found)
}

// Moves the items that pass the test, by groups and rounds, as far as there is room.
pub(crate) fn take_open<F: Fn(&Item) -> bool>(
    items: &mut BTreeMap<Spot, Entry>,
    test: &F,
    moved: &mut VecDeque<(Spot, Entry)>,
)
    requires { F.IsAlwaysCallable test.now }
    ensures same { (f : HeldItem → ℕ)
        → sum_by f (held_in moved.new.items) + sum_by f (held_in items.new.entries)
        ≡ sum_by f (held_in moved.old.items) + sum_by f (held_in items.old.entries) }
    ensures ats { (next : ℕ) → AreAt next items.old.entries → AreAt next items.new.entries }
    ensures apart { AreApart items.old.entries → AreApart items.new.entries }
    ensures moves { SpotsByGroups F.Fn test.now items.old.entries (λ t.
        deque_len moved.old + length (pass t items.old.entries) ≤ deque_capacity moved.old
        → (items.new.entries ≡ fail t items.old.entries)
        × (moved.new.items ≡ moved.old.items ++ pass t items.old.entries)) }
    ensures capacity { deque_capacity moved.old ≤ deque_capacity moved.new }
{
    let mut from = Bound::Unbounded;
    while moved.len() < moved.capacity() {
        let Some(one) = take_next(items, &mut from, test) else {
            return;
        };
        moved.push_back_reserved(one);
    }
}

// Drops the items that pass the test. Answers how many bytes they had.
pub(crate) fn drop_open<F: Fn(&Item) -> bool>(
    items: &mut BTreeMap<Spot, Entry>,
    index: &mut IndexMap<Key, usize>,
    test: &F,
) -> u32
    requires { F.IsAlwaysCallable test.now }
    ensures counts { CountsKeys index.old (held_in items.old.entries)
        → CountsKeys index.new (held_in items.new.entries) }
    ensures bytes { sum_by (λ k. k.len) (held_in items.old.entries) < 2 ^ 32
        → sum_by (λ k. k.len) (held_in items.new.entries) + result
        ≡ sum_by (λ k. k.len) (held_in items.old.entries) }
    ensures ats { (next : ℕ) → AreAt next items.old.entries → AreAt next items.new.entries }
    ensures apart { AreApart items.old.entries → AreApart items.new.entries }
    ensures kept { SpotsByGroups F.Fn test.now items.old.entries (λ t.
        items.new.entries ≡ fail t items.old.entries) }
{
    let mut bytes: u32 = 0;
    let mut from = Bound::Unbounded;
    while let Some((_, entry)) = take_next(items, &mut from, test) {
        count_out(index, &Key::of(&entry.item));
        bytes = bytes.saturating_add(entry.len);
    }
    bytes
}
