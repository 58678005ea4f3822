//! The items that are held for one peer, in the order in which they came.

ghost use Rattle.std.specs.Prelude.{◌≡◌, ℕ, ◌+◌, ◌<◌, ◌≤◌, ◌^◌, Bool, false, not, nat_lt, List, [], ◌∷◌, ◌++◌, map, length, sum_by, OnOk, OnErr, IfOk};
ghost use Rattle.std.specs.List.{list_any};
ghost use Rattle.std.specs.VecDeque.{deque_len, deque_capacity};
ghost use Rattle.ritas_base.specs.Messages.{kind_eq};
ghost use Rattle.ooc_buffers.specs.Lists.{HeldItem, is_same_item, passing, failing};
ghost use Rattle.ooc_buffers.specs.Tests.{OneByGroups};
ghost use Rattle.ooc_buffers.specs.Moves.{NonePasses, Releases};
ghost use Rattle.ooc_buffers.specs.Keys.{mark_of, CountsKeys};
ghost use Rattle.ooc_buffers.specs.Spots.{held_in, AreAt, Leaves};

use crate::entry::{Entry, is_same};
use crate::firsts::{any_passes, firsts_of, likeness, note_if};
use crate::group::{Group, Spot};
use crate::key::{Key, count_in, count_of, count_out};
use crate::order::sort;
use crate::search::{count_open, drop_open, take_open};
use indexmap::IndexMap;
use ritas_base::{Item, Kind, Mem};
use std::alloc::Global;
use std::collections::{BTreeMap, VecDeque};
use std::marker::Model;
use std::ops::Bound;

// Passes the items on to the inbox, as far as it has room. Answers how many bytes they had.
fn pass_on(
    moved: &mut VecDeque<(Spot, Entry)>,
    index: &mut IndexMap<Key, usize>,
    inbox: &mut VecDeque<Item>,
) -> u32
    ensures counts { (others : List HeldItem)
        → CountsKeys index.old (held_in moved.old.items ++ others) → CountsKeys index.new others }
    ensures bytes { sum_by (λ k. k.len) (held_in moved.old.items) < 2 ^ 32
        → result ≡ sum_by (λ k. k.len) (held_in moved.old.items) }
    ensures empty { moved.new.items ≡ [] }
    ensures capacity { deque_capacity moved.new ≡ deque_capacity moved.old }
    ensures room { deque_capacity inbox.new ≡ deque_capacity inbox.old }
    ensures items { deque_len inbox.old + length moved.old.items ≤ deque_capacity inbox.old
        → (inbox.new.items ≡ inbox.old.items ++ map (λ k. k.item) (held_in moved.old.items))
        × (deque_len inbox.new ≡ deque_len inbox.old + length moved.old.items) }
{
    let mut bytes: u32 = 0;
    while let Some((_, entry)) = moved.pop_front() {
        count_out(index, &Key::of(&entry.item));
        bytes = bytes.saturating_add(entry.len);
        if inbox.len() < inbox.capacity() {
            inbox.push_back_reserved(entry.item);
        }
    }
    bytes
}

// Keeps an item at a spot whose stamp no other has.
fn keep(items: &mut BTreeMap<Spot, Entry>, spot: Spot, entry: Entry) -> Result<(), Mem>
    ensures ok { (next : ℕ) → spot.stamp ≡ next → AreAt next items.old.entries
        → OnOk result (Leaves (spot, entry) items.new.entries items.old.entries) }
    ensures err { OnErr result (items.new.entries ≡ items.old.entries) }
{
    items.insert(spot, entry)?;
    Ok(())
}

// Whether the item is among these, whose stamps are below the next one. It is looked for among those of its group, round
// and mark.
fn holds(items: &BTreeMap<Spot, Entry>, item: &Item, mark: u64, next: u64) -> bool
    ensures { AreAt next items.now.entries → mark ≡ mark_of item.now
        → result ≡ list_any (λ k. is_same_item item.now k.item) (held_in items.now.entries) }
{
    let first = Spot {
        group: Group::of(item),
        bround: item.slot.bround,
        mark,
        stamp: 0,
    };
    let behind = Spot {
        stamp: next,
        ..first
    };
    for (_, entry) in items.range((Bound::Included(first), Bound::Excluded(behind))) {
        if is_same(item, &entry.item) {
            return true;
        }
    }
    false
}

/// The items that are held for one peer, by groups.
#[derive(Drop)]
pub(crate) struct Peer {
    items: BTreeMap<Spot, Entry>,
    index: IndexMap<Key, usize>,
    bytes: u32,
    // The stamp of the next item that is held.
    next: u64,
    // Of each group something like its first item, so that a test needs no search among the items. After items left they
    // aren't fresh, and are made anew when they are next wanted.
    firsts: BTreeMap<Group, Item>,
    fresh: bool,
}

impl Model for Peer {
    ghost use Rattle.std.specs.Prelude.{List};
    ghost use Rattle.ooc_buffers.specs.Lists.{HeldItem};

    ghost Value = { List HeldItem };

    ghost use Rattle.ooc_buffers.specs.Spots.{in_order};
    ghost use Rattle.ooc_buffers.specs.Firsts.{IsKept};

    ghost view = { λ p. in_order p.items.entries };

    ghost invariant = { λ p. IsKept p.index p.bytes p.next p.items.entries p.fresh p.firsts };
}

// Whether it is the kind of columns.
fn is_column(kind: Kind) -> bool
    ensures { result ≡ kind_eq kind Kind.Column }
{
    matches!(kind, Kind::Column)
}

impl Peer {
    pub(crate) fn new(alloc: Global) -> Peer
        ensures { result ≡ [] }
    {
        Peer {
            items: BTreeMap::new(alloc),
            index: IndexMap::new(alloc),
            bytes: 0,
            next: 0,
            firsts: BTreeMap::new(alloc),
            fresh: true,
        }
    }

    // Whether nothing is held.
    pub(crate) fn is_empty(&self) -> bool
        ensures { result ≡ not (nat_lt 0 (length self.now)) }
    {
        self.items.is_empty()
    }

    // How many bytes are held.
    pub(crate) fn bytes(&self) -> u32
        ensures { result ≡ sum_by (λ k. k.len) self.now }
    {
        self.bytes
    }

    // Whether the item is held.
    pub(crate) fn has(&self, item: &Item) -> bool
        ensures { result ≡ list_any (λ k. is_same_item item.now k.item) self.now }
    {
        let key = Key::of(item);
        if count_of(&self.index, &key) == 0 {
            return false;
        }
        if !is_column(item.kind) {
            return true;
        }
        holds(&self.items, item, key.mark, self.next)
    }

    // Holds the item behind the others.
    pub(crate) fn add(&mut self, alloc: Global, item: Item, len: u32) -> Result<(), Mem>
        requires { sum_by (λ k. k.len) self.old + len < 2 ^ 32 }
        ensures ok { OnOk result (self.new ≡ self.old ++ record { item = item; len = len } ∷ []) }
        ensures err { OnErr result (self.new ≡ self.old) }
    {
        let stamp = self.next;
        let next = stamp.checked_add(1).ok_or(Mem)?;
        let key = Key::of(&item);
        let spot = Spot {
            group: Group::of(&item),
            bround: item.slot.bround,
            mark: key.mark,
            stamp,
        };
        count_in(&mut self.index, key)?;
        self.fresh = note_if(
            self.fresh,
            &mut self.firsts,
            spot.group,
            likeness(alloc, &item),
        );
        match keep(&mut self.items, spot, Entry { item, len }) {
            Ok(()) => {
                self.bytes += len;
                self.next = next;
                Ok(())
            }
            Err(fault) => {
                count_out(&mut self.index, &key);
                self.fresh = false;
                Err(fault)
            }
        }
    }

    // Makes the firsts anew, where they aren't fresh. Without memory for them they stay so.
    pub(crate) fn refresh(&mut self, alloc: Global)
        ensures { self.new ≡ self.old }
    {
        if self.fresh {
            return;
        }
        if let Ok(firsts) = firsts_of(alloc, &self.items) {
            self.firsts = firsts;
            self.fresh = true;
        }
    }

    // Whether an item may pass the test: one of the firsts does, or they aren't fresh.
    fn may_open<F: Fn(&Item) -> bool>(&self, test: &F) -> bool
        requires { F.IsAlwaysCallable test.now }
        ensures { OneByGroups F.Fn test.now self.now (λ t.
            result ≡ false → NonePasses t self.now) }
    {
        !self.fresh || any_passes(&self.firsts, test)
    }

    // How many items pass the test.
    pub(crate) fn count<F: Fn(&Item) -> bool>(&self, test: &F) -> Result<usize, Mem>
        requires { F.IsAlwaysCallable test.now }
        ensures { OneByGroups F.Fn test.now self.now (λ t.
            IfOk result (λ n. n ≡ length (passing t self.now))) }
    {
        if !self.may_open(test) {
            return Ok(0);
        }
        count_open(&self.items, test)
    }

    // Moves the items that pass the test behind those of the inbox, by way of a list that is empty. Both have room.
    pub(crate) fn release<F: Fn(&Item) -> bool>(
        &mut self,
        test: &F,
        moved: &mut VecDeque<(Spot, Entry)>,
        inbox: &mut VecDeque<Item>,
    )
        requires test { F.IsAlwaysCallable test.now }
        requires empty { moved.old.items ≡ [] }
        ensures capacity { deque_capacity inbox.new ≡ deque_capacity inbox.old }
        ensures empty { (moved.new.items ≡ [])
            × (deque_capacity moved.old ≤ deque_capacity moved.new) }
        ensures moves { OneByGroups F.Fn test.now self.old (λ t.
            length (passing t self.old) ≤ deque_capacity moved.old
            → deque_len inbox.old + length (passing t self.old) ≤ deque_capacity inbox.old
            → Releases t self.old self.new inbox.old inbox.new) }
    {
        if !self.may_open(test) {
            return;
        }
        self.fresh = false;
        take_open(&mut self.items, test, moved);
        sort(moved);
        self.bytes -= pass_on(moved, &mut self.index, inbox);
    }

    // Drops the items that pass the test.
    pub(crate) fn forget<F: Fn(&Item) -> bool>(&mut self, test: &F)
        requires { F.IsAlwaysCallable test.now }
        ensures { OneByGroups F.Fn test.now self.old (λ t. self.new ≡ failing t self.old) }
    {
        if !self.may_open(test) {
            return;
        }
        self.fresh = false;
        self.bytes -= drop_open(&mut self.items, &mut self.index, test);
    }
}
