//! The items that are held for all peers, each with a limit of its own: they are released by peer, in the order in which they
//! came.

ghost use Rattle.std.specs.Prelude.{◌≡◌, ℕ, ◌+◌, ◌<◌, ◌≤◌, ◌↔◌, Bool, [], ◌++◌, length, replicate, Err, OnOk, OnErr, IfOk, false};
ghost use Rattle.std.specs.VecDeque.{deque_len, deque_capacity};
ghost use Rattle.ooc_buffers.specs.Lists.{is_held, held_bytes, most_held_bytes, bytes_if_full, with_item_held, released, remaining, busy_peers};
ghost use Rattle.ooc_buffers.specs.Tests.{ByGroups, ByWholeGroups};

use crate::entry::Entry;
use crate::group::Spot;
use crate::peer::Peer;
use ritas_base::{Item, Mem};
use std::alloc::Global;
use std::collections::VecDeque;
use std::marker::Model;

/// The most bytes that are held for one peer.
const MOST_BYTES: u64 = 1_048_576;

/// Why an item isn't held.
#[derive(Clone, Copy, Debug, PartialEq, Eq)]
pub enum HoldFault {
    /// So many bytes are held for its sender, and with it they would be more than `most_bytes` (1,048,576).
    HeldFull(u32),
    /// There was not enough memory.
    Mem,
}

impl From<Mem> for HoldFault {
    ghost use Rattle.std.specs.Prelude.{◌≡◌};
    ghost use Rattle.ooc_buffers.specs.declared.held.HoldFault.TheVariants as faults;

    ghost from_gives = { λ _ e. e ≡ faults.Mem };

    fn from(_: Mem) -> Self {
        HoldFault::Mem
    }
}

// The held bytes, where these and so many more are too many.
fn too_many(held: u32, len: u32) -> Option<u32>
    ensures { result ≡ bytes_if_full held len }
{
    if u64::from(held) + u64::from(len) > MOST_BYTES {
        Some(held)
    } else {
        None
    }
}

/// Items that came too early, held for each peer in the order in which they came.
#[derive(Drop)]
pub struct Held {
    peers: Vec<Peer>,
    // For how many peers something is held: where it is for none, nobody goes over them.
    busy: usize,
}

impl Model for Held {
    ghost use Rattle.std.specs.Prelude.{List};
    ghost use Rattle.ooc_buffers.specs.Lists.{HeldItem};

    ghost Value = { List (List HeldItem) };

    ghost view = { λ h. h.peers.items };

    ghost use Rattle.std.specs.Prelude.{◌≡◌};
    ghost use Rattle.ooc_buffers.specs.Lists.{busy_peers};

    ghost invariant = { λ h. h.busy ≡ busy_peers h.peers.items };
}

impl Held {
    /// Nothing is held for any of n peers. The one error is want of memory.
    pub fn new(alloc: Global, n: u8) -> Result<Held, Mem>
        ensures { IfOk result (λ h. h ≡ replicate n []) }
    {
        let mut peers = Vec::new(alloc);
        for _peer in 0..n {
            peers.push(Peer::new(alloc))?;
        }
        Ok(Held { peers, busy: 0 })
    }

    /// Holds an item for its sender, behind those that are held for it.
    ///
    /// The length is in bytes, and is counted until the item leaves. `HeldFull` is answered exactly where the sender's
    /// held bytes, which it carries, and the length are more than `most_bytes` (1,048,576); otherwise the one error is `Mem`. All
    /// stays as it was after an error.
    pub fn hold(&mut self, alloc: Global, item: Item, len: u32) -> Result<(), HoldFault>
        requires is_new { is_held self.old item ≡ false }
        requires sender { item.from < length self.old }
        ensures ok { OnOk result (self.new ≡ with_item_held self.old item len) }
        ensures full { (b : ℕ) → (result ≡ Err (HoldFault.HeldFull b))
            ↔ ((b ≡ held_bytes self.old item.from) × (most_held_bytes < b + len)) }
        ensures err { OnErr result (self.new ≡ self.old) }
    {
        let peer = &mut self.peers[item.from as usize];
        if let Some(held) = too_many(peer.bytes(), len) {
            return Err(HoldFault::HeldFull(held));
        }
        let was_empty = peer.is_empty();
        peer.add(alloc, item, len)?;
        if was_empty {
            self.busy += 1;
        }
        Ok(())
    }

    /// How many bytes are held for a peer, where these and so many more are too many to hold.
    pub fn full_for(&self, peer: u8, len: u32) -> Option<u32>
        ensures { result ≡ bytes_if_full (held_bytes self.now peer) len }
    {
        too_many(self.bytes(peer), len)
    }

    /// Whether the item is held: one of its sender, kind and slot, and for a column of its value too.
    pub fn has(&self, item: &Item) -> bool
        ensures { result ≡ is_held self.now item.now }
    {
        match self.peers.get(item.from as usize) {
            Some(peer) => peer.has(item),
            None => false,
        }
    }

    /// For how many peers items are held.
    pub fn peers(&self) -> usize
        ensures { result ≡ length self.now }
    {
        self.peers.len()
    }

    /// How many bytes are held for a peer.
    pub fn bytes(&self, peer: u8) -> u32
        ensures { result ≡ held_bytes self.now peer }
    {
        match self.peers.get(peer as usize) {
            Some(peer) => peer.bytes(),
            None => 0,
        }
    }

    /// Moves each item for which `is_open` says yes to the back of the inbox, by peer ascending and for each peer in the
    /// order in which they were held. The others stay, in their order.
    ///
    /// The test goes by groups: where an item passes, those of its group pass whose round is no later. The groups are those
    /// of `group_of`, and `right` says of the items at which slots the test goes by groups: those that are held must be
    /// so. The test is first asked something like an item of each group's least round, with an empty value. Only where it
    /// passes one it is asked the items. The one error is want of memory, after which nothing has moved.
    pub fn release<F: Fn(&Item) -> bool>(
        &mut self,
        alloc: Global,
        is_open: F,
        inbox: &mut VecDeque<Item>,
    ) -> Result<(), Mem>
        requires { F.IsAlwaysCallable is_open }
        ensures moved { ByGroups F.Fn is_open self.old (λ t.
            OnOk result (inbox.new.items ≡ inbox.old.items ++ released t self.old)) }
        ensures kept { ByGroups F.Fn is_open self.old (λ t.
            OnOk result (self.new ≡ remaining t self.old)) }
        ensures err { OnErr result ((inbox.new.items ≡ inbox.old.items) × (self.new ≡ self.old)) }
    {
        self.refresh(alloc);
        self.open(alloc, &is_open, inbox)
    }

    // Makes the firsts of each peer anew, where they aren't fresh.
    fn refresh(&mut self, alloc: Global)
        ensures { self.new ≡ self.old }
    {
        refresh_all(alloc, self.peers.as_mut_slice());
    }

    // Moves the items that pass the test to the back of the inbox.
    fn open<F: Fn(&Item) -> bool>(
        &mut self,
        alloc: Global,
        test: &F,
        inbox: &mut VecDeque<Item>,
    ) -> Result<(), Mem>
        requires { F.IsAlwaysCallable test.now }
        ensures moved { ByGroups F.Fn test.now self.old (λ t.
            OnOk result (inbox.new.items ≡ inbox.old.items ++ released t self.old)) }
        ensures kept { ByGroups F.Fn test.now self.old (λ t.
            OnOk result (self.new ≡ remaining t self.old)) }
        ensures err { OnErr result ((inbox.new.items ≡ inbox.old.items) × (self.new ≡ self.old)) }
    {
        if self.busy == 0 {
            return Ok(());
        }
        let room = room_for(self.peers.as_slice(), test)?;
        if room == 0 {
            return Ok(());
        }
        inbox.reserve(room)?;
        let mut moved = VecDeque::with_capacity(alloc, room)?;
        release_all(self.peers.as_mut_slice(), test, &mut moved, inbox);
        self.busy = busy_peers(self.peers.as_slice());
        Ok(())
    }

    /// Drops each item for which `is_past` says yes. The others stay, in their order.
    ///
    /// The test ends whole groups: where an item passes, all of its group do. The groups are those of `group_of`, and
    /// `right` says of the items at which slots the test goes by groups: those that are held must be so. It is asked as that
    /// of `release` is.
    pub fn forget<F: Fn(&Item) -> bool>(&mut self, is_past: F)
        requires { F.IsAlwaysCallable is_past }
        ensures { ByWholeGroups F.Fn is_past self.old (λ t. self.new ≡ remaining t self.old) }
    {
        self.clear(&is_past);
    }

    // Drops the items that pass a test that goes by groups.
    fn clear<F: Fn(&Item) -> bool>(&mut self, test: &F)
        requires { F.IsAlwaysCallable test.now }
        ensures { ByGroups F.Fn test.now self.old (λ t. self.new ≡ remaining t self.old) }
    {
        if self.busy == 0 {
            return;
        }
        for peer in self.peers.iter_mut() {
            peer.forget(test);
        }
        self.busy = busy_peers(self.peers.as_slice());
    }
}

// Makes the firsts of each peer anew, where they aren't fresh.
fn refresh_all(alloc: Global, peers: &mut [Peer])
    ensures { peers.new ≡ peers.old }
{
    for peer in peers.iter_mut() {
        peer.refresh(alloc);
    }
}

// For how many peers something is held.
fn busy_peers(peers: &[Peer]) -> usize
    ensures { result ≡ busy_peers peers.now }
{
    let mut busy = 0;
    for peer in peers {
        if !peer.is_empty() {
            busy += 1;
        }
    }
    busy
}

// How many items pass the test.
fn room_for<F: Fn(&Item) -> bool>(peers: &[Peer], test: &F) -> Result<usize, Mem>
    requires { F.IsAlwaysCallable test.now }
    ensures { ByGroups F.Fn test.now peers.now (λ t.
        IfOk result (λ n. n ≡ length (released t peers.now))) }
{
    let mut room: usize = 0;
    for peer in peers {
        room = room.checked_add(peer.count(test)?).ok_or(Mem)?;
    }
    Ok(room)
}

// Moves the items that pass the test to the inbox, by way of a list that is empty. Both have room for them.
fn release_all<F: Fn(&Item) -> bool>(
    peers: &mut [Peer],
    test: &F,
    moved: &mut VecDeque<(Spot, Entry)>,
    inbox: &mut VecDeque<Item>,
)
    requires test { F.IsAlwaysCallable test.now }
    requires empty { moved.old.items ≡ [] }
    ensures { ByGroups F.Fn test.now peers.old (λ t.
        length (released t peers.old) ≤ deque_capacity moved.old
        → deque_len inbox.old + length (released t peers.old) ≤ deque_capacity inbox.old
        → (peers.new ≡ remaining t peers.old)
        × (inbox.new.items ≡ inbox.old.items ++ released t peers.old)) }
{
    for peer in peers.iter_mut() {
        peer.release(test, moved, inbox);
    }
}
