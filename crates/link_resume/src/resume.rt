//! The frames that are kept for all peers, each with a limit of its own, until they are acknowledged.

ghost use Rattle.std.specs.Prelude.{◌≡◌, ℕ, ◌+◌, ◌<◌, ◌≤◌, ◌↔◌, [], length, replicate, sum_by, Err, IfOk, OnOk, OnErr, MatchOption, Some};
ghost use Rattle.std.specs.List.{slice_get};
ghost use Rattle.link_resume.specs.Lists.{kept_for, bytes_in, IsWithin, IsOver, with_frame_kept, with_room, without_number, between, batch, last_number};

use crate::batch::Batch;
use crate::kept::{KeepFault, Kept};
use crate::lane::Lane;
use keyed_channel::LazyFrame;
use ritas_base::Mem;
use std::alloc::Global;
use std::collections::btree_map::Values;
use std::marker::Model;

/// Frames that are kept for each peer, the oldest first.
#[derive(Drop)]
pub struct Resume {
    // The most bytes that are kept for one peer, if there is a limit.
    limit: Option<u64>,
    lanes: Vec<Lane>,
}

impl Model for Resume {
    ghost use Rattle.link_resume.specs.Lists.{Keepings};
    ghost use Rattle.link_resume.specs.Lanes.{AreWithin};

    ghost Value = { Keepings };

    ghost invariant = { λ r. AreWithin r.limit r.lanes.items };

    ghost view = { λ r. record { limit = r.limit; lists = r.lanes.items } };
}

impl Resume {
    /// Nothing is kept for any of n peers, and at most so many bytes are to be kept for one, if there is a limit. The one error is want of
    /// memory.
    pub fn new(alloc: Global, n: u8, limit: Option<u64>) -> Result<Resume, Mem>
        ensures { IfOk result (λ r. r ≡ record { limit = limit; lists = replicate n [] }) }
    {
        let mut lanes = Vec::new(alloc);
        for _peer in 0..n {
            lanes.push(Lane::new(alloc))?;
        }
        Ok(Resume { limit, lanes })
    }

    /// For how many peers frames are kept.
    pub fn peers(&self) -> usize
        ensures { result ≡ length self.now.lists }
    {
        self.lanes.len()
    }

    /// Keeps a frame once more for a peer, behind those that are kept for it. Its body is shared, and no tag is computed.
    ///
    /// `QueueFull` is answered exactly where the peer's kept bytes, which it carries, and those of the frame are over the limit; otherwise
    /// the one error is `Mem`. All stays as it was after an error.
    pub fn keep(&mut self, peer: u8, seq: u64, frame: &LazyFrame) -> Result<(), KeepFault>
        requires { peer < length self.old.lists }
        ensures ok { OnOk result (self.new ≡ with_frame_kept self.old peer seq frame.now) }
        ensures full { (b : ℕ) → (result ≡ Err (KeepFault.QueueFull b)) ↔ ((b ≡ bytes_in (kept_for self.old.lists peer)) × IsOver self.old.limit (b + length frame.now)) }
        ensures err { OnErr result (self.new ≡ self.old) }
    {
        self.lanes[peer as usize].add(self.limit, seq, frame)
    }

    /// The peer's frames with this number aren't kept any more. It takes no memory.
    pub fn acked(&mut self, peer: u8, seq: u64)
        requires { peer < length self.old.lists }
        ensures { self.new ≡ without_number self.old peer seq }
    {
        self.lanes[peer as usize].acked(seq);
    }

    /// Drops a peer's oldest frames until so many bytes fit behind the others; all of them, where they don't fit behind any. Without a limit
    /// none is dropped. It takes no memory.
    pub fn make_room(&mut self, peer: u8, size: u64)
        requires { peer < length self.old.lists }
        ensures { self.new ≡ with_room self.old peer size }
    {
        self.lanes[peer as usize].make_room(self.limit, size);
    }

    /// How many frames are kept for a peer. It takes no memory.
    pub fn count(&self, peer: u8) -> usize
        requires { peer < length self.now.lists }
        ensures { result ≡ length (kept_for self.now.lists peer) }
    {
        self.lanes[peer as usize].count()
    }

    /// What is kept for a peer at a place, the oldest at 0. `None` exactly where there is no such place. It takes no memory, and goes
    /// through those before it: `frames` goes through all.
    pub fn waiting(&self, peer: u8, at: usize) -> Option<&Kept>
        requires { peer < length self.now.lists }
        ensures { MatchOption result (length (kept_for self.now.lists peer) ≤ at) (λ k. slice_get (kept_for self.now.lists peer) at ≡ Some k.now) }
    {
        self.lanes[peer as usize].at(at)
    }

    /// All that is kept for a peer, the oldest first. It takes no memory.
    pub fn frames(&self, peer: u8) -> Values<'_, u128, Kept>
        requires { peer < length self.now.lists }
        ensures { result ≡ kept_for self.now.lists peer }
    {
        self.lanes[peer as usize].frames()
    }

    /// How many bytes the frames have that are kept for a peer, which are within the limit. It takes no memory.
    pub fn bytes(&self, peer: u8) -> u64
        requires { peer < length self.now.lists }
        ensures value { result ≡ bytes_in (kept_for self.now.lists peer) }
        ensures most { IsWithin self.now.limit result }
    {
        self.lanes[peer as usize].bytes()
    }

    /// How many bytes the frames have that are kept for all peers. It takes no memory.
    pub fn all_bytes(&self) -> u128
        ensures { result ≡ sum_by bytes_in self.now.lists }
    {
        let mut bytes: u128 = 0;
        for lane in &self.lanes {
            bytes += u128::from(lane.bytes());
        }
        bytes
    }

    /// The number of the newest frame that is kept for a peer, if there is one. It takes no memory.
    pub fn newest(&self, peer: u8) -> Option<u64>
        requires { peer < length self.now.lists }
        ensures { result ≡ last_number (kept_for self.now.lists peer) }
    {
        self.lanes[peer as usize].newest()
    }

    /// The batch at the front of what is kept for a peer under greater numbers than another one, if there is another, up to the last one:
    /// as many frames as have at most so many bytes together, and at least one. It takes no memory. Where the numbers ascend, the frames
    /// before those aren't gone through.
    pub fn batch(&self, peer: u8, after: Option<u64>, last: u64, most: u64) -> Batch<'_>
        requires { peer < length self.now.lists }
        ensures { result ≡ batch most (between after last (kept_for self.now.lists peer)) }
    {
        let kept = self.lanes[peer as usize].span(after, last);
        Batch::new(kept, after, last, most)
    }

    /// The number of the last frame of such a batch, if there is one. It takes no memory.
    pub fn last_of_batch(&self, peer: u8, after: Option<u64>, last: u64, most: u64) -> Option<u64>
        requires { peer < length self.now.lists }
        ensures { result ≡ last_number (batch most (between after last (kept_for self.now.lists peer))) }
    {
        let mut number = None;
        let mut batch = self.batch(peer, after, last, most);
        while let Some(kept) = batch.next_frame() {
            number = Some(kept.seq);
        }
        number
    }
}
