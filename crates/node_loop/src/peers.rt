//! What is kept for the peers of a replica until they acknowledge it, and who of them is to be asked to send again.
ghost use Rattle.std.specs.Prelude.{◌≡◌, ℕ, ◌+◌, ◌<◌, ◌∷◌, List, [], length, replicate};
ghost use Rattle.std.specs.Prelude.{slice_set, slice_index_or, nat_lt, true, if◌then◌else◌, Some, None, IfOk, OnOk, OnErr, MatchOption};
ghost use Rattle.ritas_base.specs.declared.mode.FrameVersion.{FrameVersion as AVersion};
ghost use Rattle.link_resume.specs.Lists.{bytes_in, kept_for, most_kept, IsWithin, between, batch};
ghost use Rattle.ritas_base.specs.declared.event.Event.{Event};
ghost use Rattle.world_model.specs.World.{Setting, rules_at, states_of};
ghost use Rattle.world_model.specs.EveryWorld.{IsWorld};
ghost use Rattle.world_model.specs.Stands.{IsReplica};
ghost use Rattle.node_loop.specs.Meanings.{meaning_of};
ghost use Rattle.node_loop.specs.declared.peers.Pair.{Pair as APair};
ghost use Rattle.node_loop.specs.Peers.{Peers, with_list, keeps, is_due_of, early_with, asked_from};
ghost use Rattle.node_loop.specs.PeersStanding.{AreKept, IsKeeper};
ghost use Rattle.node_loop.specs.Resending.{replica_progress, mark_at, peers_due, nothing_more, reached, newest_in, before, grown, has_none, sends_batch, begins_at, begins_unless, goes_on, acked_so, asked_so, connected};
ghost use Rattle.node_loop.specs.Standing.{IsMore};

use crate::output::{More, Part};
use keyed_channel::LazyFrame;
use layer_api::{Broadcast, Service};
use link_resume::{KeepFault, Resume, most_kept};
use replica::Replica;
use ritas_base::{Coin, FrameVersion, Mem};
use std::alloc::Global;

// A batch has at most so many bytes, or one frame.
const MOST_BATCH_BYTES: u64 = 4_096;

// Each batch may have so many bytes more than the one before, and one to a peer that has a connection begins with so many.
const BATCH_STEP: u64 = 1_024;

/// How far a replica had come, and how many bytes it held for a peer.
#[derive(Clone, Copy)]
pub(crate) struct Mark {
    /// Its completed rounds and all its bases.
    pub progress: u64,
    /// The bytes.
    pub held: u32,
}

/// What is known of the frames of a peer that came too early.
#[derive(Clone, Copy)]
pub(crate) struct Early {
    /// Where the replica stood when the newest of them came.
    pub mark: Mark,
    /// The least of their numbers.
    pub least: u64,
}

/// A replica and a peer of it.
#[derive(Clone, Copy)]
pub(crate) struct Pair {
    /// The replica's number.
    pub at: u8,
    /// The peer's.
    pub peer: u8,
}

/// How far what is kept for a peer went out again, a batch at a time.
#[derive(Clone, Copy)]
pub(crate) struct Pending {
    /// The newest batch has the frames behind this number, if there is one.
    pub after: Option<u64>,
    /// The number of its last frame. Once none of its frames is kept any more, the next batch goes out.
    pub last: u64,
    /// The number of the last frame that is to go out so.
    pub end: u64,
    /// The most bytes of the next batch.
    pub most: u64,
}

/// What is kept for the peers of one replica in a session of a version, the marks that they have, and how far it went out again to each.
#[derive(Drop)]
pub(crate) struct Keeper {
    pub version: FrameVersion,
    pub resume: Resume,
    pub marks: Vec<Option<Early>>,
    pub pending: Vec<Option<Pending>>,
}

// How far a replica has come: its completed rounds and all its bases.
fn progress_of<S: Service, E: Broadcast, C: Coin + Drop>(replica: &Replica<S, E, C>) -> u64
    ensures progress { let m = meaning_of S.Service E.Broadcast C.Coin in
        (w : Setting) (es : List Event) (i : ℕ) → IsWorld m.service m.cast w → IsReplica m w (states_of w es) i replica.now
        → result ≡ replica_progress (rules_at w i) (states_of w es i) w.numbers.n }
{
    let service = replica.core().service();
    let mut progress = u64::from(service.completed());
    for origin in 0..replica.keys().n() {
        progress += u64::from(service.base(origin));
    }
    progress
}

// Whether a peer of which such frames came too early is to be asked to send again, where the replica stands so now.
fn is_due(early: Option<Early>, now: Mark) -> bool
    ensures due { result ≡ is_due_of early now }
{
    match early {
        Some(early) => now.held < early.mark.held || early.mark.progress < now.progress,
        None => false,
    }
}

// With one more frame that came too early, when the replica stood so.
fn early_with(early: Option<Early>, mark: Mark, seq: u64) -> Early
    ensures early { result ≡ early_with early mark seq }
{
    let least = match early {
        Some(early) if early.least <= seq => early.least,
        _ => seq,
    };
    Early { mark, least }
}

// From which number on a peer is asked to send again.
fn asked_from(version: FrameVersion, early: Option<Early>) -> u64
    ensures from { result ≡ asked_from version early }
{
    match (version, early) {
        (FrameVersion::Three, Some(early)) => early.least,
        (FrameVersion::Three, None) => 0,
        (FrameVersion::One | FrameVersion::Two, _) => 0,
    }
}

/// Where a replica stands, and what it holds for a peer.
pub(crate) fn mark_of<S: Service, E: Broadcast, C: Coin + Drop>(
    replica: &Replica<S, E, C>,
    peer: u8,
) -> Mark
    ensures mark { let m = meaning_of S.Service E.Broadcast C.Coin in
        (w : Setting) (es : List Event) (i : ℕ) → IsWorld m.service m.cast w → IsReplica m w (states_of w es) i replica.now
        → result ≡ mark_at w es i peer }
{
    Mark {
        progress: progress_of(replica),
        held: replica.core().held_of(peer),
    }
}

// The number before this one, if there is one.
fn before(seq: u64) -> Option<u64>
    ensures before { result ≡ before seq }
{
    seq.checked_sub(1)
}

// The most bytes of the batch that follows one.
fn grown(most: u64) -> u64
    ensures { result ≡ grown most }
{
    most.min(MOST_BATCH_BYTES - BATCH_STEP) + BATCH_STEP
}

/// The version of a replica's session.
pub(crate) fn version_of<S: Service, E: Broadcast, C: Coin + Drop>(
    replica: &Replica<S, E, C>,
) -> FrameVersion
    ensures version { let m = meaning_of S.Service E.Broadcast C.Coin in
        (w : Setting) (es : List Event) (i : ℕ) → IsReplica m w (states_of w es) i replica.now → result ≡ w.mode.version }
{
    replica.core().mode().version
}

/// Keeps a frame once more under the number that it carries, unless too many bytes are kept for the peer. What is no peer is passed over.
/// The one error is want of memory.
pub(crate) fn keep(resume: &mut Resume, peer: u8, frame: &LazyFrame) -> Result<(), Mem>
    ensures kept { (v : AVersion) (n i : ℕ) (p : Peers) → AreKept v n i resume.old p.keeping
        → OnOk result (AreKept v n i resume.new (with_list i peer (keeps v frame.now (p.keeping i peer)) p).keeping) }
    // Memory may run out only where the frame is of a peer, and fits.
    ensures err { OnErr result ((peer < length resume.old.lists)
        × IsWithin resume.old.limit (bytes_in (kept_for resume.old.lists peer) + length frame.now)) }
{
    if usize::from(peer) >= resume.peers() {
        return Ok(());
    }
    match resume.keep(peer, frame.parts().seq, frame) {
        Ok(()) => Ok(()),
        Err(KeepFault::QueueFull(_)) => Ok(()),
        Err(KeepFault::Mem) => Err(Mem),
    }
}

impl Keeper {
    /// Nothing is kept for any of n peers, in a session of this version, and none is marked. The one error is want of memory.
    pub(crate) fn new(alloc: Global, n: u8, version: FrameVersion) -> Result<Keeper, Mem>
        ensures none { IfOk result (λ keeper. (keeper.version ≡ version)
            × (keeper.resume ≡ record { limit = most_kept version; lists = replicate n [] })
            × (keeper.marks.items ≡ replicate n None) × (keeper.pending.items ≡ replicate n None)) }
    {
        Ok(Keeper {
            version,
            resume: Resume::new(alloc, n, most_kept(version))?,
            marks: Vec::from_elem(alloc, None, usize::from(n))?,
            pending: Vec::from_elem(alloc, None, usize::from(n))?,
        })
    }

    // How far what is kept for a peer went out again, if it does so a batch at a time.
    fn pending_of(&self, peer: u8) -> Option<Pending>
        ensures pending { result ≡ slice_index_or self.now.pending.items peer None }
    {
        match self.pending.get(usize::from(peer)) {
            Some(pending) => *pending,
            None => None,
        }
    }

    // So far it went out.
    fn note_pending(&mut self, peer: u8, pending: Option<Pending>)
        ensures rest { self.new ≡ record self.old { pending = self.new.pending } }
        ensures pending { self.new.pending.items ≡ slice_set self.old.pending.items peer pending }
    {
        if let Some(old) = self.pending.get_mut(usize::from(peer)) {
            *old = pending;
        }
    }

    // How far what is kept for a peer goes out with a batch, if that has a frame.
    fn reached(&self, peer: u8, after: Option<u64>, end: u64, most: u64) -> Option<Pending>
        requires { peer < length self.now.resume.lists }
        ensures { result ≡ reached after end (grown most) (batch most (between after end (kept_for self.now.resume.lists peer))) }
    {
        match self.resume.last_of_batch(peer, after, end, most) {
            Some(last) => Some(Pending {
                after,
                last,
                end,
                most: grown(most),
            }),
            None => None,
        }
    }

    // Whether the peer took all of the newest batch.
    fn is_taken(&self, peer: u8, pending: Pending) -> bool
        requires { peer < length self.now.resume.lists }
        ensures { result ≡ has_none (between pending.after pending.last (kept_for self.now.resume.lists peer)) }
    {
        self.resume
            .last_of_batch(peer, pending.after, pending.last, 0)
            .is_none()
    }

    // A batch of what is kept for a peer is to go out again.
    fn send_batch(&mut self, peer: u8, after: Option<u64>, end: u64, most: u64) -> More
        requires { peer < length self.old.resume.lists }
        ensures batch { (w : Setting) (i : ℕ) (p : Peers) → IsKeeper w.mode.version w.numbers.n i self.old p
            → let brings = sends_batch i peer after end most p in
            IsKeeper w.mode.version w.numbers.n i self.new brings.peers × IsMore w i result brings }
    {
        let pending = self.reached(peer, after, end, most);
        self.note_pending(peer, pending);
        More::Kept {
            peer,
            part: Part::Batch {
                after,
                last: end,
                most,
            },
        }
    }

    // Where the peer took all of the newest batch, the next one is to go out.
    fn go_on(&mut self, peer: u8) -> More
        requires { peer < length self.old.resume.lists }
        ensures goes { (w : Setting) (i : ℕ) (p : Peers) → IsKeeper w.mode.version w.numbers.n i self.old p
            → let brings = goes_on i peer (p.pending i peer) p in
            IsKeeper w.mode.version w.numbers.n i self.new brings.peers × IsMore w i result brings }
    {
        match self.pending_of(peer) {
            Some(pending) => {
                if self.is_taken(peer, pending) {
                    self.send_batch(peer, Some(pending.last), pending.end, pending.most)
                } else {
                    More::Nothing
                }
            }
            None => More::Nothing,
        }
    }

    /// The frame of this number isn't kept for the peer any more. What is to go out to it then is answered.
    pub(crate) fn acked(&mut self, peer: u8, seq: u64) -> More
        ensures acked { (w : Setting) (i : ℕ) (p : Peers) → IsKeeper w.mode.version w.numbers.n i self.old p → peer < w.numbers.n
            → let brings = acked_so w.mode.version i peer seq p in
            IsKeeper w.mode.version w.numbers.n i self.new brings.peers × IsMore w i result brings }
    {
        if usize::from(peer) >= self.resume.peers() {
            return More::Nothing;
        }
        self.resume.acked(peer, seq);
        match self.version {
            FrameVersion::One | FrameVersion::Two => More::Nothing,
            FrameVersion::Three => self.go_on(peer),
        }
    }

    // What is kept for a peer goes out again from a number on: first a single frame.
    fn begin_at(&mut self, peer: u8, seq: u64) -> More
        requires { peer < length self.old.resume.lists }
        ensures begins { (w : Setting) (i : ℕ) (p : Peers) → IsKeeper w.mode.version w.numbers.n i self.old p
            → let brings = begins_at i peer seq p in
            IsKeeper w.mode.version w.numbers.n i self.new brings.peers × IsMore w i result brings }
    {
        let end = self.newest(peer);
        self.send_batch(peer, before(seq), end, 0)
    }

    // Where batches go out to a peer that will come to this number, they are to go on up to the newest frame; else what is kept goes
    // out again from there on.
    fn begin_unless(&mut self, peer: u8, seq: u64) -> More
        requires { peer < length self.old.resume.lists }
        ensures begins { (w : Setting) (i : ℕ) (p : Peers) → IsKeeper w.mode.version w.numbers.n i self.old p
            → let brings = begins_unless i peer seq (p.pending i peer) p in
            IsKeeper w.mode.version w.numbers.n i self.new brings.peers × IsMore w i result brings }
    {
        match self.pending_of(peer) {
            Some(pending) => {
                if pending.last < seq {
                    let end = self.newest(peer);
                    self.note_pending(peer, Some(Pending { end, ..pending }));
                    More::Nothing
                } else {
                    self.begin_at(peer, seq)
                }
            }
            None => self.begin_at(peer, seq),
        }
    }

    /// What goes out again to a peer that asks for it, from a number on.
    pub(crate) fn asked(&mut self, peer: u8, seq: u64) -> More
        ensures asked { (w : Setting) (i : ℕ) (p : Peers) → IsKeeper w.mode.version w.numbers.n i self.old p → peer < w.numbers.n
            → let brings = asked_so w.mode.version i peer seq p in
            IsKeeper w.mode.version w.numbers.n i self.new brings.peers × IsMore w i result brings }
    {
        if usize::from(peer) >= self.resume.peers() {
            return More::Nothing;
        }
        match self.version {
            FrameVersion::One | FrameVersion::Two => More::Kept {
                peer,
                part: Part::All,
            },
            FrameVersion::Three => self.begin_unless(peer, seq),
        }
    }

    // The number of the newest frame that is kept for a peer; 0 where there is none.
    fn newest(&self, peer: u8) -> u64
        requires { peer < length self.now.resume.lists }
        ensures { result ≡ newest_in (kept_for self.now.resume.lists peer) }
    {
        self.resume.newest(peer).unwrap_or(0)
    }

    /// What goes out again to a peer that has a connection. To what is no peer nothing does.
    pub(crate) fn connected(&mut self, peer: u8) -> More
        ensures connected { (w : Setting) (i : ℕ) (p : Peers) → IsKeeper w.mode.version w.numbers.n i self.old p
            → let brings = if nat_lt peer w.numbers.n then connected w.mode.version i peer p else nothing_more p in
            IsKeeper w.mode.version w.numbers.n i self.new brings.peers × IsMore w i result brings }
    {
        if usize::from(peer) >= self.resume.peers() {
            return More::Nothing;
        }
        match self.version {
            FrameVersion::One | FrameVersion::Two => More::Kept {
                peer,
                part: Part::All,
            },
            FrameVersion::Three => {
                let end = self.newest(peer);
                self.send_batch(peer, None, end, BATCH_STEP)
            }
        }
    }

    /// A frame of the peer, of this number, came too early, when the replica stood so.
    pub(crate) fn mark(&mut self, peer: u8, mark: Mark, seq: u64)
        ensures rest { self.new ≡ record self.old { marks = self.new.marks } }
        ensures marks { self.new.marks.items ≡ slice_set self.old.marks.items peer
            (Some (early_with (slice_index_or self.old.marks.items peer None) mark seq)) }
    {
        if let Some(old) = self.marks.get_mut(usize::from(peer)) {
            *old = Some(early_with(*old, mark, seq));
        }
    }

    /// From which number on a peer is asked to send again.
    pub(crate) fn wanted_from(&self, peer: u8) -> u64
        ensures from { result ≡ asked_from self.now.version (slice_index_or self.now.marks.items peer None) }
    {
        asked_from(self.version, self.mark_for(peer))
    }

    /// The peer has no mark any more.
    pub(crate) fn unmark(&mut self, peer: u8)
        ensures rest { self.new ≡ record self.old { marks = self.new.marks } }
        ensures marks { self.new.marks.items ≡ slice_set self.old.marks.items peer None }
    {
        if let Some(old) = self.marks.get_mut(usize::from(peer)) {
            *old = None;
        }
    }

    // Whether no peer has a mark.
    fn has_no_marks(&self) -> bool
        ensures none { result ≡ true → (j : ℕ) → slice_index_or self.now.marks.items j None ≡ None }
    {
        for mark in &self.marks {
            if mark.is_some() {
                return false;
            }
        }
        true
    }

    // The mark of a peer, if it has one.
    fn mark_for(&self, peer: u8) -> Option<Early>
        ensures mark { result ≡ slice_index_or self.now.marks.items peer None }
    {
        match self.marks.get(usize::from(peer)) {
            Some(mark) => *mark,
            None => None,
        }
    }

    /// The least marked peer for which the replica holds fewer bytes now than its mark says, or since whose mark it has come further.
    pub(crate) fn due<S: Service, E: Broadcast, C: Coin + Drop>(
        &self,
        replica: &Replica<S, E, C>,
    ) -> Option<u8>
        ensures first { let m = meaning_of S.Service E.Broadcast C.Coin in
            (w : Setting) (es : List Event) (i : ℕ) (p : Peers) → IsWorld m.service m.cast w → IsReplica m w (states_of w es) i replica.now
            → IsKeeper w.mode.version w.numbers.n i self.now p
            → MatchOption result (peers_due w es p i ≡ [])
            (λ j. (more : List APair) × (peers_due w es p i ≡ record { at = i; peer = j } ∷ more)) }
    {
        if self.has_no_marks() {
            return None;
        }
        let progress = progress_of(replica);
        for peer in 0..replica.keys().n() {
            let held = replica.core().held_of(peer);
            if is_due(self.mark_for(peer), Mark { progress, held }) {
                return Some(peer);
            }
        }
        None
    }
}
