//! The frames that are kept for one peer, the oldest first.

ghost use Rattle.std.specs.Prelude.{◌≡◌, ℕ, ◌+◌, ◌-◌, ◌^◌, ◌<◌, ◌≤◌, ◌↔◌, [], ◌∷◌, ◌++◌, length, All, filter, not, nat_lt, ◌==◌, Err, Some, IfSome, IfNone, OnOk, OnErr, MatchOption, true, Contains};
ghost use Rattle.std.specs.BTreeMap.{keys, values};
ghost use Rattle.std.specs.List.{slice_get};
ghost use Rattle.std.specs.Map.{values_of};
ghost use Rattle.link_resume.specs.declared.kept.Kept.{Kept};
ghost use Rattle.link_resume.specs.Lanes.{start_behind, end_at};
ghost use Rattle.link_resume.specs.Lists.{bytes_in, IsOver, all_but, between, last_number, may_have, room_for, room_within};

use crate::kept::{KeepFault, Kept};
use keyed_channel::LazyFrame;
use std::alloc::Global;
use std::collections::BTreeMap;
use std::collections::btree_map::{Range, Values};
use std::marker::Model;
use std::ops::Bound;

/// The frames that are kept for one peer, the oldest first.
#[derive(Drop)]
pub(crate) struct Lane {
    // By a place each. The places ascend in the order in which the frames were kept.
    kept: BTreeMap<u128, Kept>,
    // How many bytes the frames have.
    bytes: u64,
    // Whether it is known that the place of each is its number.
    by_number: bool,
}

impl Model for Lane {
    ghost use Rattle.std.specs.Prelude.{List};
    ghost use Rattle.std.specs.BTreeMap.{values};
    ghost use Rattle.link_resume.specs.declared.kept.Kept.{Kept};
    ghost use Rattle.link_resume.specs.Lanes.{IsPeerLane};

    ghost Value = { List Kept };

    ghost view = { λ l. values l.kept };

    ghost invariant = { λ l. IsPeerLane l.bytes l.by_number l.kept.entries };
}

// How many bytes these frames have, which are fewer than 2^64.
fn bytes_in(kept: &BTreeMap<u128, Kept>) -> u64
    requires { bytes_in (values kept.now) < 2 ^ 64 }
    ensures { result ≡ bytes_in (values kept.now) }
{
    kept.values().map(|kept| kept.frame.len() as u64).sum()
}

// The frames with another number, where nothing is known of their places.
fn retain_others(kept: &mut BTreeMap<u128, Kept>, seq: u64)
    ensures { kept.new.entries ≡ filter (λ e. not (e.1.seq == seq)) kept.old.entries }
{
    kept.retain(move |_, frame| frame.seq != seq);
}

// The place of a frame behind the others: its number, where this is greater than their places. None is left behind the greatest.
fn place_behind(kept: &BTreeMap<u128, Kept>, number: u128) -> Option<u128>
    ensures behind { IfSome result (λ place. All (λ other. other < place) (keys kept.now)) }
    ensures none { IfNone result (Contains (keys kept.now) (2 ^ 128 - 1)) }
{
    match kept.last_key_value() {
        Some((last, _)) if number <= *last => last.checked_add(1),
        Some(_) => Some(number),
        None => Some(number),
    }
}

// Behind the place of a number, if there is one.
fn start(after: Option<u64>) -> Bound<u128>
    ensures { result ≡ start_behind after }
{
    match after {
        Some(seq) => Bound::Excluded(u128::from(seq)),
        None => Bound::Unbounded,
    }
}

// Up to the place of the last number, or of the other where this is greater.
fn end(after: Option<u64>, last: u64) -> Bound<u128>
    ensures { result ≡ end_at after last }
{
    match after {
        Some(seq) => Bound::Included(u128::from(seq.max(last))),
        None => Bound::Included(u128::from(last)),
    }
}

// Whether so many bytes, and so many more, may be kept.
fn may_have(limit: Option<u64>, bytes: u64, more: u64) -> bool
    ensures { result ≡ may_have limit (bytes + more) }
{
    match limit {
        Some(most) => u128::from(bytes) + u128::from(more) <= u128::from(most),
        None => true,
    }
}

impl Lane {
    /// Nothing is kept. It takes no memory.
    pub(crate) fn new(alloc: Global) -> Lane
        ensures { result ≡ [] }
    {
        Lane {
            kept: BTreeMap::new(alloc),
            bytes: 0,
            by_number: true,
        }
    }

    /// How many bytes the frames have.
    pub(crate) fn bytes(&self) -> u64
        ensures { result ≡ bytes_in self.now }
    {
        self.bytes
    }

    /// How many frames are kept.
    pub(crate) fn count(&self) -> usize
        ensures { result ≡ length self.now }
    {
        self.kept.len()
    }

    /// The frame that so many stand before.
    pub(crate) fn at(&self, at: usize) -> Option<&Kept>
        ensures { MatchOption result (length self.now ≤ at) (λ k. slice_get self.now at ≡ Some k.now) }
    {
        self.kept.values().nth(at)
    }

    /// All that are kept, the oldest first.
    pub(crate) fn frames(&self) -> Values<'_, u128, Kept>
        ensures { result ≡ self.now }
    {
        self.kept.values()
    }

    /// The number of the newest frame.
    pub(crate) fn newest(&self) -> Option<u64>
        ensures { result ≡ last_number self.now }
    {
        match self.kept.values().next_back() {
            Some(kept) => Some(kept.seq),
            None => None,
        }
    }

    /// Frames of which those behind a number, up to the last one, are all that are so, the oldest first. Where places are numbers there
    /// are no others, and those before them aren't gone through.
    pub(crate) fn span(&self, after: Option<u64>, last: u64) -> Range<'_, u128, Kept>
        ensures { between after last (values_of result) ≡ between after last self.now }
    {
        if self.by_number {
            self.kept.range((start(after), end(after, last)))
        } else {
            self.kept
                .range((Bound::<u128>::Unbounded, Bound::<u128>::Unbounded))
        }
    }

    /// Keeps the frame once more, behind the others.
    pub(crate) fn add(
        &mut self,
        limit: Option<u64>,
        seq: u64,
        frame: &LazyFrame,
    ) -> Result<(), KeepFault>
        ensures ok { OnOk result (self.new ≡ self.old ++ record { seq = seq; frame = frame.now } ∷ []) }
        ensures full { (b : ℕ) → (result ≡ Err (KeepFault.QueueFull b)) ↔ ((b ≡ bytes_in self.old) × IsOver limit (b + length frame.now)) }
        ensures err { OnErr result (self.new ≡ self.old) }
    {
        let len = frame.len() as u64;
        if !may_have(limit, self.bytes, len) {
            return Err(KeepFault::QueueFull(self.bytes));
        }
        let Some(bytes) = self.bytes.checked_add(len) else {
            // There is no memory of so many bytes.
            return Err(KeepFault::Mem);
        };
        let number = u128::from(seq);
        let Some(place) = place_behind(&self.kept, number) else {
            // More than 2^127 frames would have to come, with some kept all the while.
            return Err(KeepFault::Mem);
        };
        let by_number = place == number && (self.by_number || self.kept.is_empty());
        let frame = frame.share()?;
        match self.kept.insert(place, Kept { seq, frame }) {
            Ok(_) => {}
            Err(_) => return Err(KeepFault::Mem),
        }
        self.bytes = bytes;
        self.by_number = by_number;
        Ok(())
    }

    /// The frames of this number go.
    pub(crate) fn acked(&mut self, seq: u64)
        ensures { self.new ≡ all_but seq self.old }
    {
        if self.by_number {
            if let Some(kept) = self.kept.remove(&u128::from(seq)) {
                self.bytes -= kept.frame.len() as u64;
            }
        } else {
            retain_others(&mut self.kept, seq);
            self.bytes = bytes_in(&self.kept);
        }
    }

    // The oldest frames go until so many bytes fit behind the others, where there may be so many.
    fn drop_oldest(&mut self, most: u64, size: u64)
        ensures { self.new ≡ room_within most size self.old }
    {
        while !may_have(Some(most), self.bytes, size) {
            let Some(oldest) = self.kept.pop_first() else {
                return;
            };
            self.bytes -= oldest.1.frame.len() as u64;
        }
    }

    /// The oldest frames go until so many bytes fit behind the others. Without a limit all stay.
    pub(crate) fn make_room(&mut self, limit: Option<u64>, size: u64)
        ensures { self.new ≡ room_for limit size self.old }
    {
        match limit {
            Some(most) => self.drop_oldest(most, size),
            None => {}
        }
    }
}
