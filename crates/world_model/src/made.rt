//! The frames that were made, by sender and receiver and in the order of their making.

ghost use Rattle.std.specs.Prelude.{◌≡◌, ◌≢◌, ◌+◌, ◌-◌, ◌*◌, ◌<◌, ◌≤◌, ℕ, map, length, take, List, [], ◌++◌, OnOk, OnErr, IfOk, replicate};
ghost use Rattle.std.specs.Option.{option_map};
ghost use Rattle.replica.specs.Out.{OutFrame as an_out_frame};
ghost use Rattle.world_model.specs.MadeOrder.{made_of};
ghost use Rattle.world_model.specs.FramesMade.{MadeTable, made_in, made_at, next_place, pushed_at, with_frame, with_frames};

use crate::order::{Made, Place};
use keyed_channel::LazyFrame;
use replica::OutFrame;
use ritas_base::Mem;
use std::alloc::Global;
use std::marker::Model;

/// The frames that the replicas of a world made: for each sender and receiver a list, the oldest first, and where each
/// frame stands, in the order in which they were made.
#[derive(Drop)]
pub(crate) struct MadeFrames {
    n: u8,
    lists: Vec<Vec<LazyFrame>>,
    order: Vec<Place>,
}

impl Model for MadeFrames {
    ghost use Rattle.std.specs.Prelude.{◌≡◌, ◌≤◌, ◌*◌, map, length};
    ghost use Rattle.world_model.specs.FramesMade.{MadeTable};

    ghost Value = { MadeTable };

    ghost view = { λ m. record { n = m.n; lists = map (λ frames. frames.items) m.lists.items; order = m.order.items } };

    ghost invariant = { λ m. (m.n ≤ 31) × (length m.lists.items ≡ m.n * m.n) };
}

// A frame goes to the back of the list at a place, if there is one. For want of memory the lists are as before.
fn push_at(lists: &mut Vec<Vec<LazyFrame>>, at: usize, frame: LazyFrame) -> Result<(), Mem>
    ensures ok { OnOk result (map (λ frames. frames.items) lists.new.items ≡ pushed_at (map (λ frames. frames.items) lists.old.items) at frame) }
    ensures err { OnErr result (map (λ frames. frames.items) lists.new.items ≡ map (λ frames. frames.items) lists.old.items) }
    ensures many { length lists.new.items ≡ length lists.old.items }
{
    if at < lists.len() {
        lists[at].push(frame)?;
    }
    Ok(())
}

// The newest frame is taken off, if there is one.
fn drop_last(frames: &mut Vec<LazyFrame>)
    ensures { frames.new.items ≡ take (length frames.old.items - 1) frames.old.items }
{
    let length = frames.len();
    frames.truncate(length.saturating_sub(1));
}

impl MadeFrames {
    /// No frames, of n replicas.
    pub(crate) fn new(alloc: Global, n: u8) -> Result<MadeFrames, Mem>
        requires { n ≤ 31 }
        ensures { IfOk result (λ m. m ≡ record { n = n; lists = replicate (n * n) []; order = [] }) }
    {
        let count = u16::from(n) * u16::from(n);
        let mut lists = Vec::new(alloc);
        for _pair in 0..count {
            lists.push(Vec::new(alloc))?;
        }
        Ok(MadeFrames {
            n,
            lists,
            order: Vec::new(alloc),
        })
    }

    // The place of the list of a sender and a receiver.
    fn at(&self, from: u8, to: u8) -> usize
        ensures { result ≡ from * self.now.n + to }
    {
        usize::from(from) * usize::from(self.n) + usize::from(to)
    }

    /// The frames that one replica made for another, the oldest first.
    pub(crate) fn frames(&self, from: u8, to: u8) -> &[LazyFrame]
        ensures { result.now ≡ made_in self.now from to }
    {
        match self.lists.get(self.at(from, to)) {
            Some(list) => list.as_slice(),
            None => &[],
        }
    }

    /// How many frames there are.
    pub(crate) fn count(&self) -> usize
        ensures { result ≡ length self.now.order }
    {
        self.order.len()
    }

    /// The frame of this number, from 0, in the order in which they were made.
    pub(crate) fn made(&self, number: usize) -> Option<Made<'_>>
        ensures { option_map made_of result ≡ made_at self.now number }
    {
        let place = self.order.get(number)?;
        let frame = self.frames(place.from, place.to).get(place.at as usize)?;
        Some(Made {
            event: place.event,
            from: place.from,
            to: place.to,
            frame,
        })
    }

    // Where the next frame of a sender for a receiver stands. A list has 2^32 places, as many as a pass can name.
    fn next_place(&self, event: u64, from: u8, to: u8) -> Result<Place, Mem>
        ensures { IfOk result (λ place. place ≡ next_place self.now event from to) }
    {
        let Ok(at) = u32::try_from(self.frames(from, to).len()) else {
            return Err(Mem);
        };
        Ok(Place {
            event,
            from,
            to,
            at,
        })
    }

    // A frame goes to the back of the list of its sender and its receiver, and of the order. For want of memory the table
    // is as before.
    fn add_one(&mut self, event: u64, from: u8, frame: OutFrame<LazyFrame>) -> Result<(), Mem>
        ensures ok { OnOk result (self.new ≡ with_frame self.old event from frame) }
        ensures err { OnErr result (self.new ≡ self.old) }
    {
        let place = self.next_place(event, from, frame.to)?;
        let at = self.at(from, frame.to);
        self.order.reserve(1)?;
        push_at(&mut self.lists, at, frame.bytes)?;
        self.order.push_reserved(place);
        Ok(())
    }

    // The newest frame is taken off again.
    fn take_newest(&mut self)
        ensures { (t : MadeTable) (event from : ℕ) (frame : an_out_frame) → self.old ≡ with_frame t event from frame → self.new ≡ t }
    {
        if let Some(place) = self.order.pop() {
            let at = self.at(place.from, place.to);
            if at < self.lists.len() {
                drop_last(&mut self.lists[at]);
            }
        }
    }

    // The newest frames are taken off again, but for the first so many.
    fn take_back(&mut self, count: usize)
        ensures { (t : MadeTable) (event from : ℕ) (frames : List an_out_frame) → length t.order ≡ count
            → self.old ≡ with_frames t event from frames → self.new ≡ t }
    {
        for _frame in count..self.count() {
            self.take_newest();
        }
    }

    /// Each of these frames, which a replica made in this event, goes to the back of the list of its sender and its
    /// receiver, and of the order. The one error is want of memory, as which more than 2^32 frames in a list count too:
    /// then the table is as before. Where there is no frame, none comes.
    pub(crate) fn add(
        &mut self,
        event: u64,
        from: u8,
        frames: Vec<OutFrame<LazyFrame>>,
    ) -> Result<(), Mem>
        ensures ok { OnOk result (self.new ≡ with_frames self.old event from frames.items) }
        ensures err { OnErr result (self.new ≡ self.old) }
        ensures only { OnErr result (frames.items ≢ []) }
    {
        let count = self.count();
        for frame in frames {
            if self.add_one(event, from, frame).is_err() {
                self.take_back(count);
                return Err(Mem);
            }
        }
        Ok(())
    }
}
