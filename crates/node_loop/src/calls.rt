//! Calls on the replicas that are served.

use crate::enter::enter_rows;
use crate::house::House;
use crate::output::Output;
use crate::refusals::{is_kept, told};
use keyed_channel::LazyFrame;
use layer_api::{Broadcast, Service};
use replica::{OutFrame, Refusal};
use ritas_base::{Coin, Event, Mem};
use ritas_core::Answer;
use std::alloc::Global;

impl<S: Service, E: Broadcast, C: Coin + Drop> House<S, E, C> {
    ghost use Rattle.std.specs.Prelude.{◌≡◌, ◌≢◌, ◌<◌, ℕ, [], ◌∷◌, ◌++◌, List, true, length, map, Some, IfSome, IfOk, OnOk, OnErr};
    ghost use Rattle.std.specs.List.{slice_get};
    ghost use Rattle.ritas_base.specs.declared.event.Event.{Event};
    ghost use Rattle.ritas_base.specs.declared.event.Event.TheVariants.{Turn};
    ghost use Rattle.schedule_file.specs.Spelling.{IsAlone, IsSized};
    ghost use Rattle.world_model.specs.World.{Setting, seen_of, seen_answer};
    ghost use Rattle.world_model.specs.Agree.{rows_at};
    ghost use Rattle.node_loop.specs.Keeping.{IsCallEvent};
    ghost use Rattle.node_loop.specs.Meanings.{meaning_of};
    ghost use Rattle.node_loop.specs.Waiting.{Waiting};
    ghost use Rattle.node_loop.specs.Calls.{event_called, waiting_left_by, replies_by};
    ghost use Rattle.node_loop.specs.Peers.{Peers, keep_all};
    ghost use Rattle.node_loop.specs.Resending.{nothing_more};
    ghost use Rattle.node_loop.specs.Serving.{frames_made_by, sent_by};
    ghost use Rattle.node_loop.specs.Served.{AreHere};
    ghost use Rattle.node_loop.specs.Standing.{HouseStands, ComesOut, IsEmptyOutput, frame_by, reply_by};

    /// How many rows the log of the replica at a place has.
    pub(crate) fn rows_at(&self, place: usize) -> u32
        ensures count { let m = meaning_of S.Service E.Broadcast C.Coin in
            (w : Setting) (es : List Event) (numbers : List ℕ) (at : ℕ) → AreHere m w es numbers self.now.replicas.items
            → slice_get numbers place ≡ Some at
            → result ≡ length (rows_at w es at) }
    {
        match self.replicas.get(place) {
            Some(replica) => replica.log().len(),
            None => 0,
        }
    }

    /// Makes the call that an event is on the replica at a place, and answers what it answered. The one error is want of memory,
    /// where the call answered that; no clause says when it does, and that it doesn't where memory is ample is tested
    /// (`stack_tests`, `cases/floods`).
    pub(crate) fn give(
        &mut self,
        alloc: Global,
        place: usize,
        event: &Event,
        frames: &mut Vec<OutFrame<LazyFrame>>,
    ) -> Result<Result<Answer, Refusal>, Mem>
        ensures does { let m = meaning_of S.Service E.Broadcast C.Coin in
            (w : Setting) (es : List Event) (numbers : List ℕ) (at : ℕ) → AreHere m w es numbers self.old.replicas.items
            → slice_get numbers place ≡ Some at
            → IsAlone at event.now → OnOk result (AreHere m w (event.now ∷ es) numbers self.new.replicas.items
            × (map (frame_by at) frames.new.items ≡ map (frame_by at) frames.old.items ++ sent_by w es (Some event.now))) }
        ensures answered { let m = meaning_of S.Service E.Broadcast C.Coin in
            (w : Setting) (es : List Event) (numbers : List ℕ) (at : ℕ) → AreHere m w es numbers self.old.replicas.items
            → slice_get numbers place ≡ Some at
            → IsAlone at event.now → IfOk result (λ answer. seen_answer answer ≡ seen_of w es event.now) }
        ensures memory { OnErr result ((place < length self.old.replicas.items) × IsCallEvent event.now) }
        ensures same { (self.new.waiting ≡ self.old.waiting) × (self.new.keepers ≡ self.old.keepers) }
    {
        let Some(replica) = self.replicas.get_mut(place) else {
            // There is no such place.
            return Ok(Ok(Answer::Idle));
        };
        let answer = match event {
            Event::Frame { bytes, .. } => replica.on_frame_lazily(alloc, bytes.as_slice(), frames),
            Event::Input { bytes, .. } => replica.on_input_lazily(alloc, bytes.as_slice(), frames),
            Event::Turn { .. } => replica.on_turn_lazily(alloc, frames),
            // No other event is a call on one replica alone.
            _ => return Ok(Ok(Answer::Idle)),
        };
        told(answer)
    }

    /// The rows that came into the log of the replica at a place, behind the first so many.
    pub(crate) fn enter(
        &mut self,
        alloc: Global,
        place: usize,
        count: u32,
        output: &mut Output,
    ) -> Result<(), Mem>
        ensures enters { let m = meaning_of S.Service E.Broadcast C.Coin in
            (w : Setting) (es : List Event) (numbers : List ℕ) (ws : Waiting) (p : Peers) → HouseStands m w es numbers self.old ws p
            → slice_get numbers place ≡ Some output.old.at
            → OnOk result (HouseStands m w es numbers self.new (waiting_left_by output.old.at count (rows_at w es output.old.at) ws) p
            × (map (reply_by output.old.at) output.new.replies.items
            ≡ map (reply_by output.old.at) output.old.replies.items ++ replies_by output.old.at count (rows_at w es output.old.at) ws)) }
        ensures memory { let m = meaning_of S.Service E.Broadcast C.Coin in
            (w : Setting) (es : List Event) (numbers : List ℕ) (ws : Waiting) (p : Peers) → HouseStands m w es numbers self.old ws p
            → slice_get numbers place ≡ Some output.old.at
            → OnErr result (replies_by output.old.at count (rows_at w es output.old.at) ws ≢ []) }
        ensures same { (output.new.at ≡ output.old.at) × (output.new.event ≡ output.old.event) × (output.new.frames ≡ output.old.frames)
            × (output.new.more ≡ output.old.more) × (output.new.kept ≡ output.old.kept) }
    {
        match self.replicas.get(place) {
            Some(replica) => enter_rows(
                alloc,
                &mut self.waiting,
                output.at,
                replica.log(),
                count,
                &mut output.replies,
            ),
            None => Ok(()),
        }
    }

    /// An event at the replica at a place of which nothing goes to peers but the frames of its call. The one error is want of memory.
    pub(crate) fn call(
        &mut self,
        alloc: Global,
        place: usize,
        event: Event,
        output: &mut Output,
    ) -> Result<(), Mem>
        ensures comes { let m = meaning_of S.Service E.Broadcast C.Coin in
            (w : Setting) (es : List Event) (numbers : List ℕ) (ws : Waiting) (p : Peers) → HouseStands m w es numbers self.old ws p
            → slice_get numbers place ≡ Some output.old.at
            → IsAlone output.old.at event → IsEmptyOutput output.old
            → OnOk result (ComesOut m w es numbers self.new output.new
            (event_called w es output.old.at event ws) (nothing_more (keep_all w.mode.version (frames_made_by w es (Some event)) p))) }
        ensures sized { IsSized event → OnOk result (IfSome output.new.event IsSized) }
    {
        let count = self.rows_at(place);
        let answer = self.give(alloc, place, &event, &mut output.frames)?;
        output.kept = is_kept(&event, answer);
        output.event = Some(event);
        self.enter(alloc, place, count, output)
    }

    /// A turn at a replica. The one error is want of memory.
    pub(crate) fn turn(&mut self, alloc: Global, at: u8, output: &mut Output) -> Result<(), Mem>
        ensures comes { let m = meaning_of S.Service E.Broadcast C.Coin in
            (w : Setting) (es : List Event) (numbers : List ℕ) (ws : Waiting) (p : Peers) → HouseStands m w es numbers self.old ws p
            → w.is_correct at ≡ true
            → OnOk result (ComesOut m w es numbers self.new output.new
            (event_called w es at (Turn at) ws) (nothing_more (keep_all w.mode.version (frames_made_by w es (Some (Turn at))) p))) }
        ensures memory { let m = meaning_of S.Service E.Broadcast C.Coin in
            (w : Setting) (es : List Event) (numbers : List ℕ) → AreHere m w es numbers self.old.replicas.items
            → OnErr result (w.is_correct at ≡ true) }
        ensures sized { OnOk result (IfSome output.new.event IsSized) }
    {
        output.clear(at);
        match self.place_of(at) {
            Some(place) => self.call(alloc, place, Event::Turn { at }, output),
            None => Ok(()),
        }
    }
}
