//! Events that a journal kept happen again.
ghost use Rattle.std.specs.Prelude.{◌≡◌, ℕ, ◌<◌, map, OnOk, OnErr, MatchOption};
ghost use Rattle.std.specs.List.{Any};
ghost use Rattle.ritas_base.specs.declared.mode.FrameVersion.{FrameVersion};
ghost use Rattle.link_resume.specs.Lists.{room_for, most_kept};
ghost use Rattle.schedule_file.specs.Spelling.{IsAlone};
ghost use Rattle.world_model.specs.World.{seen_answer};
ghost use Rattle.node_loop.specs.Peers.{Peers, with_list};
ghost use Rattle.node_loop.specs.PeersStanding.{AreKept, made_as};
ghost use Rattle.node_loop.specs.Recalling.{waits_again};
ghost use Rattle.node_loop.specs.Recovering.{keep_newest, all_newest};
ghost use Rattle.node_loop.specs.WaitersStanding.{IsWaiting};
ghost use Rattle.node_loop.specs.Waiting.{Waiting};
ghost use Rattle.node_loop.specs.Wanting.{WaitAgainMayWant};

use crate::asks::asked_in;
use crate::house::House;
use crate::output::Output;
use crate::peers::keep;
use crate::refusals::refusal_in;
use crate::waiting::Waiters;
use keyed_channel::LazyFrame;
use layer_api::{Broadcast, Service};
use link_resume::Resume;
use replica::{OutFrame, Refusal};
use ritas_base::{Coin, Event, Mem};
use ritas_core::Answer;
use std::alloc::Global;

// The replica at which an event of a journal happens: each frame, input and turn.
fn replica_of(event: &Event) -> Option<u8>
    ensures at { MatchOption result ((me : ℕ) → IsAlone me event.now → ⊥) (λ at. IsAlone at event.now) }
{
    match event {
        Event::Frame { to, .. } => Some(*to),
        Event::Input { at, .. } | Event::Turn { at } => Some(*at),
        _ => None,
    }
}

// An input that was taken waits for its row with no connection. The one error is want of memory.
fn wait_again(
    waiting: &mut Waiters,
    alloc: Global,
    event: &Event,
    answer: Result<Answer, Refusal>,
) -> Result<(), Mem>
    ensures waits { (ws : Waiting) → IsWaiting waiting.old ws
        → OnOk result (IsWaiting waiting.new (waits_again event.now (seen_answer answer) ws)) }
    ensures memory { (ws : Waiting) → IsWaiting waiting.old ws
        → OnErr result (WaitAgainMayWant event.now (seen_answer answer) ws) }
{
    match event {
        Event::Input { at, bytes } if refusal_in(answer).is_none() => {
            waiting.push(alloc, asked_in(*at, bytes.as_slice()), None)
        }
        _ => Ok(()),
    }
}

// The oldest that are kept for a peer are dropped until so many bytes fit behind the others. What is no peer is passed over.
fn make_room(resume: &mut Resume, peer: u8, size: u64)
    ensures room { (v : FrameVersion) (n i : ℕ) (p : Peers) → AreKept v n i resume.old p.keeping
        → AreKept v n i resume.new (with_list i peer (room_for (most_kept v) size (p.keeping i peer)) p).keeping }
{
    if usize::from(peer) < resume.peers() {
        resume.make_room(peer, size);
    }
}

// Keeps a frame of a replica for its peer; where it doesn't fit, the oldest are dropped first. The one error is want of memory.
fn keep_newest(resume: &mut Resume, frame: &OutFrame<LazyFrame>) -> Result<(), Mem>
    ensures keeps { (v : FrameVersion) (n i k : ℕ) (p : Peers) → AreKept v n i resume.old p.keeping
        → OnOk result (AreKept v n i resume.new (keep_newest v (made_as k i frame.now) p).keeping) }
    ensures memory { (v : FrameVersion) (n i : ℕ) (p : Peers) → AreKept v n i resume.old p.keeping
        → OnErr result (frame.now.to < n) }
{
    make_room(resume, frame.to, frame.bytes.len() as u64);
    keep(resume, frame.to, &frame.bytes)
}

// Keeps these frames of a replica for their peers so, in order.
fn all_newest(resume: &mut Resume, frames: &[OutFrame<LazyFrame>]) -> Result<(), Mem>
    ensures keeps { (v : FrameVersion) (n i k : ℕ) (p : Peers) → AreKept v n i resume.old p.keeping
        → OnOk result (AreKept v n i resume.new (all_newest v (map (made_as k i) frames.now) p).keeping) }
    ensures memory { (v : FrameVersion) (n i k : ℕ) (p : Peers) → AreKept v n i resume.old p.keeping
        → OnErr result (Any (λ f. f.to < n) frames.now) }
{
    for frame in frames {
        keep_newest(resume, frame)?;
    }
    Ok(())
}

impl<S: Service, E: Broadcast, C: Coin + Drop> House<S, E, C> {
    ghost use Rattle.std.specs.Prelude.{◌≡◌, ◌≢◌, ℕ, [], ◌∷◌, true, map, reverse, List, Some, OnOk, OnErr};
    ghost use Rattle.std.specs.List.{AllByRecursion};
    ghost use Rattle.ritas_base.specs.declared.event.Event.{Event};
    ghost use Rattle.world_model.specs.World.{Setting};
    ghost use Rattle.node_loop.specs.Meanings.{meaning_of};
    ghost use Rattle.node_loop.specs.Waiting.{Waiting, nobody};
    ghost use Rattle.node_loop.specs.Peers.{Peers, no_peers};
    ghost use Rattle.node_loop.specs.Recovering.{recalled, all_newest, recalled_waiting, recalled_peers};
    ghost use Rattle.node_loop.specs.Served.{AreHere};
    ghost use Rattle.node_loop.specs.Serving.{frames_made_by, sent_by};
    ghost use Rattle.node_loop.specs.Standing.{HouseStands, frame_by};
    ghost use Rattle.node_loop.specs.Laws.{IsServed};

    // An event happens again: an input that is taken waits for its row with no connection. The one error is want of memory.
    fn happen(&mut self, alloc: Global, event: &Event, output: &mut Output) -> Result<(), Mem>
        ensures happens { let m = meaning_of S.Service E.Broadcast C.Coin in
            (w : Setting) (es : List Event) (numbers : List ℕ) (ws : Waiting) (p : Peers) → HouseStands m w es numbers self.old ws p
            → IsServed w event.now
            → OnOk result (HouseStands m w (event.now ∷ es) numbers self.new (recalled w es event.now ws).waiting p
            × (map (frame_by output.new.at) output.new.frames.items ≡ sent_by w es (Some event.now)) × (w.is_correct output.new.at ≡ true)) }
        // Memory may run out only over an event of a replica that is here.
        ensures memory { let m = meaning_of S.Service E.Broadcast C.Coin in
            (w : Setting) (es : List Event) (numbers : List ℕ)
            → AreHere m w es numbers self.old.replicas.items
            → OnErr result ((at : ℕ) × IsAlone at event.now × (w.is_correct at ≡ true)) }
    {
        let Some(at) = replica_of(event) else {
            // No other event is one of a journal.
            return Ok(());
        };
        output.clear(at);
        let Some(place) = self.place_of(at) else {
            return Ok(());
        };
        let count = self.rows_at(place);
        let answer = self.give(alloc, place, event, &mut output.frames)?;
        wait_again(&mut self.waiting, alloc, event, answer)?;
        self.enter(alloc, place, count, output)
    }

    // An event happens again, and its frames are kept for their peers. The one error is want of memory.
    fn recall(&mut self, alloc: Global, event: &Event, output: &mut Output) -> Result<(), Mem>
        ensures happens { let m = meaning_of S.Service E.Broadcast C.Coin in
            (w : Setting) (es : List Event) (numbers : List ℕ) (ws : Waiting) (p : Peers) → HouseStands m w es numbers self.old ws p
            → IsServed w event.now
            → OnOk result (HouseStands m w (event.now ∷ es) numbers self.new (recalled w es event.now ws).waiting
            (all_newest w.mode.version (frames_made_by w es (Some event.now)) p)) }
    {
        self.happen(alloc, event, output)?;
        let Some(place) = self.place_of(output.at) else {
            return Ok(());
        };
        match self.keepers.get_mut(place) {
            Some(keeper) => all_newest(&mut keeper.resume, output.frames.as_slice()),
            None => Ok(()),
        }
    }

    /// Events that a journal kept happen again, the oldest first: no frame goes out and nobody is replied to, but the frames are kept for their
    /// peers, and an input that was taken and isn't in the log waits. The one error is want of memory.
    pub(crate) fn recall_all(
        &mut self,
        alloc: Global,
        events: &[Event],
        output: &mut Output,
    ) -> Result<(), Mem>
        ensures happen { let m = meaning_of S.Service E.Broadcast C.Coin in
            (w : Setting) (numbers : List ℕ) → HouseStands m w [] numbers self.old nobody no_peers → AllByRecursion (IsServed w) events.now
            → OnOk result (HouseStands m w (reverse events.now) numbers self.new
            (recalled_waiting w (reverse events.now)) (recalled_peers w (reverse events.now))) }
        ensures memory { OnErr result (events.now ≢ []) }
    {
        for event in events {
            self.recall(alloc, event, output)?;
        }
        Ok(())
    }
}
