//! A world to which events happen: each is a call on one correct replica, whose frames are kept and audited.

use crate::audit::Audit;
use crate::events::happen;
use crate::first::first_replicas;
use crate::laws::agreement;
use crate::made::MadeFrames;
use crate::order::Made;
use crate::seats::{Seats, channels};
use crate::seen::Seen;
use crate::standing::present;
use crate::watch::Watch;
use keyed_channel::{Keys, LazyFrame};
use layer_api::{Broadcast, Service};
use replica::{Replica, made_by_entry};
use ritas_base::{Coin, Event, Mem, Mode, Params, SenderSet};
use std::alloc::Global;

/// A world: its correct replicas, and the frames that they made for each other. A faulty replica has no value here:
/// what it sends is what the events say. Each event happens to one replica, and changes nothing where that is faulty.
#[derive(Drop)]
pub struct World<S: Service, E: Broadcast, C: Coin + Drop> {
    seats: Seats,
    replicas: Vec<Option<Replica<S, E, C>>>,
    made: MadeFrames,
    watch: Watch,
    events: u64,
    live: bool,
}

impl<S: Service, E: Broadcast, C: Coin + Drop> World<S, E, C> {
    ghost use Rattle.std.specs.Prelude.{◌≡◌, ℕ, ◌-◌, ◌^◌, ◌<◌, true, false, List, [], ◌∷◌, length, IsErr, IfOk, OnOk, OnErr, MatchOption};
    ghost use Rattle.std.specs.List.{slice_get};
    ghost use Rattle.std.specs.Option.{option_map};
    ghost use Rattle.ritas_base.specs.declared.event.Event.{Event};
    ghost use Rattle.ritas_base.specs.Members.{has_member};
    ghost use Rattle.keyed_channel.specs.Keyed.{tags_of};
    ghost use Rattle.ritas_core.specs.Rules.{other_form};
    ghost use Rattle.ritas_core.specs.Stands.{meaning};
    ghost use Rattle.world_model.specs.World.{Setting, call_of, states_of};
    ghost use Rattle.world_model.specs.MadeOrder.{made_of, all_made};
    ghost use Rattle.world_model.specs.Audit.{audit_of};
    ghost use Rattle.world_model.specs.Agree.{Agree};
    ghost use Rattle.world_model.specs.Needs.{EventNeeds};
    ghost use Rattle.world_model.specs.Stands.{AreKeys, AreOfVersion, IsWorldOf, IsReplica, AreMembers, AreMembersLeft, frames_between, WorldStands, IsLeft, WorldStopped, is_world_live, EventDoes};
    ghost use Rattle.ritas_base.specs.Events.{MayHappen};

    /// The world of these numbers, mode, correct replicas, and keys and coins of each replica, before any event: a session by
    /// itself, whose logs of commands begin at nothing. The keys are of the mode's version of frames. Those of a faulty replica serve for frames that events seal with them; its coin
    /// isn't used. The one error is want of memory.
    pub fn new(
        alloc: Global,
        p: Params,
        mode: Mode,
        correct: SenderSet,
        keys: Vec<Keys>,
        coins: Vec<C>,
    ) -> Result<Self, Mem>
        requires rows { length keys.items ≡ p.n }
        requires tosses { length coins.items ≡ p.n }
        requires own { AreKeys p.n keys.items }
        requires version { AreOfVersion mode.version keys.items }
        requires within { (i : ℕ) → has_member correct i ≡ true → i < p.n }
        requires form { E.FORM ≡ other_form mode }
        requires served { S.rules.serves mode.root ≡ true }
        ensures { IfOk result (λ world. (w : Setting)
            → IsWorldOf (meaning S.stands S.rules S.shown E.stands E.rules E.shown C.bits (λ k. k.me) tags_of)
            p mode correct keys.items coins.items w
            → WorldStands (meaning S.stands S.rules S.shown E.stands E.rules E.shown C.bits (λ k. k.me) tags_of) world w []) }
    {
        let replicas = first_replicas(alloc, p, mode, correct, keys.as_slice(), coins)?;
        let made = MadeFrames::new(alloc, p.n())?;
        let keys = channels(alloc, keys)?;
        Ok(World {
            seats: Seats {
                params: p,
                mode,
                correct,
                keys,
            },
            replicas,
            made,
            watch: Watch::new(alloc),
            events: 0,
            live: true,
        })
    }

    /// An event happens, and what became of it is answered. Its numbers are to be those of replicas, below n, and a
    /// frame's receiver not its sender. The one error is want of memory, as which more than 2^32 frames of one replica for
    /// another count too: the world stops, and answers it to every later event too. It then shows what it showed before
    /// the event that stopped it; the replica that this came to may have taken it.
    ///
    /// No memory is needed, and so the error doesn't come of itself, for an event that is missed, a frame that doesn't open
    /// or whose body spells no item, an input that is refused, and a turn where no item waits. A body that is to be sealed
    /// for a correct replica needs it in any case.
    pub fn event(&mut self, alloc: Global, ev: &Event) -> Result<Seen, Mem>
        ensures does { (w : Setting) (es : List Event)
            → WorldStands (meaning S.stands S.rules S.shown E.stands E.rules E.shown C.bits (λ k. k.me) tags_of) self.old w es
            → MayHappen w.numbers.n ev.now → length es < 2 ^ 64 - 1
            → EventDoes (meaning S.stands S.rules S.shown E.stands E.rules E.shown C.bits (λ k. k.me) tags_of) self.new w es ev.now result }
        ensures needs { (w : Setting) (es : List Event)
            → WorldStands (meaning S.stands S.rules S.shown E.stands E.rules E.shown C.bits (λ k. k.me) tags_of) self.old w es
            → MayHappen w.numbers.n ev.now → length es < 2 ^ 64 - 1
            → OnErr result (EventNeeds w (states_of w es) ev.now) }
        ensures after { (w : Setting) (es : List Event) (e : Event)
            → WorldStopped (meaning S.stands S.rules S.shown E.stands E.rules E.shown C.bits (λ k. k.me) tags_of) self.old w es e
            → IsErr result × WorldStopped (meaning S.stands S.rules S.shown E.stands E.rules E.shown C.bits (λ k. k.me) tags_of) self.new w es e }
        ensures stops { OnErr result (is_world_live self.new ≡ false) }
        ensures stopped { OnOk result (is_world_live self.old ≡ true) }
    {
        made_by_entry();
        if !self.live {
            return Err(Mem);
        }
        self.live = false;
        let happened = happen(
            alloc,
            &self.seats,
            &self.made,
            self.replicas.as_mut_slice(),
            ev,
        )?;
        let verdict = self.watch.judge(
            alloc,
            &self.seats,
            happened.at,
            happened.forged,
            happened.taken.as_ref(),
            self.events,
        )?;
        self.made.add(self.events, happened.at, happened.out)?;
        self.watch.settle(verdict);
        self.events = self.events.wrapping_add(1);
        self.live = true;
        Ok(happened.seen)
    }

    /// Whether no event was without memory.
    pub fn live(&self) -> bool
        ensures { result ≡ is_world_live self.now }
    {
        self.live
    }

    /// Whether the world's premises held: at least n - f replicas are correct, and no event forged or collided. If not, the
    /// first event that breaks one; one that does both forged. Where they held, the correct replicas agree: their logs of
    /// commands are prefixes of one list, with each command once; each command there was submitted at a correct replica; no
    /// two of them decide differently in any instance; and no vector consensus of theirs is spent, as `agreement_each` says.
    /// A stopped world's is the audit of the events before the one that stopped it; `stopped_between` says what its replicas'
    /// rows are.
    pub fn audit(&self) -> Audit
        ensures is { (w : Setting) (es : List Event)
            → WorldStands (meaning S.stands S.rules S.shown E.stands E.rules E.shown C.bits (λ k. k.me) tags_of) self.now w es
            → result ≡ audit_of w es }
        ensures agree { (w : Setting) (es : List Event)
            → WorldStands (meaning S.stands S.rules S.shown E.stands E.rules E.shown C.bits (λ k. k.me) tags_of) self.now w es
            → result ≡ Audit.Holds → Agree w es }
        ensures stopped { (w : Setting) (es : List Event) (e : Event)
            → WorldStopped (meaning S.stands S.rules S.shown E.stands E.rules E.shown C.bits (λ k. k.me) tags_of) self.now w es e
            → result ≡ audit_of w es }
        ensures stopped_agree { (w : Setting) (es : List Event) (e : Event)
            → WorldStopped (meaning S.stands S.rules S.shown E.stands E.rules E.shown C.bits (λ k. k.me) tags_of) self.now w es e
            → result ≡ Audit.Holds → Agree w es }
    {
        agreement::<S, E>();
        if self.seats.correct.len() < self.seats.params.wait() {
            return Audit::TooManyFaulty;
        }
        self.watch.verdict()
    }

    /// The replica of this number, where it is correct. In a stopped world that to which the last event came is as it was
    /// before that, or as it was to be after it, or stopped by it: `stopped_between` says what its log has.
    pub fn replica(&self, i: u8) -> Option<&Replica<S, E, C>>
        ensures is { (w : Setting) (es : List Event)
            → WorldStands (meaning S.stands S.rules S.shown E.stands E.rules E.shown C.bits (λ k. k.me) tags_of) self.now w es
            → MatchOption result
            (w.is_correct i ≡ false)
            (λ replica. IsReplica (meaning S.stands S.rules S.shown E.stands E.rules E.shown C.bits (λ k. k.me) tags_of)
            w (states_of w es) i replica.now) }
        ensures stopped { (w : Setting) (es : List Event) (e : Event)
            → WorldStopped (meaning S.stands S.rules S.shown E.stands E.rules E.shown C.bits (λ k. k.me) tags_of) self.now w es e
            → MatchOption result
            (w.is_correct i ≡ false)
            (λ replica. IsLeft (meaning S.stands S.rules S.shown E.stands E.rules E.shown C.bits (λ k. k.me) tags_of)
            w (states_of w es) (states_of w (e ∷ es)) (call_of w (states_of w es) e) i replica.now) }
    {
        match self.replicas.get(usize::from(i)) {
            Some(place) => place.as_ref(),
            None => None,
        }
    }

    /// The correct replicas, in their order, without the rest of their world. The one error is want of memory. Those of a
    /// stopped world are as `replica` says: that to which the last event came is as it was before that, or as it was to be
    /// after it, or stopped by it.
    pub fn into_replicas(self, alloc: Global) -> Result<Vec<Replica<S, E, C>>, Mem>
        ensures is { (w : Setting) (es : List Event)
            → WorldStands (meaning S.stands S.rules S.shown E.stands E.rules E.shown C.bits (λ k. k.me) tags_of) self w es
            → IfOk result (λ replicas. AreMembers (meaning S.stands S.rules S.shown E.stands E.rules E.shown C.bits (λ k. k.me) tags_of)
            w (states_of w es) replicas.items) }
        ensures stopped { (w : Setting) (es : List Event) (e : Event)
            → WorldStopped (meaning S.stands S.rules S.shown E.stands E.rules E.shown C.bits (λ k. k.me) tags_of) self w es e
            → IfOk result (λ replicas. AreMembersLeft (meaning S.stands S.rules S.shown E.stands E.rules E.shown C.bits (λ k. k.me) tags_of)
            w (states_of w es) (states_of w (e ∷ es)) (call_of w (states_of w es) e) replicas.items) }
    {
        present(alloc, self.replicas)
    }

    /// The frames that one replica made for another, the oldest first. A faulty one made none, and none makes frames for
    /// itself. From or for a number that no replica has there are none. The tag of each is computed once its bytes are asked
    /// for.
    pub fn frames_made(&self, from: u8, to: u8) -> &[LazyFrame]
        ensures is { (w : Setting) (es : List Event)
            → WorldStands (meaning S.stands S.rules S.shown E.stands E.rules E.shown C.bits (λ k. k.me) tags_of) self.now w es
            → result.now ≡ frames_between w (states_of w es) from to }
        ensures stopped { (w : Setting) (es : List Event) (e : Event)
            → WorldStopped (meaning S.stands S.rules S.shown E.stands E.rules E.shown C.bits (λ k. k.me) tags_of) self.now w es e
            → result.now ≡ frames_between w (states_of w es) from to }
    {
        if to >= self.seats.params.n() {
            return &[];
        }
        self.made.frames(from, to)
    }

    /// How many frames correct replicas made.
    pub fn made_count(&self) -> usize
        ensures is { (w : Setting) (es : List Event)
            → WorldStands (meaning S.stands S.rules S.shown E.stands E.rules E.shown C.bits (λ k. k.me) tags_of) self.now w es
            → result ≡ length (all_made w es) }
        ensures stopped { (w : Setting) (es : List Event) (e : Event)
            → WorldStopped (meaning S.stands S.rules S.shown E.stands E.rules E.shown C.bits (λ k. k.me) tags_of) self.now w es e
            → result ≡ length (all_made w es) }
    {
        self.made.count()
    }

    /// The frame of this number, from 0, in the order in which they were made. No number beyond the last has one.
    pub fn made(&self, at: usize) -> Option<Made<'_>>
        ensures is { (w : Setting) (es : List Event)
            → WorldStands (meaning S.stands S.rules S.shown E.stands E.rules E.shown C.bits (λ k. k.me) tags_of) self.now w es
            → option_map made_of result ≡ slice_get (all_made w es) at }
        ensures stopped { (w : Setting) (es : List Event) (e : Event)
            → WorldStopped (meaning S.stands S.rules S.shown E.stands E.rules E.shown C.bits (λ k. k.me) tags_of) self.now w es e
            → option_map made_of result ≡ slice_get (all_made w es) at }
    {
        self.made.made(at)
    }

    /// How many events happened: the one that stopped the world is none of them.
    pub fn events(&self) -> u64
        ensures is { (w : Setting) (es : List Event)
            → WorldStands (meaning S.stands S.rules S.shown E.stands E.rules E.shown C.bits (λ k. k.me) tags_of) self.now w es
            → result ≡ length es }
        ensures stopped { (w : Setting) (es : List Event) (e : Event)
            → WorldStopped (meaning S.stands S.rules S.shown E.stands E.rules E.shown C.bits (λ k. k.me) tags_of) self.now w es e
            → result ≡ length es }
    {
        self.events
    }
}
