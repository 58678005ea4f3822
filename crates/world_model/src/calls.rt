//! One call on the replica at a place, if there is one.

ghost use Rattle.std.specs.Prelude.{ℕ};
ghost use Rattle.keyed_channel.specs.Keyed.{tags_of};
ghost use Rattle.ritas_core.specs.Machine.{CoreState};
ghost use Rattle.ritas_core.specs.Stands.{meaning};
ghost use Rattle.replica.specs.Handling.{Frame, Input, Turn};
ghost use Rattle.world_model.specs.World.{Setting, call_at};
ghost use Rattle.world_model.specs.Stands.{ReplicasStand};
ghost use Rattle.world_model.specs.Steps.{Sees, CallsOr};

use crate::seen::Seen;
use frame_codec::BodyFault;
use keyed_channel::LazyFrame;
use layer_api::{Broadcast, Service};
use replica::{OutFrame, Refusal, Replica};
use ritas_base::{Coin, Mem};
use ritas_core::{Answer, CoreFault};
use std::alloc::Global;

// What became of an event that a replica answered so: a world answers want of memory in one way.
fn seen(answer: Result<Answer, Refusal>) -> Result<Seen, Mem>
    ensures { Sees answer result }
{
    match answer {
        Ok(answer) => Ok(Seen::Answered(answer)),
        Err(Refusal::Core(CoreFault::Mem)) => Err(Mem),
        Err(Refusal::Body(BodyFault::Mem)) => Err(Mem),
        Err(refusal) => Ok(Seen::Refused(refusal)),
    }
}

/// Gives a frame to the replica at a place.
pub(crate) fn give_frame<S: Service, E: Broadcast, C: Coin + Drop>(
    alloc: Global,
    replicas: &mut [Option<Replica<S, E, C>>],
    at: u8,
    bytes: &[u8],
    out: &mut Vec<OutFrame<LazyFrame>>,
) -> Result<Seen, Mem>
    ensures { (w : Setting) (states : ℕ → CoreState)
        → ReplicasStand (meaning S.stands S.rules S.shown E.stands E.rules E.shown C.bits (λ k. k.me) tags_of) w states replicas.old
        → CallsOr (meaning S.stands S.rules S.shown E.stands E.rules E.shown C.bits (λ k. k.me) tags_of) w states
        (call_at w at (Frame bytes.now)) replicas.new out.old.items out.new.items result }
{
    let place = usize::from(at);
    if place >= replicas.len() {
        return Ok(Seen::Missed);
    }
    match &mut replicas[place] {
        Some(replica) => seen(replica.on_frame_lazily(alloc, bytes, out)),
        None => Ok(Seen::Missed),
    }
}

/// Gives a frame that a channel made to the replica at a place.
pub(crate) fn give_lazy_frame<S: Service, E: Broadcast, C: Coin + Drop>(
    alloc: Global,
    replicas: &mut [Option<Replica<S, E, C>>],
    at: u8,
    frame: &LazyFrame,
    out: &mut Vec<OutFrame<LazyFrame>>,
) -> Result<Seen, Mem>
    ensures { (w : Setting) (states : ℕ → CoreState)
        → ReplicasStand (meaning S.stands S.rules S.shown E.stands E.rules E.shown C.bits (λ k. k.me) tags_of) w states replicas.old
        → CallsOr (meaning S.stands S.rules S.shown E.stands E.rules E.shown C.bits (λ k. k.me) tags_of) w states
        (call_at w at (Frame frame.now)) replicas.new out.old.items out.new.items result }
{
    let place = usize::from(at);
    if place >= replicas.len() {
        return Ok(Seen::Missed);
    }
    match &mut replicas[place] {
        Some(replica) => seen(replica.on_lazy_frame(alloc, frame, out)),
        None => Ok(Seen::Missed),
    }
}

/// Gives an input to the replica at a place.
pub(crate) fn give_input<S: Service, E: Broadcast, C: Coin + Drop>(
    alloc: Global,
    replicas: &mut [Option<Replica<S, E, C>>],
    at: u8,
    bytes: &[u8],
    out: &mut Vec<OutFrame<LazyFrame>>,
) -> Result<Seen, Mem>
    ensures { (w : Setting) (states : ℕ → CoreState)
        → ReplicasStand (meaning S.stands S.rules S.shown E.stands E.rules E.shown C.bits (λ k. k.me) tags_of) w states replicas.old
        → CallsOr (meaning S.stands S.rules S.shown E.stands E.rules E.shown C.bits (λ k. k.me) tags_of) w states
        (call_at w at (Input bytes.now)) replicas.new out.old.items out.new.items result }
{
    let place = usize::from(at);
    if place >= replicas.len() {
        return Ok(Seen::Missed);
    }
    match &mut replicas[place] {
        Some(replica) => seen(replica.on_input_lazily(alloc, bytes, out)),
        None => Ok(Seen::Missed),
    }
}

/// Gives a turn to the replica at a place.
pub(crate) fn give_turn<S: Service, E: Broadcast, C: Coin + Drop>(
    alloc: Global,
    replicas: &mut [Option<Replica<S, E, C>>],
    at: u8,
    out: &mut Vec<OutFrame<LazyFrame>>,
) -> Result<Seen, Mem>
    ensures { (w : Setting) (states : ℕ → CoreState)
        → ReplicasStand (meaning S.stands S.rules S.shown E.stands E.rules E.shown C.bits (λ k. k.me) tags_of) w states replicas.old
        → CallsOr (meaning S.stands S.rules S.shown E.stands E.rules E.shown C.bits (λ k. k.me) tags_of) w states
        (call_at w at Turn) replicas.new out.old.items out.new.items result }
{
    let place = usize::from(at);
    if place >= replicas.len() {
        return Ok(Seen::Missed);
    }
    match &mut replicas[place] {
        Some(replica) => seen(replica.on_turn_lazily(alloc, out)),
        None => Ok(Seen::Missed),
    }
}
