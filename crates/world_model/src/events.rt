//! What an event does to the replicas of a world.

ghost use Rattle.std.specs.Prelude.{◌≡◌, ℕ, ◌<◌, ◌&&◌};
ghost use Rattle.keyed_channel.specs.Keyed.{tags_of};
ghost use Rattle.layer_api.specs.Runs.{Has};
ghost use Rattle.ritas_core.specs.Machine.{CoreState};
ghost use Rattle.ritas_core.specs.Stands.{meaning};
ghost use Rattle.replica.specs.Handling.{Frame, Input, Turn};
ghost use Rattle.world_model.specs.World.{Setting, call_at};
ghost use Rattle.world_model.specs.Stands.{SeatsStand, ReplicasStand, FramesStand, frames_from};
ghost use Rattle.ritas_base.specs.Events.{MayHappen};
ghost use Rattle.world_model.specs.Steps.{CallHappens, EventHappens, is_seen_opened};

use crate::calls::{give_frame, give_input, give_lazy_frame, give_turn};
use crate::happened::Happened;
use crate::made::MadeFrames;
use crate::seats::Seats;
use crate::seen::Seen;
use crate::taken::{frame_item, front_item, if_took, lazy_frame_item};
use frame_codec::spelled;
use keyed_channel::LazyFrame;
use layer_api::{Broadcast, Service};
use replica::{Refusal, Replica};
use ritas_base::{Coin, Event, Mem};
use std::alloc::Global;

// Whether a frame that was seen so opened, and this holds.
fn is_opened_and(seen: &Seen, is_unmade: bool) -> bool
    ensures { result ≡ (is_seen_opened seen.now && is_unmade) }
{
    match seen {
        Seen::Missed => false,
        Seen::Refused(Refusal::Open(_)) => false,
        _ => is_unmade,
    }
}

// A frame comes to a replica. It forges where it opens as from a correct replica that hadn't made it.
fn frame_comes<S: Service, E: Broadcast, C: Coin + Drop>(
    alloc: Global,
    seats: &Seats,
    made: &MadeFrames,
    replicas: &mut [Option<Replica<S, E, C>>],
    to: u8,
    bytes: &[u8],
) -> Result<Happened, Mem>
    ensures { (w : Setting) (states : ℕ → CoreState) → SeatsStand w seats.now → FramesStand w states made.now
        → ReplicasStand (meaning S.stands S.rules S.shown E.stands E.rules E.shown C.bits (λ k. k.me) tags_of) w states replicas.old
        → CallHappens (meaning S.stands S.rules S.shown E.stands E.rules E.shown C.bits (λ k. k.me) tags_of) w states
        (call_at w to (Frame bytes.now)) replicas.new result }
{
    spelled();
    let mut out = Vec::new(alloc);
    let seen = give_frame(alloc, replicas, to, bytes, &mut out)?;
    let is_unmade = seats.is_unmade(made, to, bytes);
    let forged = is_opened_and(&seen, is_unmade);
    let taken = frame_item(alloc, &seats.params, &seats.mode, &seen, bytes)?;
    Ok(Happened {
        at: to,
        seen,
        forged,
        taken,
        out,
    })
}

// An input comes to a replica.
fn input_comes<S: Service, E: Broadcast, C: Coin + Drop>(
    alloc: Global,
    replicas: &mut [Option<Replica<S, E, C>>],
    at: u8,
    bytes: &[u8],
) -> Result<Happened, Mem>
    ensures { (w : Setting) (states : ℕ → CoreState)
        → ReplicasStand (meaning S.stands S.rules S.shown E.stands E.rules E.shown C.bits (λ k. k.me) tags_of) w states replicas.old
        → CallHappens (meaning S.stands S.rules S.shown E.stands E.rules E.shown C.bits (λ k. k.me) tags_of) w states
        (call_at w at (Input bytes.now)) replicas.new result }
{
    let mut out = Vec::new(alloc);
    let seen = give_input(alloc, replicas, at, bytes, &mut out)?;
    Ok(Happened {
        at,
        seen,
        forged: false,
        taken: None,
        out,
    })
}

// A replica takes a turn.
fn turn_comes<S: Service, E: Broadcast, C: Coin + Drop>(
    alloc: Global,
    seats: &Seats,
    replicas: &mut [Option<Replica<S, E, C>>],
    at: u8,
) -> Result<Happened, Mem>
    ensures { (w : Setting) (states : ℕ → CoreState) → SeatsStand w seats.now
        → ReplicasStand (meaning S.stands S.rules S.shown E.stands E.rules E.shown C.bits (λ k. k.me) tags_of) w states replicas.old
        → CallHappens (meaning S.stands S.rules S.shown E.stands E.rules E.shown C.bits (λ k. k.me) tags_of) w states
        (call_at w at Turn) replicas.new result }
{
    let front = front_item(alloc, &seats.mode, replicas, at)?;
    let mut out = Vec::new(alloc);
    let seen = give_turn(alloc, replicas, at, &mut out)?;
    let taken = if_took(&seen, front);
    Ok(Happened {
        at,
        seen,
        forged: false,
        taken,
        out,
    })
}

// A frame comes to a replica from the one that made it for it, so it doesn't forge.
fn made_comes<S: Service, E: Broadcast, C: Coin + Drop>(
    alloc: Global,
    seats: &Seats,
    replicas: &mut [Option<Replica<S, E, C>>],
    to: u8,
    frame: &LazyFrame,
) -> Result<Happened, Mem>
    ensures { (w : Setting) (states : ℕ → CoreState) → SeatsStand w seats.now
        → ReplicasStand (meaning S.stands S.rules S.shown E.stands E.rules E.shown C.bits (λ k. k.me) tags_of) w states replicas.old
        → (from : ℕ) → from < w.numbers.n → Has (frames_from w states from to) frame.now
        → CallHappens (meaning S.stands S.rules S.shown E.stands E.rules E.shown C.bits (λ k. k.me) tags_of) w states
        (call_at w to (Frame frame.now)) replicas.new result }
{
    spelled();
    let mut out = Vec::new(alloc);
    let seen = give_lazy_frame(alloc, replicas, to, frame, &mut out)?;
    let taken = lazy_frame_item(alloc, &seats.params, &seats.mode, &seen, frame)?;
    let forged = false;
    Ok(Happened {
        at: to,
        seen,
        forged,
        taken,
        out,
    })
}

// A frame that one replica made for another comes to it, if there is one of this number.
fn frame_passes<S: Service, E: Broadcast, C: Coin + Drop>(
    alloc: Global,
    seats: &Seats,
    made: &MadeFrames,
    replicas: &mut [Option<Replica<S, E, C>>],
    from: u8,
    to: u8,
    number: u32,
) -> Result<Happened, Mem>
    ensures { (w : Setting) (states : ℕ → CoreState) → SeatsStand w seats.now → FramesStand w states made.now
        → ReplicasStand (meaning S.stands S.rules S.shown E.stands E.rules E.shown C.bits (λ k. k.me) tags_of) w states replicas.old
        → MayHappen w.numbers.n (Event.Pass from to number)
        → EventHappens (meaning S.stands S.rules S.shown E.stands E.rules E.shown C.bits (λ k. k.me) tags_of) w states
        (Event.Pass from to number) replicas.new result }
{
    match made.frames(from, to).get(number as usize) {
        Some(frame) => made_comes(alloc, seats, replicas, to, frame),
        None => Ok(Happened::nothing(alloc, to)),
    }
}

// A frame that seals a body with the sender's keys comes to a replica.
fn sealed_comes<S: Service, E: Broadcast, C: Coin + Drop>(
    alloc: Global,
    seats: &Seats,
    made: &MadeFrames,
    replicas: &mut [Option<Replica<S, E, C>>],
    from: u8,
    to: u8,
    body: &[u8],
) -> Result<Happened, Mem>
    ensures { (w : Setting) (states : ℕ → CoreState) → SeatsStand w seats.now → FramesStand w states made.now
        → ReplicasStand (meaning S.stands S.rules S.shown E.stands E.rules E.shown C.bits (λ k. k.me) tags_of) w states replicas.old
        → MayHappen w.numbers.n (Event.Sealed from to body.now)
        → EventHappens (meaning S.stands S.rules S.shown E.stands E.rules E.shown C.bits (λ k. k.me) tags_of) w states
        (Event.Sealed from to body.now) replicas.new result }
{
    match seats.keys.get(usize::from(from)) {
        Some(keys) => {
            if to >= keys.keys().n() {
                return Ok(Happened::nothing(alloc, to));
            }
            // For a faulty receiver nothing is sealed.
            if !seats.correct.has(to) {
                return Ok(Happened::nothing(alloc, to));
            }
            let frame = keys.seal(alloc, to, 0, body)?;
            frame_comes(alloc, seats, made, replicas, to, frame.as_slice())
        }
        None => Ok(Happened::nothing(alloc, to)),
    }
}

/// What an event does to the replicas. The one error is want of memory.
pub(crate) fn happen<S: Service, E: Broadcast, C: Coin + Drop>(
    alloc: Global,
    seats: &Seats,
    made: &MadeFrames,
    replicas: &mut [Option<Replica<S, E, C>>],
    ev: &Event,
) -> Result<Happened, Mem>
    ensures { (w : Setting) (states : ℕ → CoreState) → SeatsStand w seats.now → FramesStand w states made.now
        → ReplicasStand (meaning S.stands S.rules S.shown E.stands E.rules E.shown C.bits (λ k. k.me) tags_of) w states replicas.old
        → MayHappen w.numbers.n ev.now
        → EventHappens (meaning S.stands S.rules S.shown E.stands E.rules E.shown C.bits (λ k. k.me) tags_of) w states
        ev.now replicas.new result }
{
    match ev {
        Event::Frame { to, bytes } => {
            frame_comes(alloc, seats, made, replicas, *to, bytes.as_slice())
        }
        Event::Input { at, bytes } => input_comes(alloc, replicas, *at, bytes.as_slice()),
        Event::Turn { at } => turn_comes(alloc, seats, replicas, *at),
        Event::Pass { from, to, m } => {
            frame_passes(alloc, seats, made, replicas, *from, *to, *m)
        }
        Event::Sealed { from, to, body } => {
            sealed_comes(alloc, seats, made, replicas, *from, *to, body.as_slice())
        }
    }
}
