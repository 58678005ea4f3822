//! Writing the frames that were made, in pieces.
ghost use Rattle.std.specs.Prelude.{◌≡◌, ◌≢◌, ◌++◌, List, ℕ, [], true, OnOk, MatchResult, string_bytes};
ghost use Rattle.std.specs.List.{flat_map};
ghost use Rattle.outside.specs.Faults.{CountsFault, HasCause};
ghost use Rattle.outside.specs.Writing.{TookFront, Writes};
ghost use Rattle.ritas_base.specs.declared.event.Event.{Event};
ghost use Rattle.keyed_channel.specs.Keyed.{tags_of};
ghost use Rattle.ritas_core.specs.Stands.{meaning};
ghost use Rattle.world_model.specs.Audit.{audit_of};
ghost use Rattle.world_model.specs.MadeOrder.{made_of, all_made};
ghost use Rattle.world_model.specs.Stands.{WorldStands};
ghost use Rattle.world_model.specs.World.{Setting};
ghost use Rattle.schedule_replay.specs.Frames.{frame_line, frames_on, HoldsRest};

use crate::cut::{Cut, put};
use crate::lines::audit_line;
use layer_api::{Broadcast, Service};
use outside::Sink;
use ritas_base::{Coin, Mem};
use std::alloc::Global;
use std::fmt::Write;
use world_model::{Audit, Made, World};

// A text that is as long as this, or longer, is written.
const PIECE: usize = 16_384;

// Appends the line of a frame.
fn add_frame(alloc: Global, text: &mut String, made: Made<'_>) -> Result<(), Mem>
    ensures { OnOk result (string_bytes text.new ≡ string_bytes text.old ++ frame_line (made_of made.entry)) }
{
    let event = made.event;
    let from = made.from;
    let to = made.to;
    let bytes = made.frame.to_bytes(alloc)?;
    let frame = hex::encode(alloc, bytes.as_slice())?;
    write!(text, "{event} {from} {to} {frame}\n")?;
    Ok(())
}

// Writes the text that is held, and then holds none.
fn flush<K: Sink>(sink: &mut K, text: &mut String) -> Result<(), Cut>
    ensures writes { Writes (string_bytes text.old) K.tells (K.taken sink.old) (K.taken sink.new) (K.faults sink.old) (K.faults sink.new)
        result (result ≡ Err Cut.Write) }
    ensures cleared { OnOk result (string_bytes text.new ≡ []) }
{
    put(sink, text.as_bytes())?;
    text.clear();
    Ok(())
}

// The line of a frame goes onto the text that is held, which is written where it is long.
fn write_frame<K: Sink>(
    alloc: Global,
    sink: &mut K,
    text: &mut String,
    made: Made<'_>,
) -> Result<(), Cut>
    ensures lines { K.tells ≡ true → (old lines : List ℕ) → HoldsRest old (K.taken sink.old) (string_bytes text.old) lines → MatchResult result
        (λ _. HoldsRest old (K.taken sink.new) (string_bytes text.new) (lines ++ frame_line (made_of made.entry)))
        (λ _. TookFront old (K.taken sink.new) (lines ++ frame_line (made_of made.entry))) }
    ensures cause { HasCause (K.faults sink.old) (K.faults sink.new) (result ≡ Err Cut.Write) }
    ensures counts { CountsFault (K.faults sink.old) (K.faults sink.new) result (result ≡ Err Cut.Write) }
{
    add_frame(alloc, text, made)?;
    if text.len() >= PIECE {
        flush(sink, text)?;
    }
    Ok(())
}

// The lines of all frames go onto the text that is held, which is written from time to time.
fn write_lines<S: Service, E: Broadcast, C: Coin + Drop, K: Sink>(
    alloc: Global,
    sink: &mut K,
    text: &mut String,
    world: &World<S, E, C>,
) -> Result<(), Cut>
    ensures lines { let m = meaning S.stands S.rules S.shown E.stands E.rules E.shown C.bits (λ k. k.me) tags_of in
        K.tells ≡ true → (w : Setting) (es : List Event) → WorldStands m world.now w es → string_bytes text.old ≡ [] → MatchResult result
        (λ _. HoldsRest (K.taken sink.old) (K.taken sink.new) (string_bytes text.new) (flat_map frame_line (all_made w es)))
        (λ _. TookFront (K.taken sink.old) (K.taken sink.new) (flat_map frame_line (all_made w es))) }
    ensures cause { HasCause (K.faults sink.old) (K.faults sink.new) (result ≡ Err Cut.Write) }
    ensures counts { CountsFault (K.faults sink.old) (K.faults sink.new) result (result ≡ Err Cut.Write) }
{
    for at in 0..world.made_count() {
        match world.made(at) {
            Some(made) => write_frame(alloc, sink, text, made)?,
            None => {}
        }
    }
    Ok(())
}

/// Writes the lines of the frames that were made, and that of an audit. Where memory runs out, a front was written.
pub(crate) fn write_frames<S: Service, E: Broadcast, C: Coin + Drop, K: Sink>(
    alloc: Global,
    sink: &mut K,
    world: &World<S, E, C>,
    audit: Audit,
) -> Result<(), Cut>
    ensures writes { let m = meaning S.stands S.rules S.shown E.stands E.rules E.shown C.bits (λ k. k.me) tags_of in
        (w : Setting) (es : List Event) → WorldStands m world.now w es → audit ≡ audit_of w es
        → Writes (frames_on w es) K.tells (K.taken sink.old) (K.taken sink.new) (K.faults sink.old) (K.faults sink.new)
        result (result ≡ Err Cut.Write) }
    ensures counts { CountsFault (K.faults sink.old) (K.faults sink.new) result (result ≡ Err Cut.Write) }
{
    let mut text = String::new(alloc);
    write_lines(alloc, sink, &mut text, world)?;
    let last = audit_line(alloc, audit)?;
    text.push_str(last.as_str())?;
    put(sink, text.as_bytes())
}
