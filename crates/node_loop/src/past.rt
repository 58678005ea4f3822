//! Events that a journal kept go to the tape, many of them in one piece.
ghost use Rattle.std.specs.Prelude.{◌≡◌, ℕ, ◌≤◌, ◌++◌, List, reverse, true, [], OnOk, OnErr};
ghost use Rattle.std.specs.List.{AllByRecursion};
ghost use Rattle.outside.specs.Faults.{count_after};
ghost use Rattle.outside.specs.Writing.{TookFront};
ghost use Rattle.schedule_file.specs.Spelling.{IsSized, event_text};
ghost use Rattle.node_loop.specs.Outs.{events_text};
ghost use Rattle.node_loop.specs.Pieces.{TookAllBut};

use crate::group::ENOUGH_BYTES;
use outside::{Buffer, Failed, Sink, write_all};
use ritas_base::Event;
use schedule_file::Writer;
use std::alloc::Global;

// A piece goes to the tape, and nothing is left of it.
fn hand_on<K: Sink>(tape: &mut K, piece: &mut Buffer) -> Result<(), Failed>
    ensures empty { OnOk result (piece.new.taken ≡ []) }
    ensures whole { OnOk result ((K.faults tape.new ≡ K.faults tape.old)
        × (K.tells ≡ true → (base text : List ℕ)
        → TookAllBut base (K.taken tape.old) text piece.old.taken
        → TookAllBut base (K.taken tape.new) text [])) }
    ensures front { OnErr result ((K.faults tape.new ≡ count_after (K.faults tape.old))
        × (K.faults tape.old ≤ K.faults tape.new)
        × (K.tells ≡ true → (base text : List ℕ)
        → TookAllBut base (K.taken tape.old) text piece.old.taken
        → TookFront base (K.taken tape.new) text)) }
{
    write_all(tape, piece.taken())?;
    piece.clear();
    Ok(())
}

// An event joins a piece. Where there is no memory for it, the piece goes to the tape, and then the
// event by itself.
fn join<K: Sink>(tape: &mut K, piece: &mut Buffer, event: &Event) -> Result<(), Failed>
    requires sized { IsSized event.now }
    ensures whole { OnOk result ((K.faults tape.new ≡ K.faults tape.old)
        × (K.tells ≡ true → (base text : List ℕ)
        → TookAllBut base (K.taken tape.old) text piece.old.taken
        → TookAllBut base (K.taken tape.new) (text ++ event_text event.now) piece.new.taken)) }
    ensures front { OnErr result ((K.faults tape.new ≡ count_after (K.faults tape.old))
        × (K.faults tape.old ≤ K.faults tape.new)
        × (K.tells ≡ true → (base text : List ℕ)
        → TookAllBut base (K.taken tape.old) text piece.old.taken
        → TookFront base (K.taken tape.new) (text ++ event_text event.now))) }
{
    let before = piece.len();
    if Writer::event(piece, event).is_ok() {
        return Ok(());
    }
    write_all(tape, &piece.taken()[..before])?;
    piece.clear();
    Writer::event(tape, event)
}

// An event joins a piece, which goes to the tape once it has enough bytes.
fn put<K: Sink>(tape: &mut K, piece: &mut Buffer, event: &Event) -> Result<(), Failed>
    requires sized { IsSized event.now }
    ensures whole { OnOk result ((K.faults tape.new ≡ K.faults tape.old)
        × (K.tells ≡ true → (base text : List ℕ)
        → TookAllBut base (K.taken tape.old) text piece.old.taken
        → TookAllBut base (K.taken tape.new) (text ++ event_text event.now) piece.new.taken)) }
    ensures front { OnErr result ((K.faults tape.new ≡ count_after (K.faults tape.old))
        × (K.faults tape.old ≤ K.faults tape.new)
        × (K.tells ≡ true → (base text : List ℕ)
        → TookAllBut base (K.taken tape.old) text piece.old.taken
        → TookFront base (K.taken tape.new) (text ++ event_text event.now))) }
{
    join(tape, piece, event)?;
    if piece.len() < ENOUGH_BYTES {
        return Ok(());
    }
    hand_on(tape, piece)
}

/// Writes these events to the tape, the oldest first, in pieces of many events. Where memory runs
/// out a piece has fewer.
pub(crate) fn write_events<K: Sink>(
    alloc: Global,
    tape: &mut K,
    events: &[Event],
) -> Result<(), Failed>
    requires sized { AllByRecursion IsSized events.now }
    ensures whole { OnOk result ((K.faults tape.new ≡ K.faults tape.old)
        × (K.tells ≡ true → K.taken tape.new
        ≡ K.taken tape.old ++ events_text (reverse events.now))) }
    ensures front { OnErr result ((K.faults tape.new ≡ count_after (K.faults tape.old))
        × (K.faults tape.old ≤ K.faults tape.new)
        × (K.tells ≡ true → TookFront (K.taken tape.old) (K.taken tape.new)
        (events_text (reverse events.now)))) }
{
    let mut piece = Buffer::new(alloc);
    for event in events {
        put(tape, &mut piece, event)?;
    }
    hand_on(tape, &mut piece)
}
