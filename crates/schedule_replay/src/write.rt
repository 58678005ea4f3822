//! Writing what is asked for of a world.
ghost use Rattle.std.specs.Prelude.{◌≡◌, ◌≢◌, List, ℕ, true, IfOk, string_bytes};
ghost use Rattle.outside.specs.Faults.{CountsFault};
ghost use Rattle.outside.specs.Writing.{Writes};
ghost use Rattle.ritas_base.specs.declared.event.Event.{Event};
ghost use Rattle.ritas_core.specs.Rules.{other_form};
ghost use Rattle.schedule_file.specs.declared.fault.FileFault.{FileFault};
ghost use Rattle.schedule_replay.specs.Layers.{setting_by, layers_by};
ghost use Rattle.schedule_replay.specs.Replay.{CountsIf, ShowsWorld};
ghost use Rattle.schedule_replay.specs.Played.{PlayedStandsFor, header_in};

use crate::cut::{Cut, put};
use crate::end::ReplayEnd;
use crate::frames::write_frames;
use crate::played::Played;
use crate::report::report_text;
use crate::vectors::vectors_text;
use layer_api::{Broadcast, Service};
use outside::Sink;
use ritas_base::What;
use std::alloc::{AllocError, Global};
use world_model::Audit;

// Writes a text that was made whole. Where there was no memory for it, nothing is written.
fn write_whole<K: Sink>(sink: &mut K, text: Result<String, AllocError>) -> Result<(), Cut>
    ensures writes { (lines : List ℕ) → IfOk text (λ s. string_bytes s ≡ lines)
        → Writes lines K.tells (K.taken sink.old) (K.taken sink.new) (K.faults sink.old) (K.faults sink.new)
        result (result ≡ Err Cut.Write) }
    ensures counts { CountsFault (K.faults sink.old) (K.faults sink.new) result (result ≡ Err Cut.Write) }
    ensures memory { result ≡ Err Cut.Mem → sink.new ≡ sink.old }
{
    match text {
        Ok(text) => put(sink, text.as_bytes()),
        Err(_) => Err(Cut::Mem),
    }
}

/// Writes what is asked for of a world, and ends with its audit: at `Done` the whole text was written, and in any case a
/// front of it. `Write` is answered just where a call of the sink failed. At `Mem` nothing was written, unless frames are asked
/// for. `File` is never answered.
pub fn show<S: Service, E: Broadcast, K: Sink>(
    alloc: Global,
    sink: &mut K,
    x: &Played<S, E>,
    what: What,
) -> ReplayEnd
    requires serves { S.rules.serves (header_in x.now).mode.root ≡ true }
    requires form { E.FORM ≡ other_form (header_in x.now).mode }
    ensures shows { (es : List Event) → PlayedStandsFor (layers_by S.stands S.rules S.shown E.stands E.rules E.shown) x.now es
        → ShowsWorld K.tells K.taken sink.old sink.new what result (header_in x.now) (setting_by S.rules E.rules (header_in x.now)) es }
    ensures counts { CountsIf (K.faults sink.old) (K.faults sink.new) (result ≡ ReplayEnd.Write) }
    ensures own { (e : FileFault) → result ≢ ReplayEnd.File e }
    ensures memory { what ≢ What.Frames → result ≡ ReplayEnd.Mem → sink.new ≡ sink.old }
{
    let audit = x.world.audit();
    let written = match what {
        What::Report => write_whole(sink, report_text(alloc, x, audit)),
        What::Frames => write_frames(alloc, sink, &x.world, audit),
        What::Vectors => write_whole(sink, vectors_text(alloc, x, audit)),
    };
    match written {
        Ok(()) => ReplayEnd::Done(audit),
        Err(Cut::Write) => ReplayEnd::Write,
        Err(Cut::Mem) => ReplayEnd::Mem,
    }
}
