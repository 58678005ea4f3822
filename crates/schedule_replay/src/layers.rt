//! Replaying a schedule in the layers that its header names.
ghost use Rattle.std.specs.Prelude.{◌≡◌, ◌==◌, [], true};
ghost use Rattle.ritas_core.specs.Rules.{other_form};
ghost use Rattle.schedule_file.specs.declared.stage.Stage.TheVariants.{Open};
ghost use Rattle.schedule_file.specs.ReadHeader.{heading};
ghost use Rattle.schedule_file.specs.Schedule.{file_of};
ghost use Rattle.schedule_file.specs.Scopes.{scope_of};
ghost use Rattle.schedule_file.specs.Spelling.{IsHeading};
ghost use Rattle.world_model.specs.declared.audit.Audit.{Audit};
ghost use Rattle.schedule_replay.specs.Layers.{setting_by, setting_of, other_of};
ghost use Rattle.schedule_replay.specs.Onto.{more_events};
ghost use Rattle.schedule_replay.specs.Replay.{ReplayEnded, ShowsEvents, ShowsFile, has_text, asked_behind, asked_of};

use crate::end::{ReplayEnd, end_at};
use crate::played::load;
use crate::write::show;
use atomic_bcast::{Abc, CmdRoot};
use binary_consensus::{Bin, BinRoot};
use direct_atomic::Direct;
use echo_bcast::Eb;
use layer_api::{Broadcast, Service};
use multivalued::{Mvc, MvcRoot};
use outside::{Sink, Source};
use reliable_bcast::{DigestRb, Rb};
use ritas_base::{FrameVersion, Mode, RootService, Vect, What};
use schedule_file::{FileFault, Header, Reader};
use std::alloc::Global;
use vector_consensus::{Vc, VcRoot};

// Whether there is such a text of a schedule of this mode. Vectors are decided where consensus is tried again, in root services
// 5 and 6 alone.
fn has_text(what: What, mode: Mode) -> bool
    ensures { result ≡ has_text what mode.root }
{
    match what {
        What::Report | What::Frames => true,
        What::Vectors => mode.service().has_tries(),
    }
}

// Replays a schedule whose header was read, in a world of these layers. One that has no such text is refused once it was read to
// its end, for its root service.
fn replay_as<S: Service, E: Broadcast, I: Source, K: Sink>(
    alloc: Global,
    header: Header,
    reader: &mut Reader,
    src: &mut I,
    sink: &mut K,
    what: What,
) -> ReplayEnd
    requires heading { IsHeading (heading header) }
    requires serves { S.rules.serves header.mode.root ≡ true }
    requires form { E.FORM ≡ other_form header.mode }
    requires open { reader.old.stage ≡ Open }
    requires scope { reader.old.scope ≡ scope_of (heading header) }
    ensures ended { ReplayEnded I.faults src.old src.new K.faults sink.old sink.new what result }
    ensures to_its_end { I.tells ≡ true → (a : Audit) → result ≡ ReplayEnd.Done a → I.left src.new ≡ [] }
    ensures shows { I.tells ≡ true → ShowsEvents K.tells K.taken sink.old sink.new what result header
        (setting_by S.rules E.rules header) (asked_behind what header.mode.root (more_events [] reader.old (I.left src.old))) }
{
    let is_there = has_text(what, header.mode);
    match load::<S, E, I>(alloc, header, reader, src) {
        Ok(x) if is_there => show(alloc, sink, &x, what),
        Ok(_) => ReplayEnd::File(FileFault::Header(15)),
        Err(fault) => end_at(fault),
    }
}

/// The form of the broadcast that a mode has beside its reliable one: 1 reliable with values, 2 echo, 3 reliable with digests.
#[tactic(auto, unfolding(ritas_core::specs::Rules::other_form))]
pub fn other_form(mode: &Mode) -> u8
    ensures { result ≡ other_form mode.now }
{
    let of_vects = match (mode.vect, mode.version) {
        (Vect::Echo, FrameVersion::One | FrameVersion::Two | FrameVersion::Three) => 2,
        (Vect::Reliable, FrameVersion::One) => 1,
        (Vect::Reliable, FrameVersion::Two | FrameVersion::Three) => 3,
    };
    match mode.service() {
        RootService::Echo => 2,
        RootService::Reliable
        | RootService::Binary
        | RootService::MultiValued
        | RootService::Vector
        | RootService::Atomic
        | RootService::Direct => of_vects,
    }
}

// Replays a schedule whose header was read, in a world of this service and the broadcasts of its mode.
fn replay_with<S: Service, I: Source, K: Sink>(
    alloc: Global,
    header: Header,
    reader: &mut Reader,
    src: &mut I,
    sink: &mut K,
    what: What,
) -> ReplayEnd
    requires heading { IsHeading (heading header) }
    requires serves { S.rules.serves header.mode.root ≡ true }
    requires open { reader.old.stage ≡ Open }
    requires scope { reader.old.scope ≡ scope_of (heading header) }
    ensures ended { ReplayEnded I.faults src.old src.new K.faults sink.old sink.new what result }
    ensures to_its_end { I.tells ≡ true → (a : Audit) → result ≡ ReplayEnd.Done a → I.left src.new ≡ [] }
    ensures shows { I.tells ≡ true → ShowsEvents K.tells K.taken sink.old sink.new what result header
        (setting_by S.rules (other_of header.mode) header) (asked_behind what header.mode.root (more_events [] reader.old (I.left src.old))) }
{
    let form = other_form(&header.mode);
    if form == 2 {
        replay_as::<S, Eb, I, K>(alloc, header, reader, src, sink, what)
    } else if form == 3 {
        replay_as::<S, DigestRb, I, K>(alloc, header, reader, src, sink, what)
    } else {
        replay_as::<S, Rb, I, K>(alloc, header, reader, src, sink, what)
    }
}

// Replays a schedule whose header was read.
fn replay_events<I: Source, K: Sink>(
    alloc: Global,
    header: Header,
    reader: &mut Reader,
    src: &mut I,
    sink: &mut K,
    what: What,
) -> ReplayEnd
    requires heading { IsHeading (heading header) }
    requires open { reader.old.stage ≡ Open }
    requires scope { reader.old.scope ≡ scope_of (heading header) }
    ensures ended { ReplayEnded I.faults src.old src.new K.faults sink.old sink.new what result }
    ensures to_its_end { I.tells ≡ true → (a : Audit) → result ≡ ReplayEnd.Done a → I.left src.new ≡ [] }
    ensures shows { I.tells ≡ true → ShowsEvents K.tells K.taken sink.old sink.new what result header
        (setting_of header) (asked_behind what header.mode.root (more_events [] reader.old (I.left src.old))) }
{
    match header.mode.service() {
        RootService::Reliable | RootService::Echo => {
            replay_with::<CmdRoot, I, K>(alloc, header, reader, src, sink, what)
        }
        RootService::Binary => {
            replay_with::<BinRoot<Bin>, I, K>(alloc, header, reader, src, sink, what)
        }
        RootService::MultiValued => {
            replay_with::<MvcRoot<Mvc<Bin>>, I, K>(alloc, header, reader, src, sink, what)
        }
        RootService::Vector => {
            replay_with::<VcRoot<Vc<Mvc<Bin>>>, I, K>(alloc, header, reader, src, sink, what)
        }
        RootService::Atomic => {
            replay_with::<Abc<Vc<Mvc<Bin>>>, I, K>(alloc, header, reader, src, sink, what)
        }
        RootService::Direct => {
            replay_with::<Direct<Mvc<Bin>>, I, K>(alloc, header, reader, src, sink, what)
        }
    }
}

/// Reads a schedule file to its end, lets its events happen to a world of replicas as it is read, and then writes what
/// is asked for of that world.
///
/// At `Done` the whole text was written, and in any case a front of it. Where the audit then holds, the correct replicas
/// agree: their logs of commands are prefixes of one list, with each command once; each command there was submitted at a
/// correct replica; and no two of them decide differently in any instance. Then no line of the text of
/// their vectors says that attempts are spent, and lines of one round are equal but for the replica's number. At `File`
/// nothing was written, nor at `Mem` unless frames are asked for. `File(Header(15))` is answered also where vectors are asked
/// for of a file without a fault whose root service isn't 5 or 6. `File(Read)` is answered just where a call of the source failed,
/// and `Write` just where one of the sink did. `File(Mem)` is never answered: `Mem` is, where there was not enough memory.
pub fn replay<S: Source, K: Sink>(alloc: Global, src: &mut S, sink: &mut K, what: What) -> ReplayEnd
    // For every source and sink, whether or not they tell what they hold.
    ensures ended { ReplayEnded S.faults src.old src.new K.faults sink.old sink.new what result }

    // The text of the file's world is written, or the file's first fault is answered, where a file of which there is no such text
    // has that of its root service last. At `Done` the source was read to its end.
    ensures to_its_end { S.tells ≡ true → (a : Audit) → result ≡ ReplayEnd.Done a → S.left src.new ≡ [] }
    ensures shows { S.tells ≡ true → ShowsFile K.tells K.taken sink.old sink.new what result (asked_of what (file_of (S.left src.old))) }
{
    match Reader::start(alloc, src) {
        Ok((header, mut reader)) => replay_events(alloc, header, &mut reader, src, sink, what),
        Err(fault) => end_at(fault),
    }
}
