//! Making the schedule of a plan, and writing what is asked for.
ghost use Rattle.std.specs.Prelude.{◌≡◌, ◌++◌, ◌∷◌, [], true, IsErr};
ghost use Rattle.outside.specs.Writing.{Writes};
ghost use Rattle.ritas_core.specs.Rules.{other_form};
ghost use Rattle.schedule_replay.specs.Layers.{layers_by, other_of};
ghost use Rattle.schedule_replay.specs.Played.{header_in};
ghost use Rattle.schedule_plan.specs.Plans.{header_of};
ghost use Rattle.schedule_plan.specs.Schedule.{schedule, world_by};
ghost use Rattle.schedule_stage.specs.Stage.{IsFinished};
ghost use Rattle.schedule_drive.specs.Drive.{end_at_halt, drive_end_of, DriveEnded, ShowsIn, ShowsPlan};

use crate::end::DriveEnd;
use crate::laws::has_session;
use crate::making::make;
use atomic_bcast::{Abc, CmdRoot};
use binary_consensus::{Bin, BinRoot};
use direct_atomic::Direct;
use echo_bcast::Eb;
use layer_api::{Broadcast, Service};
use multivalued::{Mvc, MvcRoot};
use outside::{Buffer, Failed, Sink, write_all};
use reliable_bcast::{DigestRb, Rb};
use ritas_base::{DriveWhat, Plan, RootService, What};
use schedule_file::Writer;
use schedule_plan::drive_forges_nothing;
use schedule_replay::{ReplayEnd, other_form, show};
use schedule_stage::{Finished, Halt};
use std::alloc::Global;
use vector_consensus::{Vc, VcRoot};

// Writes a file that was kept, and its end mark.
fn write_file<K: Sink>(sink: &mut K, file: &Buffer) -> Result<(), Failed>
    ensures { Writes (file.now.taken ++ 0 ∷ []) K.tells (K.taken sink.old) (K.taken sink.new) (K.faults sink.old) (K.faults sink.new)
        result (IsErr result) }
{
    write_all(sink, file.taken())?;
    Writer::end(sink)
}

// How a report that was written ended.
fn end_of(end: ReplayEnd) -> DriveEnd
    ensures { result ≡ drive_end_of end }
{
    match end {
        ReplayEnd::Done(audit) => DriveEnd::Done(audit),
        ReplayEnd::Write => DriveEnd::Write,
        _ => DriveEnd::Mem,
    }
}

// The end where the steps of a plan were halted.
fn end_at(halt: Halt) -> DriveEnd
    ensures { result ≡ end_at_halt halt }
{
    match halt {
        Halt::Limit(limit) => DriveEnd::Limit(limit),
        Halt::Mem => DriveEnd::Mem,
    }
}

// Writes what is asked for of a schedule that was made.
fn write<S: Service, E: Broadcast, K: Sink>(
    alloc: Global,
    plan: &Plan,
    sink: &mut K,
    made: &Finished<S, E>,
    what: DriveWhat,
) -> DriveEnd
    requires serves { S.rules.serves (header_in made.now.played).mode.root ≡ true }
    requires form { E.FORM ≡ other_form (header_in made.now.played).mode }
    ensures ended { DriveEnded K.faults sink.old sink.new result }
    ensures shows { let m = layers_by S.stands S.rules S.shown E.stands E.rules E.shown in let w = world_by S.rules E.rules plan.now in
        IsFinished m plan.now what made.now (schedule w plan.now)
        → ShowsIn K.tells K.taken sink.old sink.new what result w plan.now }
{
    drive_forges_nothing::<S, E>();
    match what {
        DriveWhat::Report => end_of(show(alloc, sink, &made.played, What::Report)),
        DriveWhat::Schedule => {
            let audit = made.played.world().audit();
            match write_file(sink, &made.file) {
                Ok(()) => DriveEnd::Done(audit),
                Err(_) => DriveEnd::Write,
            }
        }
    }
}

// Makes the schedule of a plan in a world of these layers.
fn drive_as<S: Service, E: Broadcast, K: Sink>(
    alloc: Global,
    plan: &Plan,
    sink: &mut K,
    what: DriveWhat,
) -> DriveEnd
    requires serves { S.rules.serves plan.now.mode.root ≡ true }
    requires form { E.FORM ≡ other_form plan.now.mode }
    ensures ended { DriveEnded K.faults sink.old sink.new result }
    ensures shows { ShowsIn K.tells K.taken sink.old sink.new what result (world_by S.rules E.rules plan.now) plan.now }
{
    has_session(plan);
    drive_forges_nothing::<S, E>();
    match make::<S, E>(alloc, plan, what) {
        Ok(made) => write(alloc, plan, sink, &made, what),
        Err(halt) => end_at(halt),
    }
}

// Makes the schedule of a plan in a world of this service and the broadcasts of its mode.
fn drive_with<S: Service, K: Sink>(
    alloc: Global,
    plan: &Plan,
    sink: &mut K,
    what: DriveWhat,
) -> DriveEnd
    requires serves { S.rules.serves plan.now.mode.root ≡ true }
    ensures ended { DriveEnded K.faults sink.old sink.new result }
    ensures shows { ShowsIn K.tells K.taken sink.old sink.new what result (world_by S.rules (other_of plan.now.mode) plan.now) plan.now }
{
    let form = other_form(&plan.mode);
    if form == 2 {
        drive_as::<S, Eb, K>(alloc, plan, sink, what)
    } else if form == 3 {
        drive_as::<S, DigestRb, K>(alloc, plan, sink, what)
    } else {
        drive_as::<S, Rb, K>(alloc, plan, sink, what)
    }
}

/// Makes the schedule of a plan, in the world of its players, and writes what is asked for: the report of that world, or the
/// schedule's file.
///
/// At `Done` the whole text was written, of a schedule that passes no limit, and in any case a front of it. Nothing in it is
/// forged, and so its audit holds, or names two hashes that collide. Where it holds, the correct replicas agree: their logs of
/// commands are prefixes of one list, with each command once; each command there was submitted at a correct replica; and no
/// two of them decide differently in any instance. At `Limit` the schedule would pass this limit: it
/// would have more than 4,000,000 steps, or, where it hasn't, its file more than 67,108,864 bytes. Then nothing was written, nor
/// at `Mem`. `Write` is answered just where a call of the sink failed.
pub fn drive<K: Sink>(alloc: Global, plan: &Plan, sink: &mut K, what: DriveWhat) -> DriveEnd
    // For every sink, whether or not it tells what it took.
    ensures ended { DriveEnded K.faults sink.old sink.new result }

    // The text of the plan's schedule is written, or the limit is named that it passes first.
    ensures shows { ShowsPlan K.tells K.taken sink.old sink.new what result plan.now }
{
    match plan.mode.service() {
        RootService::Reliable | RootService::Echo => {
            drive_with::<CmdRoot, K>(alloc, plan, sink, what)
        }
        RootService::Binary => drive_with::<BinRoot<Bin>, K>(alloc, plan, sink, what),
        RootService::MultiValued => drive_with::<MvcRoot<Mvc<Bin>>, K>(alloc, plan, sink, what),
        RootService::Vector => drive_with::<VcRoot<Vc<Mvc<Bin>>>, K>(alloc, plan, sink, what),
        RootService::Atomic => drive_with::<Abc<Vc<Mvc<Bin>>>, K>(alloc, plan, sink, what),
        RootService::Direct => drive_with::<Direct<Mvc<Bin>>, K>(alloc, plan, sink, what),
    }
}
