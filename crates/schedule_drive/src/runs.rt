//! The steps of a sweep, as runs: the turns of a player, or the frames that one player made for another.
ghost use Rattle.std.specs.Prelude.{◌≡◌, List, ◌++◌, map, filter, reverse, OnOk, IfOk};
ghost use Rattle.std.specs.List.{flat_map, list_any};
ghost use Rattle.ritas_base.specs.declared.plan.Plan.{Plan};
ghost use Rattle.ritas_base.specs.declared.what.DriveWhat.{DriveWhat};
ghost use Rattle.layer_api.specs.Runs.{Has};
ghost use Rattle.schedule_replay.specs.Layers.{layers_by};
ghost use Rattle.world_model.specs.Players.{Step};
ghost use Rattle.schedule_plan.specs.Plans.{are_linked};
ghost use Rattle.schedule_plan.specs.Sweeps.{none_yet};
ghost use Rattle.schedule_stage.specs.Stage.{IsStage, Reaches};
ghost use Rattle.schedule_stage.specs.Worlds.{world_in};
ghost use Rattle.schedule_drive.specs.Runs.{run_steps, has_step, no_wait, first_frames, runs_by, renewed, IsPlayerRun};

use crate::players::{are_linked, number_of, players};
use layer_api::{Broadcast, Service};
use ritas_base::{Mem, Plan};
use schedule_stage::{Halt, Stage};
use std::alloc::Global;
use world_model::Player;

/// A part of a sweep.
#[derive(Clone, Copy, PartialEq, Eq)]
pub(crate) enum Run {
    /// So many turns of a player.
    Turns(Player, usize),
    /// The frames that one player made for another, from this number up to that one.
    Frames(Player, Player, usize, usize),
}

// For a player the runs of the frames that come to it.
fn add_frames(out: &mut Vec<Run>, plan: &Plan, all: &[Player], y: Player) -> Result<(), Mem>
    ensures { OnOk result (out.new.items ≡ out.old.items ++ map (first_frames y) (filter (λ x. are_linked plan.now x y) all.now)) }
{
    for x in all {
        if are_linked(plan, *x, y) {
            out.push(Run::Frames(*x, y, 0, 0))?;
        }
    }
    Ok(())
}

/// The runs of a plan, before any step: for each player its turns, and the frames that come to it. The one error is want of
/// memory.
pub(crate) fn first_runs(alloc: Global, plan: &Plan) -> Result<Vec<Run>, Mem>
    ensures { IfOk result (λ v. v.items ≡ runs_by plan.now none_yet none_yet no_wait) }
{
    let all = players(alloc, plan)?;
    let mut out = Vec::new(alloc);
    for y in &all {
        out.push(Run::Turns(*y, 0))?;
        add_frames(&mut out, plan, all.as_slice(), *y)?;
    }
    Ok(out)
}

// The same run in the next sweep.
fn renewed<S: Service, E: Broadcast>(stage: &Stage<S, E>, run: Run) -> Run
    ensures { let m = layers_by S.stands S.rules S.shown E.stands E.rules E.shown in
        (p : Plan) (what : DriveWhat) (steps : List Step) → IsStage m p what stage.now steps → IsPlayerRun (world_in m p) p run
        → result ≡ renewed (world_in m p) p steps run }
{
    match run {
        Run::Turns(y, _) => Run::Turns(y, stage.waiting(y)),
        Run::Frames(x, y, _, end) => Run::Frames(x, y, end, stage.made(x, number_of(y))),
    }
}

/// Makes of the runs of a sweep those of the next: what waits now, and the frames that were made since.
pub(crate) fn renew<S: Service, E: Broadcast>(runs: &mut [Run], stage: &Stage<S, E>)
    ensures { let m = layers_by S.stands S.rules S.shown E.stands E.rules E.shown in
        (p : Plan) (what : DriveWhat) (steps : List Step) → IsStage m p what stage.now steps
        → ((run : Run) → Has runs.old run → IsPlayerRun (world_in m p) p run)
        → runs.new ≡ map (renewed (world_in m p) p steps) runs.old }
{
    for run in runs.iter_mut() {
        *run = renewed(stage, *run);
    }
}

fn has_step(run: Run) -> bool
    ensures { result ≡ has_step run }
{
    match run {
        Run::Turns(_, count) => count != 0,
        Run::Frames(_, _, start, end) => start < end,
    }
}

/// Whether a run has a step.
pub(crate) fn have_steps(runs: &[Run]) -> bool
    ensures { result ≡ list_any has_step runs.now }
{
    runs.iter().any(|run| has_step(*run))
}

// Takes so many turns of a player.
fn take_turns<S: Service, E: Broadcast>(
    alloc: Global,
    stage: &mut Stage<S, E>,
    y: Player,
    count: usize,
) -> Result<(), Halt>
    ensures { let m = layers_by S.stands S.rules S.shown E.stands E.rules E.shown in
        (p : Plan) (what : DriveWhat) (steps : List Step) → IsStage m p what stage.old steps
        → IsPlayerRun (world_in m p) p (Run.Turns y count)
        → Reaches m p what stage.new (reverse (run_steps (Run.Turns y count)) ++ steps) result }
{
    for _ in 0..count {
        stage.go(alloc, y)?;
    }
    Ok(())
}

// Brings the frames with these numbers.
fn take_frames<S: Service, E: Broadcast>(
    alloc: Global,
    stage: &mut Stage<S, E>,
    x: Player,
    y: Player,
    start: usize,
    end: usize,
) -> Result<(), Halt>
    ensures { let m = layers_by S.stands S.rules S.shown E.stands E.rules E.shown in
        (p : Plan) (what : DriveWhat) (steps : List Step) → IsStage m p what stage.old steps
        → IsPlayerRun (world_in m p) p (Run.Frames x y start end)
        → Reaches m p what stage.new (reverse (run_steps (Run.Frames x y start end)) ++ steps) result }
{
    for number in start..end {
        stage.carry(alloc, x, y, number)?;
    }
    Ok(())
}

fn take_run<S: Service, E: Broadcast>(
    alloc: Global,
    stage: &mut Stage<S, E>,
    run: Run,
) -> Result<(), Halt>
    ensures { let m = layers_by S.stands S.rules S.shown E.stands E.rules E.shown in
        (p : Plan) (what : DriveWhat) (steps : List Step) → IsStage m p what stage.old steps
        → IsPlayerRun (world_in m p) p run
        → Reaches m p what stage.new (reverse (run_steps run) ++ steps) result }
{
    match run {
        Run::Turns(y, count) => take_turns(alloc, stage, y, count),
        Run::Frames(x, y, start, end) => take_frames(alloc, stage, x, y, start, end),
    }
}

/// Takes the steps of all runs.
pub(crate) fn take_runs<S: Service, E: Broadcast>(
    alloc: Global,
    stage: &mut Stage<S, E>,
    runs: &[Run],
) -> Result<(), Halt>
    ensures { let m = layers_by S.stands S.rules S.shown E.stands E.rules E.shown in
        (p : Plan) (what : DriveWhat) (steps : List Step) → IsStage m p what stage.old steps
        → ((run : Run) → Has runs.now run → IsPlayerRun (world_in m p) p run)
        → Reaches m p what stage.new (reverse (flat_map run_steps runs.now) ++ steps) result }
{
    for run in runs {
        take_run(alloc, stage, *run)?;
    }
    Ok(())
}
