//! Sweeps: in each, every player takes what its inbox held at the sweep's start, and every frame comes that was there then.
ghost use Rattle.std.specs.Prelude.{◌≡◌, reverse};
ghost use Rattle.ritas_base.specs.declared.what.DriveWhat.{DriveWhat};
ghost use Rattle.schedule_replay.specs.Layers.{layers_by};
ghost use Rattle.ritas_base.specs.declared.plan.Order.{Order};
ghost use Rattle.schedule_plan.specs.Inputs.{inputs_of};
ghost use Rattle.schedule_plan.specs.Schedule.{schedule};
ghost use Rattle.schedule_stage.specs.Stage.{IsStage, Reaches};
ghost use Rattle.schedule_stage.specs.Worlds.{world_in};

use crate::garbage::throw_all;
use crate::laws::has_session;
use crate::runs::{first_runs, have_steps, renew, take_runs};
use layer_api::{Broadcast, Service};
use rand_core::SeedableRng;
use rand_pcg::Lcg64Xsh32;
use ritas_base::{Order, Plan};
use schedule_stage::{Halt, Stage};
use std::alloc::Global;

/// Takes the steps of a plan in sweeps, until one has no step.
pub(crate) fn play_sweeps<S: Service, E: Broadcast>(
    alloc: Global,
    plan: &Plan,
    stage: &mut Stage<S, E>,
) -> Result<(), Halt>
    requires { plan.now.order ≡ Order.Sweep }
    ensures { let m = layers_by S.stands S.rules S.shown E.stands E.rules E.shown in
        (what : DriveWhat) → IsStage m plan.now what stage.old (reverse (inputs_of plan.now))
        → Reaches m plan.now what stage.new (schedule (world_in m plan.now) plan.now) result }
{
    has_session(plan);
    let mut runs = first_runs(alloc, plan)?;
    let mut words = Lcg64Xsh32::seed_from_u64(plan.start_number);
    // each sweep has a step, and a schedule at most 4,000,000
    for _ in 0..4_000_001u32 {
        renew(runs.as_mut_slice(), stage);
        if !have_steps(runs.as_slice()) {
            return Ok(());
        }
        throw_all(alloc, plan, &mut words, stage)?;
        take_runs(alloc, stage, runs.as_slice())?;
    }
    Ok(())
}
