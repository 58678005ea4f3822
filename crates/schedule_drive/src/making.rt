//! Taking the steps of a plan.
ghost use Rattle.std.specs.Prelude.{◌≡◌, [], reverse, true, MatchResult};
ghost use Rattle.ritas_base.specs.declared.what.DriveWhat.{DriveWhat};
ghost use Rattle.ritas_core.specs.Rules.{other_form};
ghost use Rattle.schedule_replay.specs.Layers.{layers_by};
ghost use Rattle.schedule_plan.specs.Inputs.{inputs_of};
ghost use Rattle.schedule_plan.specs.Schedule.{schedule};
ghost use Rattle.schedule_stage.specs.Stage.{IsFinished, IsStage, Reaches};
ghost use Rattle.schedule_stage.specs.Worlds.{HaltsBy, world_in};

use crate::inputs::give_inputs;
use crate::picks::play_picks;
use crate::sweeps::play_sweeps;
use layer_api::{Broadcast, Service};
use ritas_base::{DriveWhat, Order, Plan};
use schedule_stage::{Finished, Halt, Stage};
use std::alloc::Global;

// Takes the steps of a plan that come behind its inputs.
fn play_on<S: Service, E: Broadcast>(
    alloc: Global,
    plan: &Plan,
    stage: &mut Stage<S, E>,
) -> Result<(), Halt>
    ensures { let m = layers_by S.stands S.rules S.shown E.stands E.rules E.shown in
        (what : DriveWhat) → IsStage m plan.now what stage.old (reverse (inputs_of plan.now))
        → Reaches m plan.now what stage.new (schedule (world_in m plan.now) plan.now) result }
{
    match plan.order {
        Order::Sweep => play_sweeps(alloc, plan, stage),
        Order::Random => play_picks(alloc, plan, stage),
    }
}

// Takes the steps of a plan.
fn play<S: Service, E: Broadcast>(
    alloc: Global,
    plan: &Plan,
    stage: &mut Stage<S, E>,
) -> Result<(), Halt>
    ensures { let m = layers_by S.stands S.rules S.shown E.stands E.rules E.shown in
        (what : DriveWhat) → IsStage m plan.now what stage.old []
        → Reaches m plan.now what stage.new (schedule (world_in m plan.now) plan.now) result }
{
    give_inputs(alloc, plan, stage)?;
    play_on(alloc, plan, stage)
}

/// Takes all steps of a plan, in a world of these layers. What came of them is answered, or the limit that they would pass.
pub(crate) fn make<S: Service, E: Broadcast>(
    alloc: Global,
    plan: &Plan,
    what: DriveWhat,
) -> Result<Finished<S, E>, Halt>
    requires serves { S.rules.serves plan.now.mode.root ≡ true }
    requires form { E.FORM ≡ other_form plan.now.mode }
    ensures { let m = layers_by S.stands S.rules S.shown E.stands E.rules E.shown in
        MatchResult result
        (λ x. IsFinished m plan.now what x (schedule (world_in m plan.now) plan.now))
        (λ halt. HaltsBy (world_in m plan.now) plan.now (schedule (world_in m plan.now) plan.now) halt) }
{
    let mut stage = Stage::new(alloc, plan, what)?;
    play(alloc, plan, &mut stage)?;
    Ok(stage.finish(plan))
}
