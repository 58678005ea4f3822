//! Picks: one step at a time, drawn from all that are open.
ghost use Rattle.std.specs.Prelude.{◌≡◌, ◌<◌, List, [], ◌++◌, length, reverse, OnOk};
ghost use Rattle.ritas_base.specs.declared.what.DriveWhat.{DriveWhat};
ghost use Rattle.ritas_base.specs.Numbers.{IsSession};
ghost use Rattle.schedule_replay.specs.Layers.{layers_by};
ghost use Rattle.world_model.specs.Players.{Step, scene_of};
ghost use Rattle.ritas_base.specs.declared.plan.Order.{Order};
ghost use Rattle.schedule_plan.specs.Inputs.{inputs_of};
ghost use Rattle.schedule_plan.specs.Picks.{Picking, choices_of, garbled, pick};
ghost use Rattle.schedule_plan.specs.Plans.{cast_of};
ghost use Rattle.schedule_plan.specs.Schedule.{schedule};
ghost use Rattle.schedule_stage.specs.Stage.{IsStage, Reaches};
ghost use Rattle.schedule_stage.specs.Worlds.{world_in};
ghost use Rattle.schedule_drive.specs.Pickers.{IsPicker, PickingStands, Goes, waits_in, counts_in};

use crate::garbage::throw_all;
use crate::laws::has_session;
use crate::picker::Picker;
use layer_api::{Broadcast, Service};
use rand_core::SeedableRng;
use rand_core::utils::NextWord;
use rand_pcg::Lcg64Xsh32;
use ritas_base::{Order, Plan};
use schedule_stage::{Halt, Stage};
use std::alloc::Global;

// Garbage comes before each 256th pick.
fn throw_before<S: Service, E: Broadcast>(
    alloc: Global,
    plan: &Plan,
    number: u32,
    words: &mut Lcg64Xsh32,
    stage: &mut Stage<S, E>,
) -> Result<(), Halt>
    ensures words { (q : Picking) → words.old ≡ q.words → OnOk result (words.new ≡ (garbled plan.now number q).words) }
    ensures stage { let m = layers_by S.stands S.rules S.shown E.stands E.rules E.shown in
        (what : DriveWhat) (q : Picking) → words.old ≡ q.words → IsStage m plan.now what stage.old q.steps
        → Reaches m plan.now what stage.new (garbled plan.now number q).steps result }
{
    if number % 256 == 0 {
        throw_all(alloc, plan, words, stage)?;
    }
    Ok(())
}

// What is open is looked up again where garbage came.
fn look_again<S: Service, E: Broadcast>(
    plan: &Plan,
    number: u32,
    picker: &mut Picker,
    stage: &Stage<S, E>,
)
    ensures { let m = layers_by S.stands S.rules S.shown E.stands E.rules E.shown in let w = world_in m plan.now in
        (what : DriveWhat) (q : Picking) → let next = garbled plan.now number q in
        IsSession plan.now.p → IsStage m plan.now what stage.now next.steps
        → IsPicker plan.now (waits_in w plan.now q.steps) (counts_in w plan.now q.steps) q.passed picker.old
        → IsPicker plan.now (waits_in w plan.now next.steps) (counts_in w plan.now next.steps) q.passed picker.new }
{
    if number % 256 == 0 {
        picker.refresh_all(stage);
    }
}

// Takes the step of this pick, where so many choices are open.
fn take_next<S: Service, E: Broadcast>(
    alloc: Global,
    plan: &Plan,
    number: u32,
    count: usize,
    words: &mut Lcg64Xsh32,
    picker: &mut Picker,
    stage: &mut Stage<S, E>,
) -> Result<(), Halt>
    requires { 0 < count }
    ensures words { let m = layers_by S.stands S.rules S.shown E.stands E.rules E.shown in let w = world_in m plan.now in
        (what : DriveWhat) (q : Picking) → IsSession plan.now.p → PickingStands m plan.now what stage.old picker.old q → words.old ≡ q.words
        → count ≡ length (choices_of w plan.now (scene_of w (cast_of plan.now.attack) q.steps) q.passed)
        → OnOk result (words.new ≡ (pick w plan.now number q).words) }
    ensures goes { let m = layers_by S.stands S.rules S.shown E.stands E.rules E.shown in let w = world_in m plan.now in
        (what : DriveWhat) (q : Picking) → IsSession plan.now.p → PickingStands m plan.now what stage.old picker.old q → words.old ≡ q.words
        → count ≡ length (choices_of w plan.now (scene_of w (cast_of plan.now.attack) q.steps) q.passed)
        → Goes m plan.now what stage.new picker.new (pick w plan.now number q) result }
{
    throw_before(alloc, plan, number, words, stage)?;
    let word = words.next_word();
    let Some(choice) = picker.choose(word as usize % count) else {
        return Ok(());
    };
    look_again(plan, number, picker, stage);
    picker.take(alloc, choice, words, stage)
}

/// Takes the steps of a plan one by one, as they are drawn, while there is one.
pub(crate) fn play_picks<S: Service, E: Broadcast>(
    alloc: Global,
    plan: &Plan,
    stage: &mut Stage<S, E>,
) -> Result<(), Halt>
    requires { plan.now.order ≡ Order.Random }
    ensures { let m = layers_by S.stands S.rules S.shown E.stands E.rules E.shown in
        (what : DriveWhat) → IsStage m plan.now what stage.old (reverse (inputs_of plan.now))
        → Reaches m plan.now what stage.new (schedule (world_in m plan.now) plan.now) result }
{
    has_session(plan);
    let mut words = Lcg64Xsh32::seed_from_u64(plan.start_number);
    let mut picker = Picker::new(alloc, plan)?;
    picker.refresh_all(stage);
    for number in 0..4_000_001u32 {
        let count = picker.count();
        if count == 0 {
            return Ok(());
        }
        take_next(alloc, plan, number, count, &mut words, &mut picker, stage)?;
    }
    Ok(())
}
