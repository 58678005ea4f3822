//! Frames of garbage.
ghost use Rattle.std.specs.Prelude.{◌≡◌, ◌-◌, ◌<◌, nat_lt, ℕ, true, false, List, ◌++◌, reverse, OnOk};
ghost use Rattle.std.specs.List.{range_with_len};
ghost use Rattle.ritas_base.specs.History.{replicas};
ghost use Rattle.ritas_base.specs.declared.plan.Plan.{Plan};
ghost use Rattle.ritas_base.specs.declared.what.DriveWhat.{DriveWhat};
ghost use Rattle.schedule_replay.specs.Layers.{layers_by};
ghost use Rattle.world_model.specs.Players.{Step};
ghost use Rattle.schedule_plan.specs.Garbage.{filler, after_filler, throws_to, throws_by, throws_of};
ghost use Rattle.schedule_stage.specs.Stage.{IsStage, Reaches};
ghost use Rattle.schedule_stage.specs.Worlds.{world_in};

use layer_api::{Broadcast, Service};
use rand_core::utils::NextWord;
use rand_pcg::Lcg64Xsh32;
use ritas_base::{Attack, Plan};
use schedule_plan::correct_of;
use schedule_stage::{Halt, Stage};
use std::alloc::Global;

// The next two words, and zeros.
fn filler(words: &mut Lcg64Xsh32) -> [u8; 40]
    ensures text { result ≡ filler words.old }
    ensures words { words.new ≡ after_filler words.old }
{
    let first = words.next_word().to_be_bytes();
    let second = words.next_word().to_be_bytes();
    let mut out = [0; 40];
    out[..4].copy_from_slice(&first);
    out[4..8].copy_from_slice(&second);
    out
}

// A faulty replica throws a frame to each of the first replicas, which are correct.
fn throw_to<S: Service, E: Broadcast>(
    alloc: Global,
    plan: &Plan,
    from: u8,
    correct: u8,
    words: &mut Lcg64Xsh32,
    stage: &mut Stage<S, E>,
) -> Result<(), Halt>
    ensures words { OnOk result (words.new ≡ (throws_to from (replicas correct) words.old).1) }
    ensures stage { let m = layers_by S.stands S.rules S.shown E.stands E.rules E.shown in
        (what : DriveWhat) (steps : List Step) → IsStage m plan.now what stage.old steps
        → (world_in m plan.now).is_correct from ≡ false → ((to : ℕ) → to < correct → (world_in m plan.now).is_correct to ≡ true)
        → Reaches m plan.now what stage.new (reverse (throws_to from (replicas correct) words.old).0 ++ steps) result }
{
    for to in 0..correct {
        let rest = filler(words);
        stage.throw(alloc, plan, from, to, &rest)?;
    }
    Ok(())
}

// Each of the replicas from the first faulty one throws to those before it.
fn throw_by<S: Service, E: Broadcast>(
    alloc: Global,
    plan: &Plan,
    correct: u8,
    n: u8,
    words: &mut Lcg64Xsh32,
    stage: &mut Stage<S, E>,
) -> Result<(), Halt>
    ensures words { OnOk result (words.new ≡ (throws_by (range_with_len correct (n - correct)) (replicas correct) words.old).1) }
    ensures stage { let m = layers_by S.stands S.rules S.shown E.stands E.rules E.shown in
        (what : DriveWhat) (steps : List Step) → IsStage m plan.now what stage.old steps
        → ((i : ℕ) → (world_in m plan.now).is_correct i ≡ nat_lt i correct)
        → Reaches m plan.now what stage.new (reverse (throws_by (range_with_len correct (n - correct)) (replicas correct) words.old).0 ++ steps) result }
{
    for from in correct..n {
        throw_to(alloc, plan, from, correct, words, stage)?;
    }
    Ok(())
}

/// Each faulty replica throws a frame to each correct one, where the attack of the plan is garbage. The bytes of the frames are
/// drawn.
pub(crate) fn throw_all<S: Service, E: Broadcast>(
    alloc: Global,
    plan: &Plan,
    words: &mut Lcg64Xsh32,
    stage: &mut Stage<S, E>,
) -> Result<(), Halt>
    ensures words { OnOk result (words.new ≡ (throws_of plan.now plan.now.attack words.old).1) }
    ensures stage { let m = layers_by S.stands S.rules S.shown E.stands E.rules E.shown in
        (what : DriveWhat) (steps : List Step) → IsStage m plan.now what stage.old steps
        → Reaches m plan.now what stage.new (reverse (throws_of plan.now plan.now.attack words.old).0 ++ steps) result }
{
    match plan.attack {
        Attack::Garbage => throw_by(alloc, plan, correct_of(plan), plan.p.n(), words, stage),
        _ => Ok(()),
    }
}
