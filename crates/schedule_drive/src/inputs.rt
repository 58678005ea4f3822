//! The inputs of a plan.
ghost use Rattle.std.specs.Prelude.{◌≡◌, ◌≢◌, ◌<◌, ◌+◌, ◌%◌, ◌^◌, List, [], ◌∷◌, ◌++◌, map, length, reverse, IfOk, OnOk};
ghost use Rattle.std.specs.List.{flat_map, range_with_len};
ghost use Rattle.ritas_base.specs.Numbers.{IsSession};
ghost use Rattle.ritas_base.specs.declared.what.DriveWhat.{DriveWhat};
ghost use Rattle.schedule_replay.specs.Layers.{layers_by};
ghost use Rattle.world_model.specs.declared.player.Player.TheVariants.{Face};
ghost use Rattle.world_model.specs.Players.{Step, IsPlayer};
ghost use Rattle.schedule_plan.specs.Inputs.{number_text, value_text, command_text, takes_commands, copies_of, copy_at, command_at, value_input, correct_inputs, flip_inputs, own_text, given_to, face_inputs, inputs_of};
ghost use Rattle.schedule_plan.specs.Plans.{cast_of, correct_of};
ghost use Rattle.schedule_stage.specs.Stage.{IsStage, Reaches};
ghost use Rattle.schedule_stage.specs.Worlds.{world_in};

use crate::laws::has_session;
use crate::players::players;
use layer_api::{Broadcast, Service};
use ritas_base::{Attack, Bytes, Mem, Mode, Plan, RootService};
use schedule_plan::correct_of;
use schedule_stage::{Halt, Stage};
use std::alloc::Global;
use world_model::Player;

fn takes_commands(mode: Mode) -> bool
    ensures { result ≡ takes_commands mode.root }
{
    mode.service().takes_commands()
}

fn add_number(out: &mut Vec<u8>, k: u32) -> Result<(), Mem>
    ensures { OnOk result (out.new.items ≡ out.old.items ++ number_text k) }
{
    out.extend_from_slice(&k.to_be_bytes())?;
    Ok(())
}

fn value_text(alloc: Global, mode: Mode, v: u32) -> Result<Bytes, Mem>
    ensures text { IfOk result (λ b. b ≡ value_text mode.root v) }
    ensures short { IfOk result (λ b. length b < 2 ^ 16) }
{
    let mut out = Vec::new(alloc);
    match mode.service() {
        RootService::Binary => out.push((v % 2) as u8)?,
        RootService::Reliable
        | RootService::Echo
        | RootService::MultiValued
        | RootService::Vector
        | RootService::Atomic
        | RootService::Direct => add_number(&mut out, v)?,
    }
    Ok(Bytes::from_vec(out))
}

fn command_text(alloc: Global, mode: Mode, client: u8, request: u32, k: u32) -> Result<Bytes, Mem>
    ensures text { IfOk result (λ b. b ≡ command_text mode.root client request k) }
    ensures short { IfOk result (λ b. length b < 2 ^ 16) }
{
    let mut out = Vec::new(alloc);
    if mode.service().orders_commands() {
        add_number(&mut out, u32::from(client))?;
        add_number(&mut out, request)?;
    }
    add_number(&mut out, k)?;
    Ok(Bytes::from_vec(out))
}

// To how many correct replicas each command goes.
fn copies_of(plan: &Plan) -> u8
    ensures { result ≡ copies_of plan.now }
{
    if plan.mode.service().orders_commands() {
        plan.copies.min(correct_of(plan))
    } else {
        1
    }
}

// The correct replica whose turn it is at command k, or that many behind it.
fn turn_of(plan: &Plan, k: u32, behind: u8) -> u8
    requires { IsSession plan.now.p }
    ensures { result ≡ (k + behind) % correct_of plan.now }
{
    let turn = u64::from(k) + u64::from(behind);
    (turn % u64::from(correct_of(plan))) as u8
}

// A command, to one correct replica: the first that it goes to, or one that many behind it.
fn give_copy<S: Service, E: Broadcast>(
    alloc: Global,
    plan: &Plan,
    stage: &mut Stage<S, E>,
    k: u32,
    behind: u8,
) -> Result<(), Halt>
    requires { IsSession plan.now.p }
    ensures { let m = layers_by S.stands S.rules S.shown E.stands E.rules E.shown in
        (what : DriveWhat) (steps : List Step) → IsStage m plan.now what stage.old steps
        → Reaches m plan.now what stage.new (copy_at plan.now k behind ∷ steps) result }
{
    let client = turn_of(plan, k, 0);
    let at = turn_of(plan, k, behind);
    let text = command_text(alloc, plan.mode, client, k, k)?;
    stage.give(alloc, Player::Correct(at), text)
}

// A command, to each correct replica that it goes to.
fn give_command<S: Service, E: Broadcast>(
    alloc: Global,
    plan: &Plan,
    stage: &mut Stage<S, E>,
    k: u32,
) -> Result<(), Halt>
    requires { IsSession plan.now.p }
    ensures { let m = layers_by S.stands S.rules S.shown E.stands E.rules E.shown in
        (what : DriveWhat) (steps : List Step) → IsStage m plan.now what stage.old steps
        → Reaches m plan.now what stage.new (reverse (command_at plan.now k) ++ steps) result }
{
    for behind in 0..copies_of(plan) {
        give_copy(alloc, plan, stage, k, behind)?;
    }
    Ok(())
}

// The commands, to the correct replicas in turn.
fn give_commands<S: Service, E: Broadcast>(
    alloc: Global,
    plan: &Plan,
    stage: &mut Stage<S, E>,
) -> Result<(), Halt>
    requires { IsSession plan.now.p }
    ensures { let m = layers_by S.stands S.rules S.shown E.stands E.rules E.shown in
        (what : DriveWhat) (steps : List Step) → IsStage m plan.now what stage.old steps
        → Reaches m plan.now what stage.new (reverse (flat_map (command_at plan.now) (range_with_len 0 plan.now.commands)) ++ steps) result }
{
    for k in 0..plan.commands {
        give_command(alloc, plan, stage, k)?;
    }
    Ok(())
}

// A value to each correct replica.
fn give_values<S: Service, E: Broadcast>(
    alloc: Global,
    plan: &Plan,
    stage: &mut Stage<S, E>,
) -> Result<(), Halt>
    requires session { IsSession plan.now.p }
    requires some { plan.now.commands ≢ 0 }
    ensures { let m = layers_by S.stands S.rules S.shown E.stands E.rules E.shown in
        (what : DriveWhat) (steps : List Step) → IsStage m plan.now what stage.old steps
        → Reaches m plan.now what stage.new (reverse (map (value_input plan.now) (range_with_len 0 (correct_of plan.now))) ++ steps) result }
{
    let mode = plan.mode;
    for i in 0..correct_of(plan) {
        let text = value_text(alloc, mode, u32::from(i) % plan.commands)?;
        stage.give(alloc, Player::Correct(i), text)?;
    }
    Ok(())
}

fn give_correct<S: Service, E: Broadcast>(
    alloc: Global,
    plan: &Plan,
    stage: &mut Stage<S, E>,
) -> Result<(), Halt>
    requires { IsSession plan.now.p }
    ensures { let m = layers_by S.stands S.rules S.shown E.stands E.rules E.shown in
        (what : DriveWhat) (steps : List Step) → IsStage m plan.now what stage.old steps
        → Reaches m plan.now what stage.new (reverse (correct_inputs plan.now) ++ steps) result }
{
    if takes_commands(plan.mode) {
        return give_commands(alloc, plan, stage);
    }
    if plan.commands == 0 {
        return Ok(());
    }
    give_values(alloc, plan, stage)
}

// The value of its replica, to a face that exchanges bits.
fn give_flipped<S: Service, E: Broadcast>(
    alloc: Global,
    plan: &Plan,
    stage: &mut Stage<S, E>,
    a: u8,
) -> Result<(), Halt>
    ensures { let m = layers_by S.stands S.rules S.shown E.stands E.rules E.shown in
        (what : DriveWhat) (steps : List Step) → IsStage m plan.now what stage.old steps
        → IsPlayer (world_in m plan.now) (cast_of plan.now.attack) (Face a)
        → Reaches m plan.now what stage.new (reverse (flip_inputs plan.now (Face a)) ++ steps) result }
{
    if takes_commands(plan.mode) || plan.commands == 0 {
        return Ok(());
    }
    let text = value_text(alloc, plan.mode, u32::from(a / 2) % plan.commands)?;
    stage.give(alloc, Player::Face(a), text)?;
    Ok(())
}

// The text that one of two faces is given.
fn own_text(alloc: Global, mode: Mode, a: u8) -> Result<Bytes, Mem>
    ensures text { IfOk result (λ b. b ≡ own_text mode.root a) }
    ensures short { IfOk result (λ b. length b < 2 ^ 16) }
{
    if takes_commands(mode) {
        return command_text(alloc, mode, a, 0, u32::from(a));
    }
    value_text(alloc, mode, u32::from(a))
}

// What the attack gives to a player beyond a correct replica's input.
fn give_face<S: Service, E: Broadcast>(
    alloc: Global,
    plan: &Plan,
    stage: &mut Stage<S, E>,
    x: Player,
) -> Result<(), Halt>
    ensures { let m = layers_by S.stands S.rules S.shown E.stands E.rules E.shown in
        (what : DriveWhat) (steps : List Step) → IsStage m plan.now what stage.old steps
        → IsPlayer (world_in m plan.now) (cast_of plan.now.attack) x
        → Reaches m plan.now what stage.new (reverse (given_to plan.now plan.now.attack x) ++ steps) result }
{
    match (plan.attack, x) {
        (Attack::Flip, Player::Face(a)) => give_flipped(alloc, plan, stage, a),
        (Attack::TwoFace, Player::Face(a)) => {
            let text = own_text(alloc, plan.mode, a)?;
            stage.give(alloc, x, text)
        }
        _ => Ok(()),
    }
}

// What is given to the faces.
fn give_faces<S: Service, E: Broadcast>(
    alloc: Global,
    plan: &Plan,
    stage: &mut Stage<S, E>,
) -> Result<(), Halt>
    requires { IsSession plan.now.p }
    ensures { let m = layers_by S.stands S.rules S.shown E.stands E.rules E.shown in
        (what : DriveWhat) (steps : List Step) → IsStage m plan.now what stage.old steps
        → Reaches m plan.now what stage.new (reverse (face_inputs plan.now plan.now.attack) ++ steps) result }
{
    let all = players(alloc, plan)?;
    for x in &all {
        give_face(alloc, plan, stage, *x)?;
    }
    Ok(())
}

/// Gives the inputs of a plan to its players.
pub(crate) fn give_inputs<S: Service, E: Broadcast>(
    alloc: Global,
    plan: &Plan,
    stage: &mut Stage<S, E>,
) -> Result<(), Halt>
    ensures { let m = layers_by S.stands S.rules S.shown E.stands E.rules E.shown in
        (what : DriveWhat) → IsStage m plan.now what stage.old []
        → Reaches m plan.now what stage.new (reverse (inputs_of plan.now)) result }
{
    has_session(plan);
    give_correct(alloc, plan, stage)?;
    give_faces(alloc, plan, stage)?;
    Ok(())
}
