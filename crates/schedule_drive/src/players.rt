//! The players of a plan, and which of them are linked.
ghost use Rattle.std.specs.Prelude.{◌≡◌, ◌<◌, ◌++◌, IfOk, OnOk};
ghost use Rattle.ritas_base.specs.declared.plan.Attack.{Attack};
ghost use Rattle.world_model.specs.Players.{number_of};
ghost use Rattle.schedule_plan.specs.Plans.{is_of_a, is_two_faced, same_letter, are_linked, cast_of, faces_of, players_at, players_of};

use ritas_base::{Attack, Mem, Plan};
use schedule_plan::correct_of;
use std::alloc::Global;
use world_model::Player;

/// The number of the replica that a player is or plays.
pub(crate) fn number_of(x: Player) -> u8
    ensures { (attack : Attack) → result ≡ number_of (cast_of attack) x }
{
    match x {
        Player::Correct(i) => i,
        Player::Face(a) => a / 2,
    }
}

fn is_two_faced(attack: Attack) -> bool
    ensures { result ≡ is_two_faced attack }
{
    match attack {
        Attack::TwoFace => true,
        _ => false,
    }
}

fn is_of_a(plan: &Plan, x: Player) -> bool
    ensures { result ≡ is_of_a plan.now x }
{
    match x {
        Player::Correct(i) => i < (plan.p.n() - plan.p.f() + 1) / 2,
        Player::Face(a) => a % 2 == 0,
    }
}

fn same_letter(plan: &Plan, x: Player, y: Player) -> bool
    ensures { result ≡ same_letter plan.now x y }
{
    match (x, y) {
        (Player::Correct(_), Player::Correct(_)) => true,
        _ => is_of_a(plan, x) == is_of_a(plan, y),
    }
}

/// Whether frames of one player come to the other.
pub(crate) fn are_linked(plan: &Plan, x: Player, y: Player) -> bool
    ensures { result ≡ are_linked plan.now x y }
{
    number_of(x) != number_of(y) && (!is_two_faced(plan.attack) || same_letter(plan, x, y))
}

// The faces of a faulty replica.
fn add_faces(out: &mut Vec<Player>, attack: Attack, i: u8) -> Result<(), Mem>
    requires { i < 32 }
    ensures { OnOk result (out.new.items ≡ out.old.items ++ faces_of attack i) }
{
    match attack {
        Attack::Flip => out.push(Player::Face(2 * i))?,
        Attack::TwoFace => {
            out.push(Player::Face(2 * i))?;
            out.push(Player::Face(2 * i + 1))?;
        }
        _ => {}
    }
    Ok(())
}

// A correct replica, or the faces of a faulty one.
fn add_players(out: &mut Vec<Player>, plan: &Plan, i: u8) -> Result<(), Mem>
    requires { i < 32 }
    ensures { OnOk result (out.new.items ≡ out.old.items ++ players_at plan.now i) }
{
    if i < correct_of(plan) {
        out.push(Player::Correct(i))?;
        return Ok(());
    }
    add_faces(out, plan.attack, i)
}

/// The players of a plan, by replica number. The one error is want of memory.
pub(crate) fn players(alloc: Global, plan: &Plan) -> Result<Vec<Player>, Mem>
    ensures { IfOk result (λ v. v.items ≡ players_of plan.now) }
{
    let mut out = Vec::new(alloc);
    for i in 0..plan.p.n() {
        add_players(&mut out, plan, i)?;
    }
    Ok(out)
}
