//! The laws of plans: what is made of one forges nothing, its copies go apart, and its schedule is whole.

ghost use Rattle.schedule_plan.specs.Laws.{StepsLaw, DriveLaw, CopiesLaw, WholeLaw};

use layer_api::{Broadcast, Service};
use world_model::forges_nothing;

/// The steps of a plan are steps of its players.
///
/// It does nothing: its contract is the law.
pub(crate) fn planned_steps<S: Service, E: Broadcast>()
    ensures { StepsLaw S.rules E.rules }
{}

/// What is made of a plan forges nothing: each frame that comes under a correct replica's number is one that it made, and each
/// entry of a correct echoer is one that it gave. So the audit holds, or two hashes collide. No assumption on hashes is made.
///
/// It does nothing: its contract is the law.
pub fn drive_forges_nothing<S: Service, E: Broadcast>()
    ensures { DriveLaw S.rules E.rules }
{
    planned_steps::<S, E>();
    forges_nothing::<S, E>();
}

/// Each command comes to different replicas: no correct one is given two copies of it.
///
/// It does nothing: its contract is the law.
pub fn copies_go_apart()
    ensures { CopiesLaw }
{}

/// A schedule is whole: where no limit is met, more sweeps or picks would change nothing, since each has a step. Where one is met,
/// the same one is met with more of them.
///
/// It does nothing: its contract is the law.
pub fn schedule_is_whole()
    ensures { WholeLaw }
{}
