//! The header of the schedule that a plan means.
ghost use Rattle.std.specs.Prelude.{◌≡◌, ◌≤◌};
ghost use Rattle.schedule_plan.specs.Plans.{correct_of, header_of};

use ritas_base::{Attack, Plan, SenderSet};
use schedule_file::{Header, HeaderKeys};

/// How many replicas of a plan are correct: the first ones.
pub fn correct_of(plan: &Plan) -> u8
    ensures count { result ≡ correct_of plan.now }
    ensures most { result ≤ 31 }
{
    match plan.attack {
        Attack::Absent => plan.p.n(),
        _ => plan.p.n() - plan.p.f(),
    }
}

/// The header of the schedule that a plan means.
pub fn header_of(plan: &Plan) -> Header
    ensures { result ≡ header_of plan.now }
{
    let correct = (1u32 << correct_of(plan)) - 1;
    Header {
        session: plan.session,
        p: plan.p,
        mode: plan.mode,
        correct: SenderSet::from_mask(correct),
        keys: HeaderKeys::Master(plan.master),
    }
}
