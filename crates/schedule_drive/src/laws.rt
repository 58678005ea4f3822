//! The law of a plan's numbers, for the functions of this crate.

ghost use Rattle.ritas_base.specs.Numbers.{IsSession};

use ritas_base::Plan;

/// The numbers of a plan are those of a session.
///
/// It does nothing: its contract is the law.
pub(crate) fn has_session(plan: &Plan)
    ensures { IsSession plan.now.p }
{
    plan.p.n();
}
