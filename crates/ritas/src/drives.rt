//! Making the schedule of a plan.
ghost use Rattle.std.specs.Prelude.{◌≡◌, ◌≢◌};
ghost use Rattle.ritas.specs.Run.{Ends};
ghost use Rattle.ritas.specs.Drives.{AnswersPlan};

use crate::lines::audit_status;
use crate::refusals::refuse_limit;
use outside::Sink;
use ritas_base::{DriveWhat, Plan};
use schedule_drive::{DriveEnd, drive};
use std::alloc::Global;

/// Makes the schedule of a plan, and writes what is asked for.
pub(crate) fn make<K: Sink>(alloc: Global, plan: &Plan, output: &mut K, what: DriveWhat) -> u8
    ensures ends { Ends K.faults output.old output.new result }
    ensures others { (result ≢ 2) × (result ≢ 4) × (result ≢ 6) }
    ensures nine { result ≢ 9 }
    ensures answers { AnswersPlan K.tells K.taken output.old output.new what result plan.now }
{
    match drive(alloc, plan, output, what) {
        DriveEnd::Done(audit) => audit_status(audit),
        DriveEnd::Limit(limit) => refuse_limit(alloc, output, limit),
        DriveEnd::Write => 5,
        DriveEnd::Mem => 8,
    }
}
