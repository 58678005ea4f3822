//! What a stage begins with: the header of its plan.
ghost use Rattle.std.specs.Prelude.{◌≡◌};
ghost use Rattle.schedule_file.specs.ReadHeader.{heading};
ghost use Rattle.schedule_file.specs.Spelling.{IsHeading};
ghost use Rattle.schedule_plan.specs.Plans.{header_of};

use ritas_base::Plan;
use schedule_file::Header;
use schedule_plan::header_of;

/// The header of a plan, each field of which is as it may be.
pub(crate) fn first_header(plan: &Plan) -> Header
    ensures is { result ≡ header_of plan.now }
    ensures right { IsHeading (heading result) }
{
    header_of(plan)
}
