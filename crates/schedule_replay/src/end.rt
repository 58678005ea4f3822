//! How replaying a schedule ends.

ghost use Rattle.std.specs.Prelude.{◌≡◌};
ghost use Rattle.schedule_replay.specs.Replay.{end_at_fault};

use schedule_file::FileFault;
use world_model::Audit;

/// How a call that replays a schedule ended.
#[derive(Clone, Copy, Debug, PartialEq, Eq)]
pub enum ReplayEnd {
    /// The text was written, of a world with this audit.
    Done(Audit),
    /// The bytes aren't a schedule file, by this first fault, or the source failed. `Header(15)` is also answered of a file
    /// that has no such text, for its root service.
    File(FileFault),
    /// The sink failed.
    Write,
    /// There was not enough memory.
    Mem,
}

/// The end where reading met a fault.
pub(crate) fn end_at(fault: FileFault) -> ReplayEnd
    ensures { result ≡ end_at_fault fault }
{
    match fault {
        FileFault::Mem => ReplayEnd::Mem,
        _ => ReplayEnd::File(fault),
    }
}
