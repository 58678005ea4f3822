//! How the events of a world were answered, by counts.

use crate::seen::Seen;
use replica::Refusal;
use ritas_core::Answer;

/// How many events were answered in each way.
#[derive(Clone, Copy, Debug, PartialEq, Eq)]
pub struct Counts {
    /// Events that were taken.
    pub took: u64,
    /// Frames whose items are held.
    pub held: u64,
    /// Items that repeated others.
    pub repeat: u64,
    /// Turns where no item waited.
    pub idle: u64,
    /// Events at no correct replica.
    pub missed: u64,
    /// Frames that didn't open.
    pub open_faults: u64,
    /// Bodies that spelled no item.
    pub body_faults: u64,
    /// Items, inputs and turns that the core refused.
    pub core_faults: u64,
}

impl Counts {
    ghost use Rattle.std.specs.Prelude.{◌≡◌, ◌+◌, ◌-◌, ◌^◌, ◌<◌};
    ghost use Rattle.world_model.specs.Counts.{no_counts, counted_event, total};

    /// Of no events.
    pub fn new() -> Counts
        ensures { result ≡ no_counts }
    {
        Counts {
            took: 0,
            held: 0,
            repeat: 0,
            idle: 0,
            missed: 0,
            open_faults: 0,
            body_faults: 0,
            core_faults: 0,
        }
    }

    /// Counts one event more.
    pub fn count(&mut self, seen: &Seen)
        requires { total self.old < 2 ^ 64 - 1 }
        ensures one { self.new ≡ counted_event seen.now self.old }
        ensures all { total self.new ≡ total self.old + 1 }
    {
        match seen {
            Seen::Answered(Answer::Took) => self.took += 1,
            Seen::Answered(Answer::Held) => self.held += 1,
            Seen::Answered(Answer::Repeat) => self.repeat += 1,
            Seen::Answered(Answer::Idle) => self.idle += 1,
            Seen::Missed => self.missed += 1,
            Seen::Refused(Refusal::Open(_)) => self.open_faults += 1,
            Seen::Refused(Refusal::Body(_)) => self.body_faults += 1,
            Seen::Refused(Refusal::Core(_)) => self.core_faults += 1,
        }
    }
}
