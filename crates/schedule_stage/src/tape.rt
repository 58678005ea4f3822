//! The tape: how many steps were taken, how events were answered, and the schedule's file so far.
ghost use Rattle.std.specs.Prelude.{◌<◌, ◌≤◌};
ghost use Rattle.schedule_file.specs.FileBytes.{limit};
ghost use Rattle.world_model.specs.Counts.{total};

use crate::halt::Halt;
use outside::Buffer;
use ritas_base::{DriveWhat, Event, Mem};
use schedule_file::{FILE_LIMIT, Header, Writer, event_size};
use std::alloc::Global;
use world_model::{Counts, Seen};

// A schedule has at most so many steps.
const STEP_LIMIT: u32 = 4_000_000;

/// How many steps were taken, how their events were answered, and how many bytes the schedule's file has without its end mark.
/// The file itself is kept where it is wanted.
#[derive(Drop)]
pub(crate) struct Tape {
    steps: u32,
    pub(crate) counts: Counts,
    size: usize,
    what: DriveWhat,
    pub(crate) file: Buffer,
    ghost counted: { total counts ≤ steps },
    ghost few: { steps ≤ 4000000 },
    ghost short: { size < limit },
}

impl Tape {
    ghost use Rattle.std.specs.Prelude.{◌≡◌, ◌+◌, ◌<◌, ◌≤◌, ◌++◌, List, [], ◌∷◌, IfOk, IfErr, OnOk};
    ghost use Rattle.ritas_base.specs.declared.plan.Plan.{Plan};
    ghost use Rattle.ritas_base.specs.declared.what.DriveWhat.{DriveWhat};
    ghost use Rattle.schedule_file.specs.FileBytes.{limit};
    ghost use Rattle.schedule_file.specs.ReadHeader.{heading};
    ghost use Rattle.schedule_file.specs.Spelling.{event_text, FrontOf, IsHeading, IsSized};
    ghost use Rattle.world_model.specs.Counts.{counted_event, no_counts, total};
    ghost use Rattle.world_model.specs.World.{Setting};
    ghost use Rattle.world_model.specs.Players.{Step};
    ghost use Rattle.schedule_plan.specs.Plans.{header_of};
    ghost use Rattle.schedule_plan.specs.Schedule.{events_by};
    ghost use Rattle.schedule_stage.specs.Tape.{IsTape, SameFile, SameSteps, SameCounts, SameTape, Tapes};

    // The file before any step: the header, where it is kept. The one error is want of memory.
    fn first_file(alloc: Global, header: &Header, what: DriveWhat) -> Result<Buffer, Mem>
        ensures { IfOk result (λ file. what ≡ DriveWhat.Schedule → file.taken ≡ FrontOf (heading header.now) []) }
    {
        let mut file = Buffer::new(alloc);
        match what {
            DriveWhat::Report => Ok(file),
            DriveWhat::Schedule => match Writer::start(&mut file, header) {
                Ok(()) => Ok(file),
                Err(_) => Err(Mem),
            },
        }
    }

    /// Before any step. The one error is want of memory.
    pub(crate) fn new(alloc: Global, header: &Header, what: DriveWhat) -> Result<Tape, Mem>
        requires { IsHeading (heading header.now) }
        ensures { IfOk result (λ tape. (tape.counts ≡ no_counts) × ((w : Setting) (p : Plan) → header.now ≡ header_of p → IsTape w p what tape [])) }
    {
        let file = Tape::first_file(alloc, header, what)?;
        Ok(Tape {
            steps: 0,
            counts: Counts::new(),
            size: 54,
            what,
            file,
        })
    }

    // Counts a step.
    fn step(&mut self) -> Result<(), Halt>
        ensures ok { OnOk result (self.new.steps ≡ self.old.steps + 1) }
        ensures err { IfErr result (λ halt. (halt ≡ Halt.Limit 4000000) × (self.old.steps ≡ 4000000)) }
        ensures same { SameFile self.old self.new }
    {
        if self.steps >= STEP_LIMIT {
            return Err(Halt::Limit(STEP_LIMIT));
        }
        self.steps += 1;
        Ok(())
    }

    // Counts these bytes of the file, behind which the end mark is to follow.
    fn lengthen(&mut self, more: usize) -> Result<(), Halt>
        ensures ok { OnOk result (self.new.size ≡ self.old.size + more) }
        ensures err { IfErr result (λ halt. (halt ≡ Halt.Limit limit) × (limit ≤ self.old.size + more)) }
        ensures same { SameSteps self.old self.new }
    {
        if more >= FILE_LIMIT as usize - self.size {
            return Err(Halt::Limit(FILE_LIMIT));
        }
        self.size += more;
        Ok(())
    }

    // Writes an event to the file, where that is kept. The one error is want of memory.
    fn write(&mut self, event: &Event) -> Result<(), Halt>
        requires { IsSized event.now }
        ensures kept { OnOk result (self.old.what ≡ DriveWhat.Schedule → self.new.file.taken ≡ self.old.file.taken ++ event_text event.now) }
        ensures err { IfErr result (λ halt. halt ≡ Halt.Mem) }
        ensures same { SameCounts self.old self.new }
    {
        match self.what {
            DriveWhat::Report => Ok(()),
            DriveWhat::Schedule => match Writer::event(&mut self.file, event) {
                Ok(()) => Ok(()),
                Err(_) => Err(Halt::Mem),
            },
        }
    }

    /// A step is taken that is no event.
    pub(crate) fn pass(&mut self) -> Result<(), Halt>
        ensures tapes { (w : Setting) (p : Plan) (what : DriveWhat) (steps : List Step) (step : Step) → IsTape w p what self.old steps
            → events_by w p (step ∷ steps) ≡ events_by w p steps → Tapes w p what self.new (step ∷ steps) result }
        ensures counts { self.new.counts ≡ self.old.counts }
    {
        self.step()
    }

    /// A step is taken that is this event. How it is answered is to be counted.
    pub(crate) fn event(&mut self, event: &Event) -> Result<(), Halt>
        requires { IsSized event.now }
        ensures tapes { (w : Setting) (p : Plan) (what : DriveWhat) (steps : List Step) (step : Step) → IsTape w p what self.old steps
            → events_by w p (step ∷ steps) ≡ event.now ∷ events_by w p steps → Tapes w p what self.new (step ∷ steps) result }
        ensures counts { self.new.counts ≡ self.old.counts }
        ensures room { OnOk result (total self.new.counts < self.new.steps) }
    {
        self.step()?;
        self.lengthen(event_size(event))?;
        self.write(event)
    }

    /// The event of the newest step was answered so.
    pub(crate) fn count(&mut self, seen: &Seen)
        requires { total self.old.counts < self.old.steps }
        ensures counts { self.new.counts ≡ counted_event seen.now self.old.counts }
        ensures same { SameTape self.old self.new }
    {
        self.counts.count(seen);
    }
}
