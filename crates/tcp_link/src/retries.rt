//! What is tried again after a pause.

ghost use Rattle.std.specs.Prelude.{◌≡◌, ◌++◌, ◌∷◌, [], OnOk, if◌then◌else◌};
ghost use Rattle.tcp_link.specs.Waits.{first_clock, after_wait, after_work, retry_due_microseconds, look_due_microseconds, due_in, left_in, first_retry, late_of, microseconds_to_wait};

use crate::clock::Clock;
use crate::dials::Dial;
use ritas_base::Mem;
use std::alloc::Global;
use std::collections::VecDeque;

/// What is tried again.
#[derive(Clone, Copy)]
pub(crate) enum Retry {
    /// To begin this connection.
    Dial(Dial),
    /// Accepting at the door of this number.
    Door(usize),
    /// To look at the connection of this token, which is read to its end.
    Drain(usize),
    /// To look at the connection of this token, as every five seconds.
    Look(usize),
    /// To write to the node of this token, whose last piece told nothing new.
    Rest(usize),
}

/// What is tried again, and when.
#[derive(Clone, Copy)]
pub(crate) struct Waiting {
    due_microseconds: u64,
    retry: Retry,
}

/// What is tried again and what is looked at, each in the order in which it is due, and the time that was counted meanwhile.
#[derive(Drop)]
pub(crate) struct Retries {
    waiting: VecDeque<Waiting>,
    looks: VecDeque<Waiting>,
    clock: Clock,
}

// Takes the first of a list, if it is due by now.
fn take_due(clock: Clock, waiting: &mut VecDeque<Waiting>) -> Option<Retry>
    ensures first { result ≡ due_in clock waiting.old.items }
    ensures left { waiting.new.items ≡ left_in clock waiting.old.items }
{
    let first = *waiting.front()?;
    if first.due_microseconds > clock.counted_microseconds {
        return None;
    }
    waiting.pop_front();
    Some(first.retry)
}

impl Retries {
    /// Nothing is tried again.
    pub(crate) fn new(alloc: Global) -> Retries
        ensures none { result.waiting.items ≡ [] }
        ensures looks { result.looks.items ≡ [] }
        ensures clock { result.clock ≡ first_clock }
    {
        Retries {
            waiting: VecDeque::new(alloc),
            looks: VecDeque::new(alloc),
            clock: Clock::new(),
        }
    }

    /// Has this tried again after a pause. The one error is want of memory.
    pub(crate) fn add(&mut self, retry: Retry) -> Result<(), Mem>
        ensures last { OnOk result (self.new.waiting.items ≡ self.old.waiting.items ++ (record { due_microseconds = retry_due_microseconds self.old.clock; retry = retry }) ∷ []) }
        ensures looks { self.new.looks ≡ self.old.looks }
        ensures clock { self.new.clock ≡ self.old.clock }
    {
        let due_microseconds = self.clock.retry_due_microseconds();
        self.waiting.push_back(Waiting {
            due_microseconds,
            retry,
        })?;
        Ok(())
    }

    /// Has the connection of this token looked at after five seconds. The one error is want of memory.
    pub(crate) fn look_at(&mut self, token: usize) -> Result<(), Mem>
        ensures last { OnOk result (self.new.looks.items ≡ self.old.looks.items ++ (record { due_microseconds = look_due_microseconds self.old.clock; retry = Retry.Look token }) ∷ []) }
        ensures waiting { self.new.waiting ≡ self.old.waiting }
        ensures clock { self.new.clock ≡ self.old.clock }
    {
        let due_microseconds = self.clock.look_due_microseconds();
        self.looks.push_back(Waiting {
            due_microseconds,
            retry: Retry::Look(token),
        })?;
        Ok(())
    }

    /// How much is to be tried again or looked at.
    pub(crate) fn len(&self) -> usize {
        self.waiting.len().saturating_add(self.looks.len())
    }

    /// How many microseconds to wait for an event at most: none where something is to be done before, and without end where nothing
    /// is to be tried again or looked at.
    pub(crate) fn wait_microseconds(&self, is_busy: bool) -> Option<u64>
        ensures { result ≡ (if is_busy then Some 0 else microseconds_to_wait self.now.clock self.now.waiting.items self.now.looks.items) }
    {
        if is_busy {
            Some(0)
        } else if self.waiting.is_empty() && self.looks.is_empty() {
            None
        } else {
            Some(self.clock.wait_microseconds)
        }
    }

    /// A wait ended, quietly or by an event, and the system's clock shows this, if it can be read.
    pub(crate) fn waited(&mut self, is_quiet: bool, shown_microseconds: Option<u64>)
        ensures clock { self.new.clock ≡ after_wait self.old.clock is_quiet shown_microseconds }
        ensures waiting { self.new.waiting ≡ self.old.waiting }
        ensures looks { self.new.looks ≡ self.old.looks }
    {
        self.clock = self.clock.after(is_quiet, shown_microseconds);
    }

    /// One thing was done.
    pub(crate) fn worked(&mut self)
        ensures clock { self.new.clock ≡ after_work self.old.clock }
        ensures waiting { self.new.waiting ≡ self.old.waiting }
        ensures looks { self.new.looks ≡ self.old.looks }
    {
        self.clock = self.clock.worked();
    }

    /// Takes the next that is due by now.
    pub(crate) fn next(&mut self) -> Option<Retry>
        ensures first { result ≡ first_retry self.old.clock self.old.waiting.items self.old.looks.items }
        ensures waiting { self.new.waiting.items ≡ left_in self.old.clock self.old.waiting.items }
        ensures looks { self.new.looks.items ≡ late_of self.old.clock self.old.waiting.items self.old.looks.items }
        ensures clock { self.new.clock ≡ self.old.clock }
    {
        let clock = self.clock;
        if let Some(retry) = take_due(clock, &mut self.waiting) {
            return Some(retry);
        }
        take_due(clock, &mut self.looks)
    }
}
