//! The time that passes, as a clock shows it or else as waits count it.

ghost use Rattle.std.specs.Prelude.{◌≡◌, ◌+◌, None};
ghost use Rattle.tcp_link.specs.Waits.{capped_64, first_clock, guessed, passed, next_wait, after_wait, after_work, retry_due_microseconds, look_due_microseconds};

use crate::limits::{
    FIRST_WAIT_MICROSECONDS, LONGEST_WAIT_MICROSECONDS, LOOK_MICROSECONDS, PAUSE_MICROSECONDS,
    SHORT_WAIT_MICROSECONDS,
};

/// A count of the time that passed.
///
/// Where a clock is read after each wait, it counts what that shows. Where none can be read, a wait that no event ended lasted as
/// long as it was to, and each after the first is twice as long; one that an event ended counts little, and so does each read, each
/// connection that comes in and each piece that is given. That is a guess: a link with much to do may count several times too much,
/// or too little.
#[derive(Clone, Copy)]
pub(crate) struct Clock {
    /// The time that was counted.
    pub(crate) counted_microseconds: u64,
    /// How long the next wait is.
    pub(crate) wait_microseconds: u64,
    /// What the system's clock showed after the last wait, if it could be read.
    pub(crate) shown_microseconds: Option<u64>,
}

impl Clock {
    /// No time was counted.
    pub(crate) fn new() -> Clock
        ensures { result ≡ first_clock }
    {
        Clock {
            counted_microseconds: 0,
            wait_microseconds: FIRST_WAIT_MICROSECONDS,
            shown_microseconds: None,
        }
    }

    // The time that was counted, and so much more.
    fn counted_and(self, more_microseconds: u64) -> u64
        ensures { result ≡ capped_64 (self.counted_microseconds + more_microseconds) }
    {
        self.counted_microseconds.saturating_add(more_microseconds)
    }

    // What passed since the clock was read last, if it shows that.
    fn passed(self, shown_microseconds: Option<u64>) -> Option<u64>
        ensures { result ≡ passed self.shown_microseconds shown_microseconds }
    {
        let before = self.shown_microseconds?;
        let now = shown_microseconds?;
        Some(now.saturating_sub(before))
    }

    // What a wait counts where no clock tells.
    fn guessed(self, is_quiet: bool) -> u64
        ensures { result ≡ guessed self is_quiet }
    {
        if is_quiet {
            self.wait_microseconds
        } else {
            SHORT_WAIT_MICROSECONDS
        }
    }

    // How long the wait is after one that ended so.
    fn next_wait(self, is_quiet: bool) -> u64
        ensures { result ≡ next_wait self is_quiet }
    {
        if is_quiet {
            let doubled = self.wait_microseconds.saturating_mul(2);
            doubled.min(LONGEST_WAIT_MICROSECONDS)
        } else {
            FIRST_WAIT_MICROSECONDS
        }
    }

    /// The clock after a wait, which ended quietly or by an event, and what the system's shows then, if it can be read.
    pub(crate) fn after(self, is_quiet: bool, shown_microseconds: Option<u64>) -> Clock
        ensures { result ≡ after_wait self is_quiet shown_microseconds }
    {
        let passed = self.passed(shown_microseconds);
        let more = passed.unwrap_or(self.guessed(is_quiet));
        Clock {
            counted_microseconds: self.counted_and(more),
            wait_microseconds: self.next_wait(is_quiet),
            shown_microseconds,
        }
    }

    /// The clock after one thing that was done.
    pub(crate) fn worked(self) -> Clock
        ensures { result ≡ after_work self }
    {
        if self.shown_microseconds.is_some() {
            // The clock shows how long it takes.
            return self;
        }
        Clock {
            counted_microseconds: self.counted_and(SHORT_WAIT_MICROSECONDS),
            ..self
        }
    }

    /// When a connection is looked at again.
    pub(crate) fn look_due_microseconds(self) -> u64
        ensures { result ≡ look_due_microseconds self }
    {
        self.counted_and(LOOK_MICROSECONDS)
    }

    /// When something is due that is to be tried again.
    pub(crate) fn retry_due_microseconds(self) -> u64
        ensures { result ≡ retry_due_microseconds self }
    {
        self.counted_and(PAUSE_MICROSECONDS)
    }
}
