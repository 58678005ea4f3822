//! Reading a clock of the system.

use std::io;
use std::rt::Clock;
use std::time::Duration;

/// A clock that can't be read: that of a link which was given none.
#[derive(Clone, Copy)]
pub struct NoClock;

impl Clock for NoClock {
    fn monotonic(&self) -> io::Result<Duration> {
        Err(io::Error::from(io::ErrorKind::Unsupported))
    }

    fn since_1970(&self) -> io::Result<Duration> {
        Err(io::Error::from(io::ErrorKind::Unsupported))
    }
}

/// What a clock shows that never goes back, in microseconds, if it can be read.
pub(crate) fn shown_microseconds<C: Clock>(clock: &C) -> Option<u64> {
    let shown = clock.monotonic().ok()?;
    u64::try_from(shown.as_micros()).ok()
}
