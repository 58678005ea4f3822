//! A link that runs.

ghost use Rattle.std.specs.Prelude.{◌≡◌, OnOk};
ghost use Rattle.tcp_link.specs.Queues.{Queue, in_turn};

use crate::limits::MOST_EVENTS;
use crate::reading::shown_microseconds;
use crate::sockets::Sockets;
use crate::trouble::Trouble;
use mio::{Events, Poll};
use std::alloc::Global;
use std::net::Net;
use std::rt::Clock;
use std::time::Duration;

/// A link that runs: the poll, and its sockets.
#[derive(Drop)]
pub(crate) struct Running {
    pub(crate) poll: Poll,
    events: Events,
    pub(crate) sockets: Sockets,
}

impl Running {
    /// A link of n replicas with no socket yet.
    pub(crate) fn new<R: Net>(
        rt: &R,
        alloc: Global,
        n: u8,
        is_client: bool,
    ) -> Result<Running, Trouble> {
        Ok(Running {
            events: Events::with_capacity(alloc, MOST_EVENTS)?,
            poll: Poll::new(rt)?,
            sockets: Sockets::new(alloc, n, is_client)?,
        })
    }

    // Waits for events, unless something is to be done before one comes, and takes note of the time and of them.
    fn wait<C: Clock>(&mut self, clock: &C) -> Result<(), Trouble> {
        let is_busy = self.sockets.is_busy();
        let wait_microseconds = self.sockets.retries.wait_microseconds(is_busy);
        let timeout = wait_microseconds.map(Duration::from_micros);
        self.poll.poll(&mut self.events, timeout)?;
        let is_quiet = !is_busy && self.events.is_empty();
        let shown = shown_microseconds(clock);
        self.sockets.retries.waited(is_quiet, shown);
        for event in &self.events {
            self.sockets.note(event)?;
        }
        Ok(())
    }

    /// Writes what waits, waits for events, and does what they ask for: first what peers need, and then some of what clients do. What
    /// is due comes once all peers were read, so that a connection isn't taken for silent where it was the node that stood still. What
    /// is given then is a turn of what is to be given. That the sockets are served in this order is shown by `a_peer_resets`,
    /// `a_peer_connects_again` and `fair_in_a_crowd` of `cases/link`.
    pub(crate) fn turn<R: Net, C: Clock>(
        &mut self,
        rt: &R,
        alloc: Global,
        clock: &C,
    ) -> Result<(), Trouble>
        ensures { OnOk result ((q : Queue) × (self.new.sockets.agenda ≡ in_turn q)) }
    {
        self.sockets.write_all()?;
        self.wait(clock)?;
        let registry = self.poll.registry();
        self.sockets.write_all()?;
        self.sockets.spares.fill(rt)?;
        self.sockets.accept_all(alloc, registry)?;
        self.sockets.read_all()?;
        self.sockets.retry_all(rt, alloc, registry)?;
        self.sockets.read_clients()?;
        self.sockets.agenda.begin_turn();
        Ok(())
    }
}
