//! The link over TCP: what comes by its connections is given in order, and what is sent goes out.

ghost use Rattle.std.specs.Prelude.{◌≡◌, ◌≢◌, ◌<◌, ◌^◌, [], false, None, IfOk, IfSome, OnErr, length, Err};
ghost use Rattle.outside.specs.Faults.{HasCause};
ghost use Rattle.outside.specs.Links.{bytes_of, faults_after};
ghost use Rattle.tcp_link.specs.Outcomes.{link_fault_of};

use crate::limits::LONGEST_PIECE;
use crate::reading::NoClock;
use crate::running::Running;
use crate::starting::started;
use crate::trouble::Trouble;
use outside::{FaultCounts, Link, LinkFault, LinkItem, LinkPlan};
use ritas_base::Mem;
use std::alloc::Global;
use std::net::Net;
use std::rt::Clock;
use std::sync::Wait;

/// A link over TCP. It isn't told what it gave and what it was given.
///
/// Addresses are texts as `127.0.0.1:8080`, of at most 31 replicas or nodes; further ones are left out. `Failed` is answered where
/// a node's number is none of theirs, a listener can't be made, as for want of its address, or the poll fails. Until it is started it gives `End`.
/// `next_now` reads nothing: it gives what is left of what `next` read, of each client at most one message until `next` reads again.
///
/// After what time something is tried again or given up is told by its clock, which is read once a turn. Without one, its time is
/// guessed by what it does: under load it may then run several times too fast or too slow.
#[derive(Drop)]
pub struct TcpLink<C: Clock = NoClock> {
    clock: C,
    running: Option<Running>,
    faults: FaultCounts,
}

impl TcpLink<NoClock> {
    /// A link with no clock, which wasn't started.
    pub fn new(alloc: Global) -> TcpLink
        ensures { result.faults ≡ record { failed = 0; short = 0 } }
    {
        TcpLink::with_clock(alloc, NoClock)
    }
}

impl<C: Clock + Drop> TcpLink<C> {
    /// A link with this clock, which wasn't started.
    pub fn with_clock(_alloc: Global, clock: C) -> TcpLink<C>
        ensures { result.faults ≡ record { failed = 0; short = 0 } }
    {
        TcpLink {
            clock,
            running: None,
            faults: FaultCounts::new(),
        }
    }

    /// Writes what is kept for connections, as far as it is taken at once: for when no other call of the link follows.
    pub fn flush(&mut self)
        ensures { self.new.faults ≡ self.old.faults }
    {
        if let Some(running) = &mut self.running {
            let _ = running.sockets.write_all();
        }
    }

    // The fault that a trouble is, which is counted.
    fn fault(&mut self, trouble: Trouble) -> LinkFault
        ensures is { result ≡ link_fault_of trouble }
        ensures cause { HasCause self.old.faults.failed self.new.faults.failed (result ≡ LinkFault.Failed) }
        ensures count { self.new.faults ≡ faults_after {A = Unit {0}} self.old.faults (Err result) }
    {
        // it is read, so that the proof has its range
        let _failed = self.faults.failed;
        match trouble {
            Trouble::System => self.faults.fail(),
            Trouble::Mem => self.faults.fall_short(),
        }
    }

    // The next item, if one was read by now, or none follows. Where neither is so, it waits for what comes, and reads it.
    fn step<R: Net>(&mut self, rt: &R, alloc: Global) -> Result<Option<LinkItem>, LinkFault>
        ensures size { IfOk result (λ item. IfSome item (λ x. length (bytes_of x) < 2 ^ 16)) }
        ensures cause { HasCause self.old.faults.failed self.new.faults.failed (result ≡ Err LinkFault.Failed) }
        ensures count { self.new.faults ≡ faults_after self.old.faults result }
    {
        let given = self.next_now(alloc)?;
        if given.is_some() {
            return Ok(given);
        }
        let Some(running) = &mut self.running else {
            return Ok(Some(LinkItem::End));
        };
        if running.sockets.is_at_end() {
            return Ok(Some(LinkItem::End));
        }
        match running.turn(rt, alloc, &self.clock) {
            Ok(()) => Ok(None),
            Err(trouble) => Err(self.fault(trouble)),
        }
    }
}

impl<C: Clock + Drop> Link for TcpLink<C> {
    ghost tells = { false };

    ghost told = { λ _. [] };

    ghost faults = { λ s. s.faults };

    fn start<R: Net + Wait>(
        &mut self,
        rt: &R,
        alloc: Global,
        plan: &LinkPlan,
    ) -> Result<(), LinkFault>
        ensures cause { HasCause self.old.faults.failed self.new.faults.failed (result ≡ Err LinkFault.Failed) }
        ensures count { self.new.faults ≡ faults_after self.old.faults result }
    {
        match started(rt, alloc, plan, &self.clock) {
            Ok(running) => {
                self.running = Some(running);
                Ok(())
            }
            Err(trouble) => Err(self.fault(trouble)),
        }
    }

    fn next<R: Net + Wait>(&mut self, rt: &R, alloc: Global) -> Result<LinkItem, LinkFault>
        ensures size { IfOk result (λ item. length (bytes_of item) < 2 ^ 16) }
        ensures cause { HasCause self.old.faults.failed self.new.faults.failed (result ≡ Err LinkFault.Failed) }
        ensures count { self.new.faults ≡ faults_after self.old.faults result }
    {
        for _ in rt.forever() {
            match self.step(rt, alloc) {
                Ok(Some(item)) => return Ok(item),
                Ok(None) => {}
                Err(fault) => return Err(fault),
            }
        }
        unreachable!()
    }

    fn next_now(&mut self, alloc: Global) -> Result<Option<LinkItem>, LinkFault>
        ensures size { IfOk result (λ given. IfSome given (λ item. length (bytes_of item) < 2 ^ 16)) }
        ensures open { IfOk result (λ given. IfSome given (λ item. item ≢ LinkItem.End)) }
        ensures cause { HasCause self.old.faults.failed self.new.faults.failed (result ≡ Err LinkFault.Failed) }
        ensures count { self.new.faults ≡ faults_after self.old.faults result }
        ensures memory { OnErr result (self.old.running ≢ None) }
    {
        let Some(running) = &mut self.running else {
            return Ok(None);
        };
        match running.sockets.take_item(alloc) {
            Ok(given) => Ok(given),
            Err(Mem) => Err(self.faults.fall_short()),
        }
    }

    fn send<R: Net + Wait>(
        &mut self,
        _rt: &R,
        _alloc: Global,
        at: u8,
        peer: u8,
        frame: &[u8],
    ) -> Result<(), LinkFault>
        ensures cause { HasCause self.old.faults.failed self.new.faults.failed (result ≡ Err LinkFault.Failed) }
        ensures count { self.new.faults ≡ faults_after self.old.faults result }
        ensures memory { OnErr result (self.old.running ≢ None) }
    {
        if frame.len() > LONGEST_PIECE {
            return Ok(());
        }
        let Some(running) = &mut self.running else {
            return Ok(());
        };
        match running.sockets.send(at, peer, frame) {
            Ok(()) => Ok(()),
            Err(Mem) => Err(self.faults.fall_short()),
        }
    }

    fn reply<R: Net + Wait>(
        &mut self,
        _rt: &R,
        _alloc: Global,
        at: u8,
        conn: u32,
        bytes: &[u8],
    ) -> Result<(), LinkFault>
        ensures cause { HasCause self.old.faults.failed self.new.faults.failed (result ≡ Err LinkFault.Failed) }
        ensures count { self.new.faults ≡ faults_after self.old.faults result }
        ensures memory { OnErr result (self.old.running ≢ None) }
    {
        if bytes.len() > LONGEST_PIECE {
            return Ok(());
        }
        let Some(running) = &mut self.running else {
            return Ok(());
        };
        match running.sockets.reply(at, conn, bytes) {
            Ok(()) => Ok(()),
            Err(Mem) => Err(self.faults.fall_short()),
        }
    }
}
