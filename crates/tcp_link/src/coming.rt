//! Connections that come in at the doors, and those that are begun.

ghost use Rattle.std.specs.Prelude.{◌≡◌, ◌≢◌, ◌⊎◌, ◌<◌, [], true, false, Some, None, OnErr, vec_len};
ghost use Rattle.tcp_link.specs.Names.{dial_again, is_of_replicas, told_at_end};
ghost use Rattle.tcp_link.specs.Waits.{first_retry};

use crate::conn::Conn;
use crate::dials::{Dial, begin, watched};
use crate::doors::Arrival;
use crate::entry::Entry;
use crate::outcome::Nobody;
use crate::retries::Retry;
use crate::side::Side;
use crate::sockets::{Sockets, list};
use crate::stage::Stage;
use mio::Registry;
use mio::net::TcpStream;
use ritas_base::Mem;
use std::alloc::Global;
use std::net::{Net, SocketAddr};

impl Sockets {
    /// Accepts connections at the doors on the list.
    pub(crate) fn accept_all(&mut self, alloc: Global, registry: &Registry) -> Result<(), Mem>
        ensures memory { OnErr result (self.old.open_doors.items ≢ []) }
    {
        for _ in 0..self.open_doors.len() {
            let Some(number) = self.open_doors.pop_front() else {
                break;
            };
            self.accept_at(alloc, registry, number)?;
        }
        Ok(())
    }

    // Accepts connections at a door, which is on the list again if more may wait.
    fn accept_at(&mut self, alloc: Global, registry: &Registry, number: usize) -> Result<(), Mem>
        ensures memory { OnErr result (number < vec_len self.old.doors) }
    {
        let Some(door) = self.doors.get_mut(number) else {
            // There is no such door.
            return Ok(());
        };
        door.is_listed = false;
        for _ in 0..door.entry.most_a_turn() {
            if !self.accept_one(alloc, registry, number)? {
                return Ok(());
            }
        }
        match self.doors.get_mut(number) {
            Some(door) => list(&mut door.is_listed, number, &mut self.open_doors),
            // There is no such door.
            None => Ok(()),
        }
    }

    // Accepts one connection, and says whether more may wait. Where none can be accepted now it is tried again after a pause.
    fn accept_one(&mut self, alloc: Global, registry: &Registry, number: usize) -> Result<bool, Mem>
        ensures memory { OnErr result (number < vec_len self.old.doors) }
    {
        let Some(door) = self.doors.get_mut(number) else {
            // There is no such door.
            return Ok(false);
        };
        let entry = door.entry;
        if !entry.admits(self.clients) {
            return Ok(false);
        }
        match door.look() {
            Arrival::Stream(stream) => {
                self.retries.worked();
                self.enter(alloc, registry, entry, stream)?;
                Ok(true)
            }
            Arrival::None(Nobody::Gone) => Ok(true),
            Arrival::None(Nobody::Waits) => Ok(false),
            Arrival::None(Nobody::Closed) if entry.is_of_replicas() && self.spares.spend() => {
                Ok(true)
            }
            Arrival::None(Nobody::Closed) => {
                door.is_listed = true;
                self.retries.add(Retry::Door(number))?;
                Ok(false)
            }
        }
    }

    // Adds a connection that came in, if it is let in, which `Entry::let_in` decides. It is closed where it isn't, or can't be watched:
    // so `clients_have_a_cap` and `few_descriptors` of `cases/link` show.
    fn enter(
        &mut self,
        alloc: Global,
        registry: &Registry,
        entry: Entry,
        stream: TcpStream,
    ) -> Result<(), Mem> {
        let has_spares = self.spares.are_all();
        let there = self.conns.clients_there();
        let Some(whom) = entry.let_in(&mut self.clients, there, has_spares) else {
            return Ok(());
        };
        let Some(token) = self.conns.next_token() else {
            return Ok(());
        };
        match watched(registry, stream, token) {
            Ok(stream) => {
                let mut side = Side::new(alloc, whom, None);
                if entry.is_of_replicas() {
                    side.look_later(&mut self.retries, token)?;
                }
                self.conns.add(Conn::new(stream, token, side))?;
                self.enter_stranger(entry, token)
            }
            Err(_) => Ok(()),
        }
    }

    // One that came in at a door for replicas is closed once many came in after it, unless it told its number by then.
    fn enter_stranger(&mut self, entry: Entry, token: usize) -> Result<(), Mem>
        ensures memory { OnErr result (is_of_replicas entry ≡ true) }
    {
        if !entry.is_of_replicas() {
            return Ok(());
        }
        let Some(oldest) = self.strangers.add(token)? else {
            return Ok(());
        };
        match self.conns.get(oldest) {
            Some(conn) if conn.side.whom.is_unnamed() => self.end(oldest),
            _ => Ok(()),
        }
    }

    // Begins a connection, by a spare descriptor if there is no other.
    fn begin<R: Net>(
        &mut self,
        rt: &R,
        registry: &Registry,
        address: SocketAddr,
        token: usize,
    ) -> Option<TcpStream> {
        match begin(rt, registry, address, token) {
            Ok(stream) => Some(stream),
            Err(_) if self.spares.spend() => begin(rt, registry, address, token).ok(),
            Err(_) => None,
        }
    }

    /// Begins the connection of a dial.
    pub(crate) fn dial<R: Net>(
        &mut self,
        rt: &R,
        alloc: Global,
        registry: &Registry,
        dial: Dial,
    ) -> Result<(), Mem> {
        let Some(token) = self.conns.next_token() else {
            return self.not_begun(dial);
        };
        match self.begin(rt, registry, dial.address, token) {
            Some(stream) => {
                let mut side = Side::new(alloc, dial.whom, Some(dial));
                if let Some(number) = dial.whom.told_first() {
                    side.tell(number)?;
                }
                side.look_later(&mut self.retries, token)?;
                self.conns.add(Conn::new(stream, token, side))
            }
            None => self.not_begun(dial),
        }
    }

    // A connection couldn't be begun: it is tried again after a pause, but not by a client.
    fn not_begun(&mut self, dial: Dial) -> Result<(), Mem>
        ensures memory { OnErr result ((told_at_end Stage.Refused false dial.whom ≢ None)
            ⊎ (dial_again self.old.is_client (Some dial) ≢ None)) }
    {
        self.closed(dial.whom.ended(Stage::Refused, false), Some(dial))
    }

    /// Tries again what is due.
    pub(crate) fn retry_all<R: Net>(
        &mut self,
        rt: &R,
        alloc: Global,
        registry: &Registry,
    ) -> Result<(), Mem>
        ensures memory { let r = self.old.retries in
            OnErr result (first_retry r.clock r.waiting.items r.looks.items ≢ None) }
    {
        for _ in 0..self.retries.len() {
            match self.retries.next() {
                Some(Retry::Dial(dial)) => self.dial(rt, alloc, registry, dial)?,
                Some(Retry::Door(number)) => self.accept_at(alloc, registry, number)?,
                Some(Retry::Drain(token)) => self.drain_on(token)?,
                Some(Retry::Look(token)) => self.look(token)?,
                Some(Retry::Rest(token)) => self.write_rested(token)?,
                None => break,
            }
        }
        Ok(())
    }
}
