//! The sockets of a link, and what is to be done with them.

ghost use Rattle.std.specs.Prelude.{◌≡◌, ◌≢◌, ◌⊎◌, ◌<◌, ◌++◌, ◌∷◌, [], true, false, None, OnOk, OnErr, vec_len, if◌then◌else◌};
ghost use Rattle.mio.specs.Event.{event_token};
ghost use Rattle.tcp_link.specs.Connections.{conn_at};
ghost use Rattle.tcp_link.specs.Names.{dial_again};
ghost use Rattle.tcp_link.specs.Queues.{with_told};
ghost use Rattle.tcp_link.specs.Waits.{redial};

use crate::agenda::Agenda;
use crate::conns::Conns;
use crate::dials::Dial;
use crate::doors::Door;
use crate::limits::{CLIENTS_READ_A_TURN, LONGEST_READ};
use crate::news::News;
use crate::outcome::told_by;
use crate::readers::Readers;
use crate::retries::{Retries, Retry};
use crate::spares::Spares;
use crate::strangers::Strangers;
use crate::tokens::{door_of, spares_for};
use crate::whom::dial_again;
use mio::event::Event;
use ritas_base::Mem;
use std::alloc::Global;
use std::collections::VecDeque;

/// The sockets of a link. The lists are of tokens, or of numbers of doors, and have each at most once. A token stays on a list when its
/// connection goes, and is passed over there. A door never goes.
#[derive(Drop)]
pub(crate) struct Sockets {
    /// How many replicas there are.
    pub(crate) n: u8,
    /// Whether it is a client's link, which connects to each node once.
    pub(crate) is_client: bool,
    pub(crate) doors: Vec<Door>,
    pub(crate) conns: Conns,
    /// How many clients were numbered.
    pub(crate) clients: u32,
    pub(crate) retries: Retries,
    /// Doors where connections may wait.
    pub(crate) open_doors: VecDeque<usize>,
    /// Connections that may have bytes to be read.
    pub(crate) readers: Readers,
    /// The last connections that came in at doors for replicas.
    pub(crate) strangers: Strangers,
    /// Descriptors for peers.
    pub(crate) spares: Spares,
    /// Connections that may take bytes.
    pub(crate) writers: VecDeque<usize>,
    /// What is to be given.
    pub(crate) agenda: Agenda,
    buffer: Vec<u8>,
}

// Puts what has this token or number on a list, if it isn't there.
pub(crate) fn list(
    is_listed: &mut bool,
    token: usize,
    queue: &mut VecDeque<usize>,
) -> Result<(), Mem>
    ensures on { OnOk result (is_listed.new ≡ true) }
    ensures last { OnOk result (queue.new.items ≡ (if is_listed.old then queue.old.items else queue.old.items ++ token ∷ [])) }
    ensures memory { OnErr result (is_listed.old ≡ false) }
{
    if !*is_listed {
        queue.push_back(token)?;
        *is_listed = true;
    }
    Ok(())
}

impl Sockets {
    /// No socket yet. The one error is want of memory.
    pub(crate) fn new(alloc: Global, n: u8, is_client: bool) -> Result<Sockets, Mem> {
        Ok(Sockets {
            n,
            is_client,
            doors: Vec::new(alloc),
            conns: Conns::new(alloc)?,
            clients: 0,
            retries: Retries::new(alloc),
            open_doors: VecDeque::new(alloc),
            readers: Readers::new(alloc),
            strangers: Strangers::new(alloc),
            spares: Spares::new(alloc, if is_client { 0 } else { spares_for(n) }),
            writers: VecDeque::new(alloc),
            agenda: Agenda::new(alloc),
            buffer: Vec::from_elem(alloc, 0, LONGEST_READ)?,
        })
    }

    /// Whether something is to be done before an event comes.
    pub(crate) fn is_busy(&self) -> bool {
        !self.open_doors.is_empty() || !self.readers.is_empty() || self.agenda.len() > 0
    }

    // Takes note of an event at a door.
    fn note_door(&mut self, number: usize) -> Result<(), Mem>
        ensures memory { OnErr result (number < vec_len self.old.doors) }
    {
        match self.doors.get_mut(number) {
            Some(door) => list(&mut door.is_listed, number, &mut self.open_doors),
            // There is no such door.
            None => Ok(()),
        }
    }

    /// Takes note of an event.
    pub(crate) fn note(&mut self, event: &Event) -> Result<(), Mem>
        ensures memory { let token = (event_token event.now).0 in
            OnErr result ((token < vec_len self.old.doors)
            ⊎ (conn_at self.old.conns.places token ≢ None)) }
    {
        let token = event.token().0;
        if let Some(number) = door_of(token) {
            return self.note_door(number);
        }
        let Some(conn) = self.conns.get_mut(token) else {
            // It is gone.
            return Ok(());
        };
        let seen = told_by(event);
        conn.side.note(seen);
        if conn.side.is_write_due(seen) {
            list(&mut conn.side.listed.writes, token, &mut self.writers)?;
        }
        if seen.may_read() {
            self.readers.add(&mut conn.side, token)?;
        }
        self.settle(token)
    }

    /// Writes what the connections on the list can take.
    pub(crate) fn write_all(&mut self) -> Result<(), Mem>
        ensures memory { OnErr result (self.old.writers.items ≢ []) }
    {
        for _ in 0..self.writers.len() {
            let Some(token) = self.writers.pop_front() else {
                break;
            };
            self.write_to(token)?;
        }
        Ok(())
    }

    fn write_to(&mut self, token: usize) -> Result<(), Mem>
        ensures memory { OnErr result (conn_at self.old.conns.places token ≢ None) }
    {
        let Some(conn) = self.conns.get_mut(token) else {
            // It is gone.
            return Ok(());
        };
        if conn.side.off_writers() {
            conn.look();
            self.agenda.add_told(conn.side.whom.up(conn.side.stage))?;
        }
        if conn.side.is_ready() {
            conn.write();
        }
        self.settle(token)
    }

    /// Reads once from some clients, each in its turn.
    pub(crate) fn read_clients(&mut self) -> Result<(), Mem>
        ensures memory { OnErr result (self.old.readers.clients.items ≢ []) }
    {
        for _ in 0..self.readers.clients.len().min(CLIENTS_READ_A_TURN) {
            let Some(token) = self.readers.clients.pop_front() else {
                break;
            };
            self.read_from(token)?;
        }
        Ok(())
    }

    /// Reads once from each connection on the list of those that aren't clients'.
    pub(crate) fn read_all(&mut self) -> Result<(), Mem>
        ensures memory { OnErr result (self.old.readers.others.items ≢ []) }
    {
        for _ in 0..self.readers.others.len() {
            let Some(token) = self.readers.others.pop_front() else {
                break;
            };
            self.read_from(token)?;
        }
        Ok(())
    }

    fn read_from(&mut self, token: usize) -> Result<(), Mem>
        ensures memory { OnErr result (conn_at self.old.conns.places token ≢ None) }
    {
        let Some(conn) = self.conns.get_mut(token) else {
            // It is gone.
            return Ok(());
        };
        if !conn.side.off_readers() {
            return Ok(());
        }
        if conn.side.is_fed() {
            conn.side.is_unread = true;
        } else if conn.read(&mut self.buffer)? {
            self.readers.add(&mut conn.side, token)?;
        }
        self.retries.worked();
        conn.side.look_at_half(&mut self.retries, token)?;
        self.take_name(token)?;
        self.list_piece(token)?;
        self.settle(token)
    }

    // Puts a connection among those that have pieces, if it has one. With a length that isn't allowed it ends.
    fn list_piece(&mut self, token: usize) -> Result<(), Mem>
        ensures memory { OnErr result (conn_at self.old.conns.places token ≢ None) }
    {
        let Some(conn) = self.conns.get_mut(token) else {
            // It is gone.
            return Ok(());
        };
        conn.side.list_piece(&mut self.agenda, token)
    }

    /// A connection was closed, or one of a dial couldn't be begun: this is told of it, and the dial comes again. The one error is want
    /// of memory.
    pub(crate) fn closed(&mut self, told: Option<News>, dial: Option<Dial>) -> Result<(), Mem>
        ensures told { OnOk result (self.new.agenda ≡ with_told self.old.agenda told) }
        ensures again { OnOk result (self.new.retries.waiting.items ≡ self.old.retries.waiting.items ++ redial self.old.retries.clock (dial_again self.old.is_client dial)) }
        ensures memory { OnErr result ((told ≢ None)
            ⊎ (dial_again self.old.is_client dial ≢ None)) }
    {
        self.agenda.add_told(told)?;
        match dial_again(self.is_client, dial) {
            Some(dial) => self.retries.add(Retry::Dial(dial)),
            None => Ok(()),
        }
    }
}
