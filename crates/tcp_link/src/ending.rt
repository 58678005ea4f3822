//! Connections that are replaced, read to their end, and closed.

ghost use Rattle.std.specs.Prelude.{◌≡◌, ◌≢◌, ◌⊎◌, ◌++◌, None, OnOk, OnErr};
ghost use Rattle.tcp_link.specs.Connections.{conn_at};
ghost use Rattle.tcp_link.specs.Names.{dial_again, told_at_end};
ghost use Rattle.tcp_link.specs.Queues.{with_told};
ghost use Rattle.tcp_link.specs.Waits.{redial};

use crate::conn::Conn;
use crate::retries::Retry;
use crate::sockets::Sockets;
use crate::stage::Change;
use crate::whom::Naming;
use ritas_base::Mem;

impl Sockets {
    /// Takes the number that a peer told, whose connection stands in place of an older one from then on.
    pub(crate) fn take_name(&mut self, token: usize) -> Result<(), Mem>
        ensures memory { OnErr result (conn_at self.old.conns.places token ≢ None) }
    {
        let Some(conn) = self.conns.get_mut(token) else {
            // It is gone.
            return Ok(());
        };
        let Naming::Names { at, peer } = conn.side.take_name(self.n) else {
            return Ok(());
        };
        self.agenda.add_told(conn.side.whom.up(conn.side.stage))?;
        if let Some(older) = self.conns.peer(at, peer) {
            self.replace(older, token)?;
        }
        self.conns.set_peer(at, peer, token);
        Ok(())
    }

    // A newer connection of a peer waits until the older one is read to its end. Where that one waits itself, the oldest ends.
    fn replace(&mut self, older: usize, newer: usize) -> Result<(), Mem>
        ensures memory { OnErr result (conn_at self.old.conns.places older ≢ None) }
    {
        let Some(conn) = self.conns.get_mut(older) else {
            // It is gone.
            return Ok(());
        };
        conn.side.change(Change::IsReplaced);
        conn.side.newer = Some(newer);
        let oldest = conn.side.behind;
        if let Some(conn) = self.conns.get_mut(newer) {
            conn.side.behind = Some(older);
        }
        if let Some(oldest) = oldest {
            self.end(oldest)?;
        }
        self.settle(older)
    }

    /// A connection ends.
    pub(crate) fn end(&mut self, token: usize) -> Result<(), Mem>
        ensures memory { OnErr result (conn_at self.old.conns.places token ≢ None) }
    {
        let Some(conn) = self.conns.get_mut(token) else {
            // It is gone.
            return Ok(());
        };
        conn.side.change(Change::Ends);
        self.settle(token)
    }

    /// Begins to read a connection to its end, once it takes no bytes, and closes it, once it is over and no piece is to be given from
    /// it.
    pub(crate) fn settle(&mut self, token: usize) -> Result<(), Mem>
        ensures memory { OnErr result (conn_at self.old.conns.places token ≢ None) }
    {
        let Some(conn) = self.conns.get_mut(token) else {
            // It is gone.
            return Ok(());
        };
        if conn.side.begin_to_drain() {
            conn.stop_writing();
            self.readers.add(&mut conn.side, token)?;
            self.retries.add(Retry::Drain(token))?;
        }
        match self.conns.remove_done(token) {
            Some(conn) => self.close(conn),
            None => Ok(()),
        }
    }

    /// Looks again at a connection that is read to its end, which ends after a while.
    pub(crate) fn drain_on(&mut self, token: usize) -> Result<(), Mem>
        ensures memory { OnErr result (conn_at self.old.conns.places token ≢ None) }
    {
        let Some(conn) = self.conns.get_mut(token) else {
            // It is gone.
            return Ok(());
        };
        conn.side.tick();
        if conn.side.stage.is_draining() {
            self.retries.add(Retry::Drain(token))?;
        }
        self.settle(token)
    }

    // A connection that was taken out is closed, and told of, and its dial comes again.
    fn close(&mut self, conn: Conn) -> Result<(), Mem>
        ensures told { OnOk result (self.new.agenda ≡ with_told self.old.agenda (told_at_end conn.side.stage conn.side.has_given conn.side.whom)) }
        ensures again { OnOk result (self.new.retries.waiting.items
            ≡ self.old.retries.waiting.items ++ redial self.old.retries.clock (dial_again self.old.is_client conn.side.dial)) }
        ensures memory { OnErr result ((conn.side.newer ≢ None)
            ⊎ ((told_at_end conn.side.stage conn.side.has_given conn.side.whom ≢ None)
            ⊎ (dial_again self.old.is_client conn.side.dial ≢ None))) }
    {
        if let Some(newer) = conn.side.newer {
            self.release(newer)?;
        }
        let told = conn.side.whom.ended(conn.side.stage, conn.side.has_given);
        self.closed(told, conn.side.dial)
    }

    // A connection waits for no older one any more, and is read.
    fn release(&mut self, token: usize) -> Result<(), Mem>
        ensures agenda { self.new.agenda ≡ self.old.agenda }
        ensures retries { self.new.retries ≡ self.old.retries }
        ensures plan { self.new.is_client ≡ self.old.is_client }
        ensures memory { OnErr result (conn_at self.old.conns.places token ≢ None) }
    {
        let Some(conn) = self.conns.get_mut(token) else {
            // It is gone.
            return Ok(());
        };
        conn.side.behind = None;
        self.readers.add(&mut conn.side, token)
    }
}
