//! A pause is made before a node is asked again whose last piece told nothing new.

ghost use Rattle.std.specs.Prelude.{◌≡◌, ◌≢◌, ◌++◌, true, None, OnOk, OnErr};
ghost use Rattle.tcp_link.specs.Connections.{conn_at};
ghost use Rattle.tcp_link.specs.Sides.{is_rest_due, resting, rested};
ghost use Rattle.tcp_link.specs.Waits.{rest_again};

use crate::retries::{Retries, Retry};
use crate::side::Side;
use crate::sockets::{Sockets, list};
use ritas_base::Mem;

impl Side {
    // Whether a pause begins.
    fn is_rest_due(&self) -> bool
        ensures { result ≡ is_rest_due self.now }
    {
        self.gave_little && !self.listed.rests
    }

    /// A pause begins if it is a node whose last piece told nothing new: until it is over nothing is written to that node. The one error is
    /// want of memory.
    pub(crate) fn rest(&mut self, retries: &mut Retries, token: usize) -> Result<(), Mem>
        ensures side { OnOk result (self.new ≡ resting self.old) }
        ensures again { OnOk result (retries.new.waiting.items ≡ retries.old.waiting.items ++ rest_again retries.old.clock token (is_rest_due self.old)) }
        ensures memory { OnErr result (is_rest_due self.old ≡ true) }
        ensures looks { retries.new.looks ≡ retries.old.looks }
        ensures clock { retries.new.clock ≡ retries.old.clock }
    {
        if self.is_rest_due() {
            retries.add(Retry::Rest(token))?;
            self.gave_little = false;
            self.listed.rests = true;
        }
        Ok(())
    }

    // The pause is over.
    fn end_rest(&mut self)
        ensures { self.new ≡ rested self.old }
    {
        self.listed.rests = false;
    }
}

impl Sockets {
    /// The pause before a node is written to is over. What was kept for it meanwhile goes out: so
    /// `a_watch_is_patient` of `cases/watch` shows.
    pub(crate) fn write_rested(&mut self, token: usize) -> Result<(), Mem>
        ensures memory { OnErr result (conn_at self.old.conns.places token ≢ None) }
    {
        let Some(conn) = self.conns.get_mut(token) else {
            // It is gone.
            return Ok(());
        };
        conn.side.end_rest();
        if conn.side.is_ready() && conn.side.has_output() {
            list(&mut conn.side.listed.writes, token, &mut self.writers)?;
        }
        self.settle(token)
    }
}
