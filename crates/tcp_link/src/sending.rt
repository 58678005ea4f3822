//! What goes out.

ghost use Rattle.std.specs.Prelude.{◌≢◌, ◌<◌, ◌^◌, None, OnErr, length};
ghost use Rattle.std.specs.Ordering.{nat_cmp};
ghost use Rattle.std.specs.BTreeMap.{get as get_client};
ghost use Rattle.tcp_link.specs.Connections.{conn_at};
ghost use Rattle.tcp_link.specs.Names.{sent_through};

use crate::sockets::{Sockets, list};
use crate::whom::sent_through;
use ritas_base::Mem;

impl Sockets {
    /// Sends a frame to a peer of a replica, or a message to a node. It is dropped where no connection stands; but a message is kept
    /// where the connection was begun and doesn't stand yet. A frame is also dropped where it is longer than the peer takes.
    pub(crate) fn send(&mut self, at: u8, peer: u8, bytes: &[u8]) -> Result<(), Mem>
        requires { length bytes.now < 2 ^ 16 }
        ensures memory { OnErr result
            (sent_through self.old.is_client at (length bytes.now) ≢ None) }
    {
        let Some(at) = sent_through(self.is_client, at, bytes.len()) else {
            return Ok(());
        };
        match self.conns.peer(at, peer) {
            Some(token) => self.put(token, bytes),
            None => Ok(()),
        }
    }

    /// Sends a message to a client of a replica. It is dropped where there is no connection.
    pub(crate) fn reply(&mut self, at: u8, number: u32, bytes: &[u8]) -> Result<(), Mem>
        requires { length bytes.now < 2 ^ 16 }
        ensures memory { OnErr result (get_client nat_cmp self.old.conns.clients number ≢ None) }
    {
        let Some(token) = self.conns.client(number) else {
            return Ok(());
        };
        match self.conns.get(token) {
            Some(conn) if conn.side.whom.is_client_of(at) => self.put(token, bytes),
            _ => Ok(()),
        }
    }

    // Keeps a piece to go out by a connection.
    fn put(&mut self, token: usize, bytes: &[u8]) -> Result<(), Mem>
        requires { length bytes.now < 2 ^ 16 }
        ensures memory { OnErr result (conn_at self.old.conns.places token ≢ None) }
    {
        let Some(conn) = self.conns.get_mut(token) else {
            // It is gone.
            return Ok(());
        };
        if !conn.side.takes() {
            return Ok(());
        }
        conn.keep(bytes)?;
        if conn.side.is_ready() && conn.side.has_output() {
            list(&mut conn.side.listed.writes, token, &mut self.writers)?;
        }
        self.settle(token)
    }
}
