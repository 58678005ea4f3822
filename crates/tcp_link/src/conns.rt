//! The connections of a link, by their tokens, by their peers and by the numbers of clients.

ghost use Rattle.std.specs.Prelude.{◌≡◌, ◌<◌, ◌==◌, OnOk, count_by, option_copied};
ghost use Rattle.std.specs.Option.{SomeIff, option_copied_mut};
ghost use Rattle.std.specs.Ordering.{nat_cmp};
ghost use Rattle.std.specs.BTreeMap.{get as get_client};
ghost use Rattle.slab.specs.Slab.{slab_len};
ghost use Rattle.tcp_link.specs.Connections.{conn_at, if_done, is_up_at, newest_connection, noting, place_noted};
ghost use Rattle.tcp_link.specs.Limits.{most_conns};
ghost use Rattle.tcp_link.specs.Tokens.{token_of, serial_after, connection_place};

use crate::conn::Conn;
use crate::limits::MOST_REPLICAS;
use crate::tokens::{Tokens, place_in, place_of};
use crate::whom::Whom;
use ritas_base::Mem;
use slab::Slab;
use std::alloc::Global;
use std::collections::BTreeMap;

/// Connections. Each has a token of its own: the place where it stands, and a number that no other one there had.
#[derive(Drop)]
pub(crate) struct Conns {
    places: Slab<Conn>,
    tokens: Tokens,
    /// The token of the connection of replica `at` with `peer`, at `at * MOST_REPLICAS + peer`.
    peers: Vec<Option<usize>>,
    /// The token of a client's connection, by its number.
    clients: BTreeMap<u32, usize>,
}

impl Conns {
    /// No connection. The one error is want of memory.
    pub(crate) fn new(alloc: Global) -> Result<Conns, Mem> {
        Ok(Conns {
            places: Slab::new(alloc),
            tokens: Tokens::new(),
            peers: Vec::from_elem(alloc, None, MOST_REPLICAS * MOST_REPLICAS)?,
            clients: BTreeMap::new(alloc),
        })
    }

    /// Whether there is none.
    pub(crate) fn is_empty(&self) -> bool
        ensures { result ≡ (slab_len self.now.places == 0) }
    {
        self.places.is_empty()
    }

    /// The token of the connection that is added next, if there may be one more.
    pub(crate) fn next_token(&mut self) -> Option<usize>
        ensures { SomeIff result (self.old.places.vacant_key < most_conns) (token_of (serial_after self.old.tokens.serial) self.old.places.vacant_key) }
    {
        self.tokens.next(self.places.vacant_key())
    }

    /// Adds a connection, which has the token that was next. The one error is want of memory.
    pub(crate) fn add(&mut self, conn: Conn) -> Result<(), Mem>
        ensures { OnOk result (self.new.peers.items ≡ noting self.old.peers.items (place_noted conn.side.whom) conn.token) }
    {
        match conn.side.whom {
            Whom::Unnamed { at: _ } => {}
            Whom::Peer { at, peer } => self.set_peer(at, peer, conn.token),
            Whom::Client {
                at: _,
                conn: number,
            } => {
                self.clients.insert(number, conn.token)?;
            }
            Whom::Node { from } => self.set_peer(0, from, conn.token),
        }
        self.places.insert(conn)?;
        Ok(())
    }

    /// The connection of a token, if it is there.
    pub(crate) fn get(&self, token: usize) -> Option<&Conn>
        ensures { option_copied result ≡ conn_at self.now.places token }
    {
        let conn = self.places.get(place_in(token))?;
        if conn.token == token {
            Some(conn)
        } else {
            None
        }
    }

    /// The connection of a token, if it is there.
    pub(crate) fn get_mut(&mut self, token: usize) -> Option<&mut Conn>
        ensures { option_copied_mut result ≡ conn_at self.old.places token }
    {
        let conn = self.places.get_mut(place_in(token))?;
        if conn.token == token {
            Some(conn)
        } else {
            None
        }
    }

    // Takes out a connection.
    fn remove(&mut self, token: usize) -> Option<Conn>
        ensures { result ≡ conn_at self.old.places token }
    {
        self.get(token)?;
        let conn = self.places.try_remove(place_in(token))?;
        if let Whom::Client {
            at: _,
            conn: number,
        } = conn.side.whom
        {
            self.clients.remove(&number);
        }
        Some(conn)
    }

    /// Takes out a connection, if it is there and is done.
    pub(crate) fn remove_done(&mut self, token: usize) -> Option<Conn>
        ensures { result ≡ if_done (conn_at self.old.places token) }
    {
        let conn = self.get(token)?;
        if conn.side.is_done() {
            self.remove(token)
        } else {
            None
        }
    }

    /// The token of the newest connection of a replica with a peer.
    pub(crate) fn peer(&self, at: u8, peer: u8) -> Option<usize>
        ensures { result ≡ newest_connection self.now.peers.items at peer }
    {
        match self.peers.get(place_of(at, peer)?) {
            Some(token) => *token,
            None => None,
        }
    }

    /// This is the newest connection of a replica with a peer from now on.
    pub(crate) fn set_peer(&mut self, at: u8, peer: u8, token: usize)
        ensures { self.new.peers.items ≡ noting self.old.peers.items (connection_place at peer) token }
    {
        if let Some(place) = place_of(at, peer) {
            if let Some(newest) = self.peers.get_mut(place) {
                *newest = Some(token);
            }
        }
    }

    /// How many clients are there.
    pub(crate) fn clients_there(&self) -> usize {
        self.clients.len()
    }

    /// The token of a client's connection.
    pub(crate) fn client(&self, number: u32) -> Option<usize>
        ensures { result ≡ get_client nat_cmp self.now.clients number }
    {
        self.clients.get(&number).copied()
    }

    // Whether the connection of this token stands.
    fn is_up(&self, token: Option<usize>) -> bool
        ensures { result ≡ is_up_at self.now.places token }
    {
        let Some(token) = token else {
            return false;
        };
        match self.get(token) {
            Some(conn) => conn.side.stage.is_up(),
            None => false,
        }
    }

    /// How many connections with peers stand.
    pub(crate) fn peers_up(&self) -> usize
        ensures { result ≡ count_by (is_up_at self.now.places) self.now.peers.items }
    {
        self.peers
            .iter()
            .filter(|token| self.is_up(**token))
            .count()
    }
}
