//! The numbers by which connections, doors and pairs of replicas are found.

ghost use Rattle.std.specs.Prelude.{◌≡◌, ◌<◌, ◌≤◌, Some, IfSome, IfNone};
ghost use Rattle.std.specs.Option.{SomeIff};
ghost use Rattle.tcp_link.specs.Limits.{most_conns};
ghost use Rattle.tcp_link.specs.Tokens.{token_of, serial_after, token_place, connection_place, ends_of_all, spares_for, replica_count};

use crate::limits::{
    MOST_CONNS, MOST_REPLICAS, MOST_SERIALS, SPARES_OF_REPLICA, SPARES_OF_STRANGERS,
};

/// Makes tokens of connections, no two of which are the same among 1,000,000,000,000 in a row.
#[derive(Clone, Copy)]
pub(crate) struct Tokens {
    serial: usize,
}

impl Tokens {
    /// No token was made.
    pub(crate) fn new() -> Tokens
        ensures { result.serial ≡ 0 }
    {
        Tokens { serial: 0 }
    }

    /// The token of a connection that is to stand at this place, if there may be one more.
    pub(crate) fn next(&mut self, place: usize) -> Option<usize>
        ensures room { SomeIff result (place < most_conns) (token_of (serial_after self.old.serial) place) }
        ensures made { place < most_conns → self.new.serial ≡ serial_after self.old.serial }
        ensures full { most_conns ≤ place → self.new ≡ self.old }
    {
        if place >= MOST_CONNS {
            return None;
        }
        self.serial = self.serial % MOST_SERIALS + 1;
        Some(self.serial * MOST_CONNS + place)
    }
}

/// Where the connection of a token stands.
pub(crate) fn place_in(token: usize) -> usize
    ensures { result ≡ token_place token }
{
    token % MOST_CONNS
}

/// The number of the door of a token, if it is one's.
pub(crate) fn door_of(token: usize) -> Option<usize>
    ensures { SomeIff result (token < most_conns) token }
{
    if token < MOST_CONNS {
        Some(token)
    } else {
        None
    }
}

/// Where the connection of replica `at` with `peer` is noted, if both numbers are below 31.
pub(crate) fn place_of(at: u8, peer: u8) -> Option<usize>
    ensures { result ≡ connection_place at peer }
{
    let (at, peer) = (usize::from(at), usize::from(peer));
    if at < MOST_REPLICAS && peer < MOST_REPLICAS {
        Some(at * MOST_REPLICAS + peer)
    } else {
        None
    }
}

/// How many ends of connections stand once every two of n replicas are connected.
pub(crate) fn ends_of_all(n: u8) -> usize
    ensures { result ≡ ends_of_all n }
{
    let n = usize::from(n);
    n * n.saturating_sub(1)
}

/// How many descriptors are held for peers of n replicas.
pub(crate) fn spares_for(n: u8) -> usize
    ensures { result ≡ spares_for n }
{
    SPARES_OF_REPLICA * usize::from(n) + SPARES_OF_STRANGERS
}

/// How many replicas so many addresses are of: more than 31 aren't reached.
pub(crate) fn count_of(addresses: usize) -> u8
    ensures { result ≡ replica_count addresses }
{
    addresses.min(MOST_REPLICAS) as u8
}
