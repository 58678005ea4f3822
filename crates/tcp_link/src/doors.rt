//! Where connections to replicas come in.

use crate::entry::Entry;
use crate::outcome::{Nobody, nobody_at};
use mio::net::{TcpListener, TcpStream};
use mio::{Interest, Registry, Token};
use std::net::{Net, SocketAddr};
use std::{io, str};

/// A door.
#[derive(Drop)]
pub(crate) struct Door {
    listener: TcpListener,
    pub(crate) entry: Entry,
    /// It is looked at in this turn, or after a pause.
    pub(crate) is_listed: bool,
}

/// What came of looking at a door.
#[derive(Drop)]
pub(crate) enum Arrival {
    /// A connection.
    Stream(TcpStream),
    /// None.
    None(Nobody),
}

/// The address that a text is, as `127.0.0.1:8080`.
pub(crate) fn address_of(text: &[u8]) -> Option<SocketAddr> {
    match str::from_utf8(text) {
        Ok(text) => text.parse::<SocketAddr>().ok(),
        Err(_) => None,
    }
}

/// Opens a door at an address; its events have this token.
pub(crate) fn open<R: Net>(
    rt: &R,
    registry: &Registry,
    address: SocketAddr,
    entry: Entry,
    token: usize,
) -> io::Result<Door> {
    let mut listener = TcpListener::bind(rt, address)?;
    registry.register(&mut listener, Token(token), Interest::READABLE)?;
    Ok(Door {
        listener,
        entry,
        is_listed: false,
    })
}

impl Door {
    /// Looks whether a connection waits.
    pub(crate) fn look(&self) -> Arrival {
        match self.listener.accept() {
            Ok((stream, _)) => Arrival::Stream(stream),
            Err(e) => Arrival::None(nobody_at(e.kind())),
        }
    }
}
