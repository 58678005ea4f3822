//! Connections that are begun here.

use crate::whom::Whom;
use mio::net::TcpStream;
use mio::{Interest, Registry, Token};
use std::io;
use std::net::{Net, SocketAddr};

/// Whom to connect with, and where.
#[derive(Clone, Copy)]
pub(crate) struct Dial {
    pub(crate) address: SocketAddr,
    pub(crate) whom: Whom,
}

/// Begins a connection; its events have this token.
pub(crate) fn begin<R: Net>(
    rt: &R,
    registry: &Registry,
    address: SocketAddr,
    token: usize,
) -> io::Result<TcpStream> {
    watched(registry, TcpStream::connect(rt, address)?, token)
}

/// A connection, whose events have this token from now on. It sends each write at once.
pub(crate) fn watched(
    registry: &Registry,
    mut stream: TcpStream,
    token: usize,
) -> io::Result<TcpStream> {
    stream.set_nodelay(true)?;
    registry.register(
        &mut stream,
        Token(token),
        Interest::READABLE | Interest::WRITABLE,
    )?;
    Ok(stream)
}
