//! What came of a call at a socket, and of an event.

ghost use Rattle.std.specs.Prelude.{◌≡◌};
ghost use Rattle.tcp_link.specs.Outcomes.{moved_at, moved_of, reads_on, writes_on, is_well_by, IsOwnAddress, change_seen, nobody_at, event_seen, may_read, may_write};

use crate::stage::Change;
use mio::event::Event;
use std::io;
use std::io::ErrorKind;
use std::net::SocketAddr;

/// What came of one read or write.
#[derive(Clone, Copy)]
pub(crate) enum Moved {
    /// So many bytes, at least one.
    Bytes(usize),
    /// The socket isn't ready.
    Later,
    /// It was interrupted.
    Again,
    /// The other side sends no more.
    Closed,
    /// The connection failed.
    Failed,
}

/// Why no connection came in at a door.
#[derive(Clone, Copy)]
pub(crate) enum Nobody {
    /// One was gone before it was accepted.
    Gone,
    /// No connection waits.
    Waits,
    /// None can be accepted now, as for want of descriptors.
    Closed,
}

/// What an event tells of a connection.
#[derive(Clone, Copy)]
pub(crate) struct Seen {
    /// Bytes may have come.
    is_readable: bool,
    /// Bytes may be taken.
    is_writable: bool,
    /// The other side sends or takes no more, or the connection failed.
    pub(crate) is_closed: bool,
    /// Nothing can go out any more.
    pub(crate) is_broken: bool,
}

fn moved_at(kind: ErrorKind) -> Moved
    ensures { result ≡ moved_at kind }
{
    match kind {
        ErrorKind::WouldBlock => Moved::Later,
        ErrorKind::Interrupted => Moved::Again,
        _ => Moved::Failed,
    }
}

/// What a read or write means: no byte is the end of what the other side sends.
pub(crate) fn moved_by(outcome: io::Result<usize>) -> Moved
    ensures { result ≡ moved_of outcome }
{
    match outcome {
        Ok(0) => Moved::Closed,
        Ok(count) => Moved::Bytes(count),
        Err(e) => moved_at(e.kind()),
    }
}

/// Why no connection came in, by the error.
pub(crate) fn nobody_at(kind: ErrorKind) -> Nobody
    ensures { result ≡ nobody_at kind }
{
    match kind {
        ErrorKind::WouldBlock => Nobody::Waits,
        ErrorKind::ConnectionAborted | ErrorKind::Interrupted => Nobody::Gone,
        _ => Nobody::Closed,
    }
}

/// Whether no error is pending, by what the socket answered.
pub(crate) fn is_well(pending: io::Result<Option<io::Error>>) -> bool
    ensures { result ≡ is_well_by pending }
{
    match pending {
        Ok(None) => true,
        Ok(Some(_)) | Err(_) => false,
    }
}

/// Whether a connection reached its own address, if the addresses of both sides are known.
pub(crate) fn is_own(peer: io::Result<SocketAddr>, own: io::Result<SocketAddr>) -> Option<bool>
    ensures { IsOwnAddress peer own result }
{
    match (peer, own) {
        (Ok(peer), Ok(own)) => Some(peer == own),
        _ => None,
    }
}

/// What a look at a connection shows, where no error is pending or one is: whether it reached its own address, if both are known.
pub(crate) fn change_seen(is_well: bool, is_own: Option<bool>) -> Option<Change>
    ensures { result ≡ change_seen is_well is_own }
{
    match is_own {
        _ if !is_well => Some(Change::Ends),
        Some(true) => Some(Change::Ends),
        Some(false) => Some(Change::Stands),
        None => None,
    }
}

/// What an event tells.
pub(crate) fn told_by(event: &Event) -> Seen
    ensures { result ≡ event_seen event.now }
{
    Seen {
        is_readable: event.is_readable(),
        is_writable: event.is_writable(),
        is_closed: event.is_read_closed() || event.is_error() || event.is_write_closed(),
        is_broken: event.is_error() || event.is_write_closed(),
    }
}

impl Seen {
    /// Whether a read may tell something new.
    pub(crate) fn may_read(self) -> bool
        ensures { result ≡ may_read self }
    {
        self.is_readable || self.is_closed
    }

    /// Whether a write may tell something new.
    pub(crate) fn may_write(self) -> bool
        ensures { result ≡ may_write self }
    {
        self.is_writable || self.is_closed
    }
}

impl Moved {
    /// Whether a read into so much room is followed by another. One that doesn't fill its room took all that there was, by epoll(7).
    pub(crate) fn reads_on(self, room: usize, is_hung_up: bool) -> bool
        ensures { result ≡ reads_on room is_hung_up self }
    {
        match self {
            Moved::Bytes(count) => count == room || is_hung_up,
            Moved::Again => true,
            Moved::Later | Moved::Closed | Moved::Failed => false,
        }
    }

    /// Whether a write is followed by another.
    pub(crate) fn writes_on(self) -> bool
        ensures { result ≡ writes_on self }
    {
        match self {
            Moved::Bytes(_) | Moved::Again => true,
            Moved::Later | Moved::Closed | Moved::Failed => false,
        }
    }
}
