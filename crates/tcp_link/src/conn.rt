//! One connection: its socket, and what is known of it.

ghost use Rattle.std.specs.Prelude.{◌≡◌, ◌<◌, ◌^◌, OnOk, length};
ghost use Rattle.tcp_link.specs.Sides.{IsCapped};

use crate::limits::MOST_WRITES;
use crate::outcome::{change_seen, is_own, is_well, moved_by};
use crate::side::Side;
use crate::stage::Change;
use mio::net::TcpStream;
use ritas_base::Mem;
use std::io::{Read, Write};
use std::net::Shutdown;

/// A connection.
#[derive(Drop)]
pub(crate) struct Conn {
    stream: TcpStream,
    pub(crate) token: usize,
    pub(crate) side: Side,
}

impl Conn {
    /// A connection over this stream.
    pub(crate) fn new(stream: TcpStream, token: usize, side: Side) -> Conn
        ensures token { result.token ≡ token }
        ensures side { result.side ≡ side }
    {
        Conn {
            stream,
            token,
            side,
        }
    }

    /// Looks whether it stands by now, having been begun.
    pub(crate) fn look(&mut self) {
        let is_well = is_well(self.stream.take_error());
        let is_own = is_own(self.stream.peer_addr(), self.stream.local_addr());
        if let Some(change) = change_seen(is_well, is_own) {
            self.side.change(change);
        }
    }

    /// Reads once, and says whether to read again. The one error is want of memory.
    pub(crate) fn read(&mut self, buffer: &mut [u8]) -> Result<bool, Mem> {
        let moved = moved_by((&self.stream).read(buffer));
        self.side.read(moved, buffer)?;
        Ok(moved.reads_on(buffer.len(), self.side.is_hung_up))
    }

    // Writes once, and says whether to go on.
    fn write_once(&mut self) -> bool {
        let moved = moved_by((&self.stream).write(self.side.to_go_out()));
        self.side.wrote(moved);
        moved.writes_on()
    }

    /// Writes what it can.
    pub(crate) fn write(&mut self) {
        for _ in 0..MOST_WRITES {
            if !self.side.has_output() || !self.write_once() {
                break;
            }
        }
    }

    /// Tells the other side that no byte goes out any more.
    pub(crate) fn stop_writing(&self) {
        let _ = self.stream.shutdown(Shutdown::Write);
    }

    /// Keeps a piece to go out; many bytes are written at once, and with too many it takes no more. The one error is want of memory.
    pub(crate) fn keep(&mut self, bytes: &[u8]) -> Result<(), Mem>
        requires { length bytes.now < 2 ^ 16 }
        ensures { OnOk result (IsCapped self.new.side) }
    {
        self.side.keep(bytes)?;
        if self.side.has_much() {
            self.write();
        }
        self.side.cap();
        Ok(())
    }
}
