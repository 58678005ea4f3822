//! A row of the log, which is a command in its parts.

use ritas_base::{Bytes, Id};

/// A row of the log: the identifier of a command, and the command in its parts.
#[derive(Debug, Drop)]
pub struct LogRow {
    /// The replica that broadcast the command, and its number there.
    pub id: Id,
    /// The client's number, the first four bytes of the command.
    pub client: u32,
    /// The client's number for its request, the next four bytes.
    pub request: u32,
    /// The bytes after them, of which there may be none.
    pub payload: Bytes,
}
