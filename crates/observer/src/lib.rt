//! A log that is put together from the pieces that replicas give of theirs, of which up to f may be faulty.
//!
//! ```rust
//! use observer::Observer;
//! use ritas_base::Params;
//!
//! let mut observer = Observer::new(alloc, &Params::new(4, 1)?)?;
//! // row 0 of the log: command 0 of replica 0, request 1 of client 7, "hi"
//! let piece = b"\x03\0\0\0\0\x01\0\0\0\0\0\0\0\0\x07\0\0\0\x01\0\x02hi";
//! assert_eq!(rt; observer.piece(alloc, 0, piece), Ok(0));
//! assert_eq!(rt; observer.piece(alloc, 2, piece), Ok(1));
//! assert_eq!(rt; observer.len(), 1);
//! ```
//!
//! Correct replicas' logs are prefixes of one list, and a faulty replica may give anything. So a row is entered once
//! f + 1 replicas gave it at the next position: one of these is correct, and has it there. Then what is entered is a
//! prefix of the longest log of a correct replica, whatever the others give (`log_is_true`).
//!
//! `GivenRows` is the part that keeps what replicas gave. It begins at any position, and hands out each row that f + 1
//! replicas gave at the next one. Its owner may also pass a position, whose row it has from elsewhere. So a node that
//! fell behind takes over rows for a chain of its own by the same law (`given_row_is_true`, `row_is_true`).
//!
//! Contracts see `Observer` as a `Watcher`, and say for which list of pieces it stands (`specs/Watching.antt`,
//! `specs/Standing.antt`). They see `GivenRows` as a `Window`, which stands for a list of steps: pieces, and positions
//! that were passed (`specs/Giving.antt`, `specs/Places.antt`). What spells a piece is in
//! `command_log/specs/Pieces.antt`; how it is read from the left, and where it is wrong, in `specs/Reading.antt`. The
//! two are one (`pieces_are_read`).
//!
//! Beside the log there is a place for each of 31 replicas at each of the next 64 positions, and no more: a piece that
//! reaches farther is refused. A piece costs as much as its rows and what it enters, whatever came before.
#![tactic(auto)]

mod changed;
mod entering;
mod fault;
mod given;
mod keeping;
mod laws;
mod observing;
mod reading;
mod same;
mod taking;

pub use fault::PieceFault;
pub use given::GivenRows;
pub use laws::{given_row_is_true, log_is_true, pieces_are_read, row_is_true};
pub use observing::Observer;
