//! What clients and replicas say to each other, and what a client makes of the replies.
//!
//! ```rust
//! use client_port::{Votes, read_request, write_reply, write_request};
//! use ritas_base::Params;
//!
//! // request 1 of client 7, which goes to each of four replicas, one of which may be faulty
//! let message = write_request(alloc, 7, 1, b"hi")?;
//! assert!(rt; read_request(message.as_slice()).is_some_and(|request| request.client == 7));
//! let p = Params::new(4, 1)?;
//! let mut votes = Votes::new(&p, 7, 1);
//! assert_eq!(rt; votes.reply(0, &write_reply(7, 1, 5)), Ok(None));
//! assert_eq!(rt; votes.reply(1, &write_reply(7, 1, 9)), Ok(None));
//! assert_eq!(rt; votes.reply(2, &write_reply(7, 1, 5)), Ok(Some(5)));
//! ```
//!
//! A client hands its request to several replicas, and each replies the position at which the request stands in its log.
//! Up to f of them may be faulty and reply anything. So a client takes a position once f + 1 replicas have replied it:
//! one of these is correct, and has the request there (`position_is_true`). The rule is that of Castro and Liskov,
//! "Practical Byzantine Fault Tolerance" (OSDI 1999); the bytes are this project's own. All numbers are big-endian:
//!
//! | Message | Bytes |
//! |---|---|
//! | request | client (4), request (4), payload (0 to 4,088) |
//! | position | 1, client (4), request (4), position (4) |
//! | refusal | 2, client (4), request (4), number of the fault (4) |
//! | query | 0x4c, position (4) |
//! | piece of the log | 3, position (4), count of rows (1, 0 to 8), and these rows |
//! | row of a piece | origin (1), number (4), client (4), request (4), length of the payload (2), payload |
//!
//! A client that asks for a position of the log is given a piece of it: the rows from there on (`write_piece`). What
//! comes of the pieces of several replicas is the business of the crate `observer`.
//!
//! Contracts say these bytes exactly (`specs/Messages.antt`, and for pieces `specs/Pieces.antt` of `command_log`), and
//! what is written is read (`requests_are_read`, `replies_are_read`, `queries_are_read`). `Votes` keeps the first
//! position of each replica and no list of replies: `specs/Votes.antt` says for which lists of calls it stands, and what
//! is answered after each of them. Who sent a reply the caller tells, as its connection does; nothing here is tagged.
//!
//! No call but `write_request` and `write_piece` takes memory.
#![tactic(auto)]

mod front;
mod laws;
mod number;
mod piece;
mod query;
mod reply;
mod request;
mod votes;

pub use front::{RequestFront, read_front};
pub use laws::{position_is_true, queries_are_read, replies_are_read, requests_are_read};
pub use number::number_at;
pub use piece::{
    LONGEST_LOG_PIECE, MOST_PIECE_ROWS, PIECE_FORM, PIECE_FRONT, PIECE_ROW_FRONT, write_piece,
};
pub use query::{QUERY_LEN, read_query, write_query};
pub use reply::{REPLY_LEN, write_refusal, write_reply};
pub use request::{RequestView, read_request, write_request};
pub use votes::{ReplyFault, Votes};
