//! The log of commands: one row for each request of a client that atomic broadcast has ordered and that is confirmed.
//!
//! ```rust
//! use command_log::Log;
//! use ritas_base::Id;
//!
//! let mut log = Log::new(alloc, 1);
//! // request 1 of client 7, which two replicas broadcast
//! let command = b"\0\0\0\x07\0\0\0\x01hi";
//! assert_eq!(rt; log.append(alloc, Id { origin: 0, num: 0 }, command)?, None);
//! assert_eq!(rt; log.append(alloc, Id { origin: 3, num: 0 }, command)?, Some(0));
//! assert_eq!(rt; log.find(7, 1), Some(0));
//! ```
//!
//! Atomic broadcast is that of Correia, Neves and Veríssimo, "From Consensus to Atomic Broadcast: Time-Free
//! Byzantine-Resistant Protocols without Signatures" (The Computer Journal, 2006). It orders identifiers, and each stands
//! for a command that was delivered. A client hands one request to several replicas, and each broadcasts it, so a
//! command can stand at several places of that order. It gets its row at the first place up to which f + 1 different
//! replicas have broadcast it, and one of them is correct: so a faulty replica can't invent a command. That a command
//! begins with its client's number and its request's, that f + 1 origins confirm it, and that a request counts once, is
//! this project's own.
//!
//! A cluster may go from one session, an epoch, to the next. The log of the next, `Log::over`, begins with the rows of the
//! epochs before as its base: positions go on from there, and a request that has a row there gets no second one. A
//! confirmed command of the client number 4,294,967,295, which is no client's, ends it: what comes behind that row is
//! void. A closing row of the base ends nothing. `Log::into_rows` hands the rows on, so that none is copied.
//!
//! Contracts see `Log` as a `Ledger`, whose rows have the newest first, and say for which list of entries it stands
//! (`specs/Rows.antt`, `specs/Standing.antt`). Each call says exactly what it answers, and `append` what it leaves. The
//! laws that replicas use stand on `command_rows`, `chain_rows` and `log_follows`: the rows of a part of an identifier log
//! are a part of the rows, and each row's command has f + 1 origins.
//!
//! Beside the rows stands an index of their positions, a map in order of one key of 64 bits for client and request. A map
//! with the same keys has the commands that wait, by their payloads, with the origins of each. So `append` and `find` cost a
//! search in these maps, whose steps grow with the logarithm of the rows and of the commands that wait, whatever numbers
//! clients choose. `row` and `len` cost the same at each length. Each row takes memory for itself, for its payload
//! and for one entry of the map, and stays for good. A command that waits takes memory for its payload and for an entry,
//! and stays until its client and request get a row; where they never do, it stays for good.
#![tactic(auto)]

mod closing;
mod laws;
mod log;
mod origins;
mod row;
mod rows;
mod waiting;

pub use closing::{CLOSING_CLIENT, closes};
pub use laws::{chain_rows, command_rows, log_follows};
pub use log::Log;
pub use row::LogRow;
pub use rows::Rows;
