//! The text of an epoch's record in a chain file, written and read exactly.
//!
//! ```rust
//! use chain_file::{chain_form, epoch_len, read_epoch, write_epoch};
//! use command_log::{LogRow, Rows};
//! use outside::Buffer;
//! use record_file::write_front;
//! use ritas_base::{Bytes, Id};
//!
//! let mut rows = Rows::new(alloc);
//! let id = Id { origin: 2, num: 5 };
//! let payload = Bytes::from_slice(alloc, b"hi")?;
//! rows.enter(LogRow { id, client: 7, request: 1, payload })?;
//! let waiting = [Bytes::from_slice(alloc, b"\0\0\0\x07\0\0\0\x02!")?];
//! // the first epoch of a chain, whose rows are those from position 0 on
//! let mut text = Buffer::new(alloc);
//! if let Some(len) = epoch_len(&rows, 0, &waiting) {
//!     write_front(&mut text, &chain_form(), len)?;
//!     write_epoch(&mut text, &rows, 0, &waiting)?;
//! }
//! // behind the gate and the length of the record, which have five bytes
//! let epoch = read_epoch(alloc, &text.taken()[5..])?;
//! assert!(rt; epoch.rows.len() == 1 && epoch.waiting.len() == 1);
//! ```
//!
//! A chain file is a file of records of the crate `record_file` (`chain_form`). Its record number k is that of epoch k: the
//! rows that the chain got in that epoch, and the requests that waited as it was closed. All numbers are big-endian:
//!
//! | Part | Bytes |
//! |---|---|
//! | text of an epoch | count of rows (4), these rows, count of requests (2), these requests |
//! | row | origin (1), number (4), client (4), request (4), length of the payload (2), payload |
//! | request | its length (2), its bytes (8 to 4,096): the message of a client |
//!
//! The oldest row is first, and the oldest request. A row is written as in a piece of a log, and its payload has at most 65,535
//! bytes. Contracts see an epoch as a `ClosedEpoch`, whose rows have the newest first (`specs/Epochs.antt`).
//!
//! Nothing follows the last request. An epoch has one text, and a text is of one epoch (`epochs_are_read`). `read_epoch` reads it in
//! one pass, and gives its rows and requests as `EpochParts`, which have the oldest first.
#![tactic(auto)]

mod fault;
mod form;
mod laws;
mod length;
mod reading;
mod writing;

pub use fault::EpochFault;
pub use form::chain_form;
pub use laws::epochs_are_read;
pub use length::epoch_len;
pub use reading::{EpochParts, read_epoch};
pub use writing::write_epoch;
