//! The journal of a replica: the events that it took, each on a disk before what came of it goes out.
//!
//! ```rust
//! use event_journal::{journal_head, open_journal};
//! use outside::MemDisk;
//! use ritas_base::{Event, Mode, Params, Vect};
//!
//! let p = Params::new(1, 0)?;
//! let mode = Mode::new(6, Vect::Echo).ok_or("no mode")?;
//! let head = journal_head(7, p, mode, 0, &[[0; 32]; 31], &[0; 32]);
//! let mut disk = MemDisk::new(alloc, b"", 4_096, 100, &[])?;
//! let (mut journal, _events) = open_journal(alloc, &mut disk, 0, &head)?;
//! journal.append(alloc, &mut disk, &Event::Turn { at: 0 })?;
//! // the replica stops here; in its next life the event happens again
//! let (_journal, events) = open_journal(alloc, &mut disk, 0, &head)?;
//! assert_eq!(rt; events.len(), 1);
//! ```
//!
//! | Offset | Field | Rule |
//! |---|---|---|
//! | 0 | made | 1 where the file is made |
//! | 1 | head | 51 bytes, which name the session and the replica (`journal_head`) |
//! | 52 | records | a gate, which is 1; a length (2); an event of a schedule file at the replica |
//!
//! It is a file of `record_file`, whose records are the texts of events. A gate other than 1, a closed one, follows the last record
//! and ends what is read; what stands behind it counts for nothing. A file has at most 67,108,864 bytes.
//!
//! `open_journal` gives the events of a disk's file, and makes a file that isn't made. `Journal::append_all` appends some events
//! together, and `append` one. `Journal::renew` begins the file anew, under another head, with no events. Whenever a stop comes, the
//! file that it leaves opens as the events before, with all of the new ones or with none. From Ok on it opens with them. This holds
//! too for a stop that tears what was written since the last sync. A file has one reading (`journal_laws`).
#![tactic(auto)]

mod fault;
mod head;
mod journal;
mod laws;
mod opening;
mod reading;

pub use fault::JournalFault;
pub use head::journal_head;
pub use journal::Journal;
pub use laws::journal_laws;
pub use opening::open_journal;
