//! A file of records, to which records are appended, all of a group or none, whatever stop comes.
//!
//! ```rust
//! use outside::{Buffer, MemDisk, write_all};
//! use record_file::{LengthWidth, RecordForm, open_records, record_in, write_record};
//!
//! let form = RecordForm::new(LengthWidth::Four, 4, 65_536);
//! let mut disk = MemDisk::new(alloc, b"", 4_096, 100, &[])?;
//! let (mut file, _bytes) = open_records(alloc, &mut disk, &form, b"LOGS")?;
//! let mut text = Buffer::new(alloc);
//! write_record(&mut text, &form, b"first")?;
//! write_record(&mut text, &form, b"second")?;
//! // a closed gate behind the last record
//! write_all(&mut text, &[0])?;
//! file.append(&mut disk, text.taken())?;
//! // a stop here leaves both
//! let (_file, bytes) = open_records(alloc, &mut disk, &form, b"LOGS")?;
//! let mut at = form.first_gate();
//! let mut count = 0;
//! while let Some((_record, next)) = record_in(&form, &bytes, at) {
//!     count += 1;
//!     at = next;
//! }
//! assert_eq!(rt; count, 2);
//! ```
//!
//! | Offset | Field | Rule |
//! |---|---|---|
//! | 0 | made | 1 where the file is made |
//! | 1 | head | as many bytes as the form says, at most 255; they name what the file belongs to |
//! | behind the head | records | a gate, which is 1; a length (2 or 4, as the form says); so many bytes |
//!
//! A gate other than 1, a closed one, follows the last record and ends what is read. What stands behind it counts for nothing. A
//! file has at most as many bytes as its form says, up to 4 GiB. What the bytes of a record mean is for the caller.
//!
//! `open_records` gives the bytes of a disk's file, and makes a file that isn't made. It clears byte 0 where it is missing or 1,
//! writes the head and a closed gate behind it, and then writes 1 to byte 0, with a sync behind each. `record_in` gives one
//! record after another of the bytes. `RecordFile::append` writes the text of some records behind the closed gate, but for its
//! first byte; syncs; opens the first gate; and syncs. `RecordFile::renew` begins the file anew under another head, as it is
//! made. Neither takes memory. Whenever a stop comes, the file that it leaves opens as the records before, with all of the new
//! ones or with none, and from Ok on with them. So it does after a stop that tears what was written since the last sync. A file
//! has one reading (`record_laws`).
#![tactic(auto)]

mod fault;
mod file;
mod form;
mod laws;
mod making;
mod opening;
mod reading;
mod writing;

pub use fault::RecordFault;
pub use file::RecordFile;
pub use form::{LengthWidth, RecordForm};
pub use laws::record_laws;
pub use opening::{open_read, open_records, read_records};
pub use reading::record_in;
pub use writing::{write_front, write_record};
