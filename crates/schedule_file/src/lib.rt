//! The schedule file: what happens to the replicas of a session, event by event.
//!
//! ```rust
//! use outside::{Buffer, MemSource};
//! use ritas_base::{Event, Mode, Params, SenderSet, Vect};
//! use schedule_file::{Header, HeaderKeys, Reader, Writer};
//!
//! let header = Header {
//!     session: 7,
//!     p: Params::new(4, 1)?,
//!     mode: Mode::new(6, Vect::Echo).ok_or("no mode")?,
//!     correct: SenderSet::from_mask(0b0111),
//!     keys: HeaderKeys::Master([7; 32]),
//! };
//! let mut file = Buffer::new(alloc);
//! Writer::start(&mut file, &header)?;
//! Writer::event(&mut file, &Event::Turn { at: 2 })?;
//! Writer::end(&mut file)?;
//! let mut source = MemSource::new(alloc, file.taken(), &[])?;
//! let (again, mut reader) = Reader::start(alloc, &mut source)?;
//! assert_eq!(rt; again.session, 7);
//! assert!(rt; matches!(reader.next(alloc, &mut source), Ok(Some(Event::Turn { at: 2 }))));
//! assert!(rt; matches!(reader.next(alloc, &mut source), Ok(None)));
//! ```
//!
//! A file has a header, events, and an end mark, at most 67,108,864 bytes. Numbers are big-endian.
//!
//! | Offset | Field | Rule |
//! |---|---|---|
//! | 0 | magic | the bytes `RITS` |
//! | 4 | version of the frames | 1 to 3 |
//! | 5 | session | 8 bytes |
//! | 13 | n | 1 to 31 |
//! | 14 | f | n is at least 3f + 1 |
//! | 15 | root service | 1 to 7 |
//! | 16 | broadcast of VECT | 1 echo, 2 reliable |
//! | 17 | correct replicas | 4 bytes: bit k stands for replica k, bits below n alone |
//! | 21 | form of the keys | 0 or 1 |
//!
//! In form 0 the master key follows, and the header has 54 bytes. In form 1 the keys of one replica alone follow, me,
//! which is the only correct one, and the header has 55 + 32n bytes.
//!
//! | Form | Offset | Field | Rule |
//! |---|---|---|---|
//! | 0 | 22 | master key | 32 bytes |
//! | 1 | 22 | me | below n; then the mask is 2^me |
//! | 1 | 23 | the keys that me shares with replicas 0 to n − 1 | 32 bytes each |
//! | 1 | 23 + 32n | the coin key of me | 32 bytes |
//!
//! | First byte | Event | Fields |
//! |---|---|---|
//! | 0 | end mark | none; the file ends here |
//! | 1 | frame | to (1), length (2), bytes |
//! | 2 | input | at (1), length (2), bytes |
//! | 3 | turn | at (1) |
//! | 4 | pass | from (1), to (1), number of the frame (4) |
//! | 5 | sealed | from (1), to (1), length (2), body |
//!
//! Replicas are below n, and the sender of a frame isn't its receiver. In form 1 each event is at me, and none is a pass or
//! sealed.
//!
//! `Reader` reads a file from a source, and answers its first fault from the left, in whatever pieces the source gives
//! it. `file_laws` says that what is read as a file is spelled so, and that what is spelled so is read; `file_faults`
//! says when each fault comes. `read_event` reads the event of one replica with which some bytes begin.
//!
//! `Writer` writes a file to a sink, part by part, and `event_size` says how many bytes an event takes. `writer_laws` says
//! that the parts are a file, how long it is, and that it is read back.
#![tactic(auto)]

mod fault;
mod header;
mod laws;
mod limit;
mod own_event;
mod pieces;
mod read_events;
mod read_header;
mod reader;
mod scope;
mod stage;
mod writer;

pub use fault::FileFault;
pub use header::{Header, HeaderKeys};
pub use laws::{file_faults, file_laws, own_event_laws, writer_laws};
pub use limit::{FILE_LIMIT, limit_is};
pub use own_event::read_event;
pub use reader::Reader;
pub use writer::{Writer, event_size};
