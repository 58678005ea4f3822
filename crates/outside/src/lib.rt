//! Where bytes come from and where they go, what they are kept on, what a replica has to do with others, and the faults of all of
//! these.
//!
//! ```rust
//! use outside::{Failed, MemSink, MemSource, Sink, read_whole, write_all};
//!
//! let mut source = MemSource::new(alloc, b"abcde", &[])?;
//! let text = read_whole(alloc, &mut source, 5)?;
//! // the second call of this sink, of number 1, fails
//! let mut sink = MemSink::new(alloc, 9, &[1])?;
//! write_all(&mut sink, &text)?;
//! assert_eq!(rt; sink.write(b"f"), Err(Failed));
//! assert_eq!(rt; sink.taken(), b"abcde".as_slice());
//! ```
//!
//! A `Source` gives the bytes that it has left in pieces of its own choice, and a `Sink` takes bytes in pieces. A `Disk` is read and
//! written at offsets, and synced. A `Link` is started with a plan, gives items, and takes frames and replies. Each counts the calls that failed: a call that fails raises
//! that count by one, up to its last value, 2^64 - 1, and no other call changes it. A link also counts so the calls that were
//! without memory.
//!
//! What a source has left, what a sink took, what a disk holds, and which calls of a link answered Ok is told by the forms in
//! memory, `MemSource`, `MemSink`, `MemDisk` and `MemLink`, which are exact in their contents and in which calls fail, and by
//! `Buffer`, a sink that grows and fails only for want of memory. It isn't told by the forms over the system, `FromRead`,
//! `ToWrite` and `FileDisk`: each call of the first two is one call of what they go over, and no contract says what that gives or
//! takes.
//!
//! `write_all` writes a whole text to a sink, and `read_whole` reads all that a source has left, up to a limit. How calls
//! that are made of writes write their texts one after the other is said by the lemmas of `specs/WritingLaws.antt`. The calls
//! of a link are one list, in the order in which they were made; the plans, items, frames and replies are read off it
//! (`specs/Links.antt`). What several calls told, one after the other, is said by `LinkDid` (`specs/LinkCalls.antt`) and the lemmas
//! of `specs/LinkCallsLaws.antt`.
//!
//! A disk has states (`specs/Disks.antt`): what a read gives, what the last sync left, and which ranges were written since. Their
//! images are the files that a stop may leave. `put` writes and syncs, and says what a stop leaves at each moment of it. A disk in
//! memory can be stopped: `MemDisk::after_stop` holds one of its images.
#![tactic(auto)]

mod adapters;
mod calls;
mod course;
mod disk;
mod file_disk;
mod growing;
mod link;
mod mem_disk;
mod mem_link;
mod memory;
mod sink;
mod source;
mod whole;

pub use adapters::{FromRead, ToWrite};
pub use calls::{ReadCall, WriteCall};
pub use disk::{Disk, put};
pub use file_disk::FileDisk;
pub use growing::Buffer;
pub use link::{FaultCounts, Link, LinkFault, LinkItem, LinkPlan, Sent};
pub use mem_disk::MemDisk;
pub use mem_link::MemLink;
pub use memory::{MemSink, MemSource};
pub use sink::{Sink, write_all};
pub use source::{Failed, Source};
pub use whole::{ReadFault, read_whole};
