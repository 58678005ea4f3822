//! Frames that were sent and aren't acknowledged yet, kept for each peer so that they can be sent again.
//!
//! ```rust
//! use link_resume::Resume;
//!
//! let mut resume = Resume::new(alloc, 4, most_kept(version))?;
//! resume.keep(1, 0, &frame)?;
//! resume.keep(1, 1, &the_next_one)?;
//! resume.acked(1, 0);
//! // what goes out again over a new connection to peer 1
//! assert_eq!(rt; resume.count(1), 1);
//! assert!(rt; resume.waiting(1, 0).is_some_and(|kept| kept.seq == 1));
//! ```
//!
//! A connection may break with frames on the way. So a replica keeps what it sends to a peer until the peer acknowledges it
//! by its number, and gives it to the link again when the peer has a connection again, or asks for it. In versions 1 and 2 of a session
//! at most 8,388,608 bytes are kept for one peer, so no peer that doesn't answer takes the room of others: where more is sent, it isn't
//! kept, or the peer's oldest frames are dropped first (`make_room`). In version 3 all is kept (`most_kept`), and goes out again in
//! batches of so many bytes (`batch`).
//!
//! A frame that is kept shares its body with those that carry it to others, and its tag is computed as it goes out. It takes 56 bytes in a
//! node of the tree, and as nodes are about half full where numbers ascend, some 125 bytes in all.
//!
//! Contracts see `Resume` as one list for each peer, in the order in which its frames were kept, with the limit (`specs/Lists.antt`). They
//! stand in a tree, by places that ascend. Numbers may come in any order. Where they ascend, as those of a replica's frames do, the place of
//! a frame is its number: whatever the order of acknowledgements, one takes steps in the logarithm of how many are kept.
#![tactic(auto)]

mod batch;
mod kept;
mod lane;
mod resume;

pub use batch::Batch;
pub use kept::{KeepFault, Kept, most_kept};
pub use resume::Resume;
