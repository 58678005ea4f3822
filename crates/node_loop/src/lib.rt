//! Serving: replicas, a link between them and others, and a tape on which each call is an event.
//!
//! The replicas that are served are the correct ones of a world, and what is served is a schedule of that world: each frame that the
//! link gives, each message of a client that is submitted, and each turn is an event (`specs/Serving.antt`). So what the laws of
//! worlds say of schedules holds of what was served, and the tape, with a header, is a schedule file that can be replayed.
//!
//! `serve` takes the link's items one after the other, by the rules that stand at it; `specs/Calls.antt` says what comes of each. The
//! items determine all that it does (`one_run`), and what a fault leaves is a front of it (`only_grows`).
//!
//! The frames of each call are kept for each peer until it acknowledges them, in the order in which they were
//! made (`specs/Peers.antt`), and go out again where the peer has a new connection, or asks for them
//! (`specs/Resending.antt`). How they do depends on the version of the session:
//! - In versions 1 and 2 at most 8,388,608 bytes are kept for one peer. A frame that doesn't fit goes out and
//!   isn't kept; of the frames that a journal's events make, the newest are kept. All that is kept for a peer
//!   goes out again at once.
//! - In version 3 all is kept, and goes out again in batches: the oldest frames, as many as have so many
//!   bytes together, and at least one. A new connection begins with a batch of 1,024 bytes. Once none of a
//!   batch's frames is kept any more the next one follows, up to the frame that was the newest as the
//!   connection came. Each may have 1,024 bytes more than the one before, up to 4,096: so a peer that is
//!   sent too much, and acknowledges it late, gets less. A peer that asks says from which number on: it is
//!   sent one frame from there on, and with its acknowledgement the batches behind it follow, of 1,024 bytes
//!   at first, up to the newest frame. Where batches are under way that will come to that number, nothing
//!   goes out beside them, and they go on up to the newest frame.
//!   Serving ends where more than 536,870,912 bytes are kept for all peers of a replica.
#![tactic(auto)]

mod again;
mod archive;
mod asks;
mod calls;
mod closing;
mod deliver;
mod end;
mod enter;
mod group;
mod house;
mod index;
mod kept;
mod laws;
mod limits;
mod output;
mod past;
mod peers;
mod recall;
mod refusals;
mod rounds;
mod server;
mod waiting;

pub use again::{serve_kept, serve_recovered};
pub use archive::ArchiveFault;
pub use end::ServeEnd;
pub use laws::{
    acks_are_earned, acts_are_deeds, events_fit, frames_are_made, kept_is_short, kept_makes,
    kept_stands, lives_print, one_run, only_grows, pieces_are_of_logs, recalled_are_sent,
    replies_are_true, resends_are_open,
};
pub use limits::{Closing, Limits};
pub use rounds::serve;
