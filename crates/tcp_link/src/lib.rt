//! A link over TCP (RFC 9293), whose sockets are waited for by epoll(7).
//!
//! Of two replicas the one with the greater number connects, and writes one byte first, its number. From then on both sides write
//! pieces: a length of two bytes, the greater first, and so many bytes. A piece is a frame, of at most 16,384 bytes (`longest_frame`). A client
//! connects to a node's address for clients, where both sides write pieces of at most 65,535 bytes from the beginning.
//!
//! A node that gave a client a piece of at most 6 bytes told nothing new, and is sent the client's next message after a pause.
//!
//! A peer that was sent something and of which then nothing comes for a minute is taken for gone. The time that passes is what a clock
//! shows that is read once a turn, or else it is counted by what the link does.
//!
//! Where something is put on a list or bytes are kept, contracts leave open when memory is short.
//! No call says so where it is ample: `a_cluster` and `a_client` of `stack_tests` show it, and
//! `cases/floods` at the sizes that a node reaches.
//!
//! News comes first: that a peer has a connection, that a peer or a node has none any more, or that a client left. The one that began
//! a connection between replicas begins it again after a pause. One that takes no more bytes, or in whose place a newer one stands, is
//! read to its end for some seconds, and what came by it is given before what comes by the newer one. In each turn, each connection of
//! a peer that has bytes is read once, and some of clients; then all whole frames are given, and one message of some clients.
#![tactic(auto)]

mod agenda;
mod clock;
mod coming;
mod conn;
mod conns;
mod dials;
mod doors;
mod ending;
mod entry;
mod giving;
mod input;
mod items;
mod laws;
mod limits;
mod link;
mod looking;
mod news;
mod outcome;
mod output;
mod pieces;
mod readers;
mod reading;
mod resting;
mod retries;
mod running;
mod sending;
mod side;
mod sockets;
mod spares;
mod stage;
mod starting;
mod strangers;
mod tokens;
mod trouble;
mod whom;

pub use laws::{gives_in_order, over_stays, pause_ends, tokens_are_apart};
pub use limits::limits_are;
pub use link::TcpLink;
pub use reading::NoClock;
