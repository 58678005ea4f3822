//! What the layers promise each other: the traits of a broadcast, of the boxes of binary, of
//! multi-valued and of vector consensus and of a service, with their laws.
//!
//! Each trait says what its implementations mean on plain lists of calls, the newest first, by one record of rules.
//! A value stands for a list of calls; no value stores it. A layer above uses a layer by its trait alone.
//!
//! What several layers do alike stands here too: `put_out`, `vote_of` and `is_slot_in`.
#![tactic(auto)]

mod binary_box;
mod broadcast;
mod decided;
mod laws;
mod multi_box;
mod outcome;
mod saying;
mod service;
mod slots;
mod vector_box;
mod vote;
mod windows;

pub use binary_box::BinaryBox;
pub use broadcast::{Broadcast, Heard};
pub use decided::Decided;
pub use laws::inner_runs;
pub use multi_box::MultiBox;
pub use outcome::Outcome;
pub use saying::put_out;
pub use service::Service;
pub use slots::is_slot_in;
pub use vector_box::VectorBox;
pub use vote::vote_of;
pub use windows::{COMMAND_WINDOW, ROUNDS_AHEAD, ROUNDS_KEPT, windows_are};
