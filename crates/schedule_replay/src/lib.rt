//! Replays a schedule file: what is between the program and the world.
//!
//! `replay` reads a file from a source to its end, lets its events happen to a world of replicas as it is read, in the
//! layers that its header names and with its keys, and then writes to a sink what is asked for. `first_world` is such a
//! world before any event and `Played` one after some, for callers that have the events from elsewhere; `first_faces` is
//! one of faces of the faulty replicas; and `show` writes its texts.
#![tactic(auto)]

mod cut;
mod deal;
mod end;
mod first;
mod frames;
mod layers;
mod lines;
mod played;
mod replicas;
mod report;
mod vectors;
mod write;

pub use deal::deal_keys;
pub use end::ReplayEnd;
pub use first::{first_faces, first_world};
pub use layers::{other_form, replay};
pub use played::Played;
pub use report::add_row;
pub use write::show;
