//! Serving a session: from the header of its file to the end mark.
//!
//! The replicas that a header names as correct are made with the header's keys and coins, the header is written, the link is started
//! once with its plan, and the replicas are served (`node_loop::serve`). Where serving ends by its rules the output took a schedule file of
//! that header, and whoever has it can replay it, if it has at most 67,108,864 bytes; at a fault it took a front of one. The frames that
//! the link was given for the first time are those that the replicas of the file's world make, and what is proved of worlds holds of what
//! was served (`specs/Session.antt`).
//!
//! A node whose configuration says so keeps a journal (`specs/Lives.antt`): a life of it begins with the events that the journal kept of those
//! before, and goes on as if it had never stopped.
#![tactic(auto)]

mod closing;
mod configs;
mod laws;
mod life;
mod opening;
mod session;

pub use configs::{serve_cluster, serve_node};
pub use laws::node_lives_print;
pub use session::{Session, serve_session};
