//! Watching a session's log: nodes are asked for its rows, and a row is believed that f + 1 of them give.
//!
//! `watch` does it over any link; `specs/Watching.antt` says which calls of the link it makes, in which order, and
//! how it ends. The log that it comes to is that of an `Observer` over the replies, so it is a prefix of the longest
//! log of a correct node, where correct nodes reply pieces of their logs (`watched_is_true`).
#![tactic(auto)]

mod end;
mod laws;
mod watching;

pub use end::WatchEnd;
pub use laws::watched_is_true;
pub use watching::watch;
