//! A client's side of a session: a request is handed to all nodes, and a position is waited for that f + 1 of them reply.
//!
//! Up to f nodes may be faulty and reply anything, so a position is taken only once f + 1 nodes replied it: one of these is
//! correct, and has the request there (`position_is_one_of_logs`). The rule is that of Castro and Liskov, "Practical Byzantine
//! Fault Tolerance" (OSDI 1999).
//!
//! `submit` does it over any link; `specs/Submitting.antt` says which calls of the link it makes, in which order, and how
//! it ends. Whoever watches a log begins in the same way, by `hand_in`.
#![tactic(auto)]

mod awaiting;
mod end;
mod handing;
mod laws;

pub use end::SubmitEnd;
pub use handing::{hand_in, submit};
pub use laws::position_is_one_of_logs;
