//! Tests of the crates on top, by their public calls alone.
//!
//! They stand beside these crates and not in them because a crate that has tests is proved twice.
//!
//! | Module | Tests of |
//! |---|---|
//! | `nodes` | `node_loop` |
//! | `sessions` | `node_session` |
//! | `tcp` | `tcp_link` |
#![tactic(auto)]

#[cfg(test)]
mod nodes;
#[cfg(test)]
mod sessions;
#[cfg(test)]
mod tcp;
