//! Commands, broadcast under their origins' next numbers, and atomic broadcast over vector
//! consensus, which puts their identifiers in one order.
//!
//! Atomic broadcast is that of Correia, Neves and Veríssimo, "From Consensus to Atomic Broadcast:
//! Time-Free Byzantine-Resistant Protocols without Signatures" (The Computer Journal, 2006): each
//! command is broadcast, and agreement is on identifiers alone. The lengths of the window, the
//! numbers and the rules of rounds are this project's own profile.
//!
//! `CmdRoot` is the part without agreement: it broadcasts each input at the next command slot of its
//! replica, and tells of each origin the least number at which nothing was delivered. Its contract is
//! that of `Service`, with the rules `commands` of `specs/Commands.antt`; the laws that layers above
//! use are `says_commands` and `base_is_least`.
//!
//! `Abc` is atomic broadcast over any vector consensus: it is `Ordered` of `ordered_rounds`, over
//! rounds that are one vector consensus each. In a round the replicas agree on a vector of lists of
//! identifiers, and those of f + 1 lists are wanted in the identifier log. Its contract is that of
//! `Service`, with the rules `atomic` of `specs/VectorRounds.antt`; its laws are `one_log` and
//! `atomic_laws`.
#![tactic(auto)]

mod cmd_root;
mod laws;
mod vector_round;

pub use cmd_root::CmdRoot;
pub use laws::{atomic_laws, base_is_least, one_log, says_commands};
pub use vector_round::{Abc, VectorRound};
