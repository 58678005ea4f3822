//! The promise of a cluster that goes through epochs: what the chains of its nodes agree on.
//!
//! Each epoch is one session, with a world of its own: keys, coins, correct replicas and events. What correct replicas agree on in
//! these worlds comes in as a premise, which `world_model::agreement` gives for each world whose audit holds. `epoch_chain`
//! has the laws of lists that carry it over to chains.
//!
//! `specs/Worlds.antt` has the worlds, the world of an epoch whose logs begin with the chain of the epochs before, and the laws.
#![tactic(auto)]

mod laws;

pub use laws::chains_of_worlds;
