//! Vector consensus over any multi-valued consensus: the replicas agree on a vector of what they proposed, or that none is
//! decided.
//!
//! Each replica broadcasts its proposal. There are f + 1 attempts, each of which is a multi-valued consensus. Attempt k
//! begins once something is proposed, n - f + k proposals are there and all attempts before it decided none: the replica
//! then proposes to it the vector of all proposals that are there. The vector of the first attempt that decides one is
//! decided; where all of them decided none, no vector is.
//!
//! `specs/Consensus.antt` says what is said, open and decided after a list of words. The contract of `Vc` is that of
//! `VectorBox` with these rules; `VcRoot` makes a root service of any box, by the rules of `specs/Root.antt`. The laws are
//! `one_vector` and `vector_laws`.
#![tactic(auto)]

mod going;
mod hearing;
mod laws;
mod opening;
mod part;
mod proposals;
mod vc;
mod vc_root;

pub use laws::{one_vector, vector_laws};
pub use vc::Vc;
pub use vc_root::VcRoot;
