//! Tests of the layers, by their public calls alone.
//!
//! They stand beside these crates and not in them because a crate that has tests is proved twice.
//!
//! | Module | Tests of |
//! |---|---|
//! | `slots` | `layer_api` |
//! | `following` | `bracha_validation` |
//! | `votes`, `digests` | `reliable_bcast` |
//! | `columns` | `echo_bcast` |
//! | `bits` | `binary_consensus` |
//! | `alone` | the services: `binary_consensus`, `multivalued`, `vector_consensus`, `atomic_bcast` and `direct_atomic` |
//! | `trees` | `instance_tree` |
//! | `lanes` | `vote_lanes` |
//! | `drops` | `ritas_core` |
//! | `laws` | the laws of all |
//!
//! `zeros` has a tagger and a coin whose bytes are zeros, and a core with these.
#![tactic(auto)]

#[cfg(test)]
mod alone;
#[cfg(test)]
mod bits;
#[cfg(test)]
mod columns;
#[cfg(test)]
mod digests;
#[cfg(test)]
mod drops;
#[cfg(test)]
mod following;
#[cfg(test)]
mod lanes;
#[cfg(test)]
mod laws;
#[cfg(test)]
mod slots;
#[cfg(test)]
mod trees;
#[cfg(test)]
mod votes;
#[cfg(test)]
mod zeros;
