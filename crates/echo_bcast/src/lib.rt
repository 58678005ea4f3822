//! Matrix echo broadcast at one slot.
//!
//! The rules are those of the echo multicast of H. Moniz, N. Neves, M. Correia and P. Veríssimo, "RITAS: Services for
//! Randomized Intrusion Tolerance" (2011): the origin says SEND; each replica says HASHES of the first SEND to the origin,
//! which are its entries for each verifier, made with the keys that the two share; the origin says COLUMN to each replica
//! once n - f replicas sent HASHES, which are the entries for that replica; and a replica delivers the message once enough
//! echoers have a valid entry of it.
//!
//! This project's own choices are: the echo quorum as the number of valid entries; a column again at each HASHES after
//! those; and that the valid entries of all columns count together.
//!
//! `Eb` is one replica's part. Its contracts say that each call puts out exactly the messages that become due by it,
//! and that all correct replicas deliver one value, which is the origin's where the origin is correct.
#![tactic(auto)]

mod broadcast;
mod columns;
mod eb;
mod entries;
mod gathered;
mod laws;

pub use eb::Eb;
pub use laws::{good_is, hashes_carry, one_due, one_value, senders_are};
