//! Bracha's reliable broadcast at one slot, with the value in each message or with its digest.
//!
//! The rules are those of G. Bracha, "Asynchronous Byzantine Agreement Protocols" (1987), in the form of H. Moniz,
//! N. Neves, M. Correia and P. Veríssimo, "RITAS: Services for Randomized Intrusion Tolerance" (2011): the origin says
//! INIT, each replica says ECHO of the origin's first INIT, says READY once a value has an echo quorum of ECHOs or
//! f + 1 READYs, and delivers a value once it has 2f + 1 READYs. Of each sender the first value of a kind counts.
//!
//! - `Rb` has the value in ECHO and READY. Version 1 of a session has it, and so has version 3 at the steps of binary consensus.
//! - `DigestRb` has its digest there. Version 2 has it, and version 3 at other slots. The values that a replica knows are those of the
//!   origin's first INIT and of each sender's first VALUE. It delivers the first that it knows with the digest that has
//!   2f + 1 READYs. Where it knows none when that digest has them, it says WANT of it to all. The first WANT of each other
//!   replica is answered by VALUE, to that replica alone, as soon as a value with its digest is known. WANT and VALUE are
//!   this project's own.
//!
//! Each is one replica's part. Its contracts say that each call puts out exactly the messages that become due by it,
//! and that all correct replicas deliver one value, which is the origin's where the origin is correct: by digests, where
//! no two of the values that correct replicas took with INIT and VALUE have one digest.
#![tactic(auto)]

mod broadcast;
mod digest_broadcast;
mod digest_rb;
mod digest_votes;
mod laws;
mod rb;
mod saying;
mod votes;

pub use digest_rb::DigestRb;
pub use laws::{
    one_backed, one_carried, one_due, one_due_by_digest, one_value, one_value_by_digest,
};
pub use rb::Rb;
