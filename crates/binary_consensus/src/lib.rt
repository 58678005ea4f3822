//! Binary consensus: the replicas agree on one of two bits, though some of them lie and no message need come in time.
//!
//! It goes by rounds of three broadcast steps, at each of which a replica waits for n - f votes that follow from the
//! step before; where they leave it undecided, a coin is tossed. It is the protocol of G. Bracha, "Asynchronous Byzantine
//! Agreement Protocols" (1987), in the form of H. Moniz, N. Neves, M. Correia and P. Veríssimo, "RITAS: Services for
//! Randomized Intrusion Tolerance" (2011). The end after 200 rounds is this project's own.
//!
//! `specs/Steps.antt` and `specs/Consensus.antt` say what is accepted, said and decided after a list of words. The
//! contract of `Bin` is that of `BinaryBox` with these rules; `BinRoot` makes a root service of any box, by the rules of
//! `specs/Root.antt`. The laws are `one_bit`, that all decisions of correct replicas are equal and one of them proposed
//! the bit, and `box_laws`.
#![tactic(auto)]

mod bin;
mod bin_root;
mod going;
mod laws;
mod leaving;
mod line;
mod part;
mod place;

pub use bin::Bin;
pub use bin_root::BinRoot;
pub use laws::{box_laws, one_bit};
