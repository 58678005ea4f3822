//! The text of the keys that are dealt to all replicas of a session, for whoever hands each replica its own.
//!
//! It has one line for each replica, in their order:
//!
//! | Part | Text |
//! |---|---|
//! | word | `row` |
//! | number | of the replica, in decimal digits |
//! | shared keys | those with replicas 0 to n - 1, joined: n times 64 hexadecimal digits |
//! | coin's key | 64 hexadecimal digits |
//!
//! A space stands between the parts, and the digits are in lower case. `specs/KeyRows.antt` says this text byte for byte, and
//! `keyed_channel` which keys they are.
#![tactic(auto)]

mod write;

pub use write::write_key_rows;
