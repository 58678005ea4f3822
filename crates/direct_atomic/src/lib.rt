//! Atomic broadcast straight over multi-valued consensus, which puts identifiers in one order without
//! a vector of lists.
//!
//! `Direct` is `Ordered` of `ordered_rounds`, over rounds that decide one list each. In a round every
//! replica broadcasts its list of identifiers. Once a replica has done so, and n - f lists of the round
//! are there, it proposes the least 64 identifiers that stand in f + 1 of these lists. A list that is
//! decided is wanted in the identifier log; where it is decided that no value is, the round appends
//! nothing.
//!
//! Its contract is that of `Service`, with the rules `direct` of `specs/Lists.antt`; its laws are
//! `direct_log` and `direct_words`.
#![tactic(auto)]

mod laws;
mod list_round;

pub use laws::{direct_log, direct_words};
pub use list_round::{Direct, ListRound};
