//! Multi-valued consensus over any binary consensus: the replicas agree on a value that a correct one proposed, or that
//! none is decided.
//!
//! Each replica broadcasts its proposal. Once n - f proposals are there it broadcasts a VECT: the least value that n - 2f
//! of them have, with who proposed it, or none. A VECT is valid where n - 2f of its places proposed its value, and one of
//! none always. Once n - f valid VECTs are there it proposes a bit to a binary consensus: 1 where n - 2f of them have one
//! value, and no valid VECT has another. Where 0 is decided, no value is; where 1 is decided, it is the least value that
//! n - 2f valid VECTs have.
//!
//! `specs/Consensus.antt` says what is said, open and decided after a list of words. The contract of `Mvc` is that of
//! `MultiBox` with these rules; `MvcRoot` makes a root service of any box, by the rules of `specs/Root.antt`. The laws are
//! `one_decision` and `multi_laws`.
#![tactic(auto)]

mod entry;
mod hearing;
mod laws;
mod least;
mod mvc;
mod mvc_root;
mod opening;
mod part;
mod settling;
mod table;
mod telling;

pub use laws::{multi_laws, one_decision};
pub use mvc::Mvc;
pub use mvc_root::MvcRoot;
