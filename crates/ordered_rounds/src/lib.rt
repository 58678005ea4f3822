//! Atomic broadcast by rounds, whatever decides a round.
//!
//! Each command is broadcast, and agreement is on identifiers alone: in each round something is
//! decided that wants identifiers in the log, and the round is complete once their commands are
//! delivered. `RoundBox` is the trait of a round: its calls, what they mean, and the laws that each
//! kind of round proves. `Ordered` is the service over any such rounds: it has the commands that are
//! pending, the rounds one after the other, the windows and the identifier log. In versions 1 and 2 of
//! a session it keeps the current round and the two before it, in version 3 each round that began.
//!
//! Its contract is that of `Service`, with the rules `ordered` of `specs/Rounds.antt`; its laws, over
//! any rounds that keep theirs, are `one_log_of_rounds`, `rounds_agree` and `word_laws_of_rounds`.
//! The early commands, the noted lists and the saying of a command are there for the crates above.
#![tactic(auto)]

mod backing;
mod boxes;
mod early;
mod laws;
mod ledger;
mod limits;
mod ordered;
mod place;
mod proposal;
mod round_box;
mod rounds;
mod saying;

pub use backing::{backed_ids, note_list, with_backers};
pub use early::{advance, put_early};
pub use laws::{one_log_of_rounds, rounds_agree, word_laws_of_rounds};
pub use limits::MOST_REPLICAS;
pub use ordered::Ordered;
pub use round_box::RoundBox;
pub use saying::say_command;
