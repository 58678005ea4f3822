//! Which values a message of one step of a binary consensus may carry, by the votes of the step before.
//!
//! ```rust
//! use bracha_validation::{Tally, may_follow};
//! use ritas_base::Params;
//!
//! let p = Params::new(4, 1)?;
//! // of the votes of step 2 one is 0 and three are 1, and any three of the four may be those that were waited for
//! let votes = Tally {
//!     zeros: 1,
//!     ones: 3,
//!     nones: 0,
//! };
//! // three ones give 1, two ones and a zero give no bit, and no three give 0
//! assert!(rt; may_follow(&p, 3, 1, &votes) && may_follow(&p, 3, 2, &votes));
//! assert!(rt; !may_follow(&p, 3, 0, &votes));
//! ```
//!
//! It is the validation of G. Bracha, "Asynchronous Byzantine Agreement Protocols" (1987), in the form of H. Moniz,
//! N. Neves, M. Correia and P. Veríssimo, "RITAS: Services for Randomized Intrusion Tolerance" (2011). A replica leaves a
//! step with n - f of its votes, and the rule of the step gives what it says next. So a message of the step after it may
//! be right only where some set of n - f votes gives its value. `specs/Votes.antt` has the rules, and the choice of a set
//! as it stands there; `may_follow` answers it from three counts.
#![tactic(auto)]

mod following;
mod laws;
mod tally;

pub use following::may_follow;
pub use laws::{rules_by_counts, set_is_picked, set_of_votes};
pub use tally::Tally;
