//! The core of one replica: the service, a broadcast at each slot, the items that wait, and those that came too early.
//!
//! The core is a deterministic machine. An item, an input or a turn goes in; an answer and messages come out. It has no
//! clock, no key and no socket. Its steps are those of H. Moniz, N. F. Neves, M. Correia and P. Veríssimo, "RITAS:
//! Services for Randomized Intrusion Tolerance" (IEEE Transactions on Dependable and Secure Computing, 2011): an item
//! goes to its slot's broadcast, what that delivers goes to the service, and what the service says is broadcast. That is
//! reliable broadcast, but for VECTs and the commands of root service 2, which go by the core's other broadcast.
//!
//! No history is stored. The contract of each call says: whatever history, inbox and held items the core stands for, it
//! answers, puts out and becomes what the abstract core in `specs/Machine.antt` does. What goes out is then exactly what
//! became due, by the laws in `laws`.
//!
//! The private calls answer `Mem` where one that they make does, and say so where they make none. Beyond that no clause
//! bounds it, since std says nothing of when `push`, `insert` and `reserve` fail.
#![tactic(auto)]

mod answer;
mod cast;
mod casts;
mod change;
mod drops;
mod fault;
mod getters;
mod hear;
mod judge;
mod kernel;
mod laws;
mod layers;
mod limits;
mod route;
mod send;
mod steps;
mod taken;
mod verdict;

pub use answer::Answer;
pub use cast::Cast;
pub use fault::CoreFault;
pub use kernel::Core;
pub use laws::{delivered_within, entry_laws, history_laws, kinds_fit, new_is_due, verdict_laws};
pub use route::Route;
pub use verdict::Verdict;
