//! One replica: frames of bytes come in, and frames of bytes go out.
//!
//! A replica is a core with its channel. A frame that comes is opened with the key that this replica shares with its
//! sender, its body is read, and the item goes to the core; each message that the core puts out is sealed for each
//! replica that it reaches but this one, with the number of frames that were made for that receiver before, modulo 2^64.
//! What comes to this replica itself doesn't leave the core. The services are those of H. Moniz, N. Neves, M. Correia and
//! P. Veríssimo, "RITAS: Services for Randomized Intrusion Tolerance" (IEEE Transactions on Dependable and Secure
//! Computing, 2011), over channels with HMAC (RFC 2104).
//!
//! `specs/Handling.antt` has the abstract replica, a function from a state and a call to the next state, the answer and
//! the frames, in which a state is the history of what the core took, what waits and what is held. Each call on
//! `Replica` does what that says, for every state that its value stands for (`specs/Replica.antt`). Which frames were
//! made, and how many, follows from the history alone (`specs/Frames.antt`, and the laws [`made_by_entry`],
//! [`made_length`] and [`made_in_all`]). Of two states of one history, both live or both stopped, in which the same is held for
//! a peer, a frame of that peer is answered and makes the same, whatever waits and is held for others (`specs/Isolation.antt`,
//! the clauses `isolated` of `on_frame`, `on_frame_lazily` and `on_lazy_frame`, and the law [`isolation`]).
//!
//! `on_frame`, `on_input` and `on_turn` put out frames as bytes. The calls named `lazily` do the same, but that the tag of a
//! frame is computed once its bytes are asked for. A world uses these, since it passes most frames on without asking.
#![tactic(auto)]

mod following;
mod frame;
mod laws;
mod refusal;
mod replica;
mod sending;

pub use frame::OutFrame;
pub use laws::{isolation, made_by_entry, made_in_all, made_length};
pub use refusal::Refusal;
pub use replica::Replica;
