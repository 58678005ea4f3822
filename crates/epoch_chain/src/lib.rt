//! The laws of the chain of a cluster whose sessions follow each other.
//!
//! A session of the stack ends: its journal, its rounds and its command numbers do. So a cluster goes from one to the next.
//! Epoch k is one session, with keys of its own. A confirmed command of the client number 4,294,967,295, which is no
//! client's, closes it: f + 1 replicas submitted it, so a correct one wanted it. The *chain* is what clients see: the rows of
//! epoch 0 up to its closing row, then those of epoch 1, and so on, each client and request once. A node keeps it as the
//! log of its newest epoch, which begins with the rows of the epochs before (`Log::over` of `command_log`). A node that
//! missed the end of an epoch takes its rows over from f + 1 others.
//!
//! `specs/Chain.antt` has the chain, and `specs/Epochs.antt` what nodes have of epochs, with the laws. The logs of each epoch
//! come in as functions, and what is asked of them is what agreement says of the world of an epoch.
#![tactic(auto)]

mod laws;

pub use laws::{chain_laws, log_is_chain, rows_taken_over};
