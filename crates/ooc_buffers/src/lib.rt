//! Items that came too early, held for each peer until a slot opens for them or is past.
//!
//! A replica that runs behind others gets messages of rounds that it hasn't begun: the "out-of-context" messages of
//! Moniz, Neves, Correia and Veríssimo, "RITAS: Services for Randomized Intrusion Tolerance" (IEEE Transactions on
//! Dependable and Secure Computing, 2011). They are held, up to a limit for each peer, so that no faulty one takes the
//! room of others. The limit, `most_bytes` (1,048,576) for each peer, and the order are this project's own.
//!
//! Contracts see `Held` as one list for each peer, in the order in which its items came (`specs/Lists.antt`). Each call
//! says exactly what it leaves there, and `release` what it moves.
//!
//! The items of a peer stand in one map, by group, by round, by the mark of a column's value, and by a stamp: the list is in the
//! order of the stamps. Items of one class, number and attempt are a group, and so are the columns of one slot
//! (`specs/Groups.antt`). An index beside the map counts how many items have one kind and slot, and for columns one mark of
//! the value. So to look for an item and to ask for the held bytes costs a look-up; only for a column whose mark is there the
//! items of its slot and mark are searched.
//!
//! Beside them stands, for each group, something like its first item: its kind and slot, of the least round that the group
//! has. `release` and `forget` ask these first, and only where one passes they ask the items of a group by their rounds, and go
//! on behind the group where one fails. What has moved is put in the order of the stamps.
#![tactic(auto)]

mod entry;
mod firsts;
mod group;
mod held;
mod key;
mod order;
mod peer;
mod search;

pub use held::{Held, HoldFault};
