//! The broadcasts of a replica, or other values, each at its slot: a map from slots.
//!
//! ```rust
//! use instance_tree::{Span, Tree};
//! use ritas_base::Slot;
//!
//! let mut tree = Tree::new(alloc, Span::Window);
//! tree.make(alloc, Slot::command(2, 7), "seventh")?;
//! assert!(rt; tree.find(&Slot::command(2, 7)).is_some());
//! // the commands of origin 2 that are numbered below 8 go
//! tree.drop_commands(2, 8);
//! assert!(rt; tree.find(&Slot::command(2, 7)).is_none());
//! ```
//!
//! A replica keeps a broadcast for each slot of its rounds and commands, and lets go of those that are past: a round that is
//! some rounds back, and commands that everybody has. So beside looking up and making there are two calls that drop:
//! `drop_before` for the classes that belong to rounds, and `drop_commands` for the commands of an origin.
//!
//! Contracts see a `Tree` as a finite map (`specs/SlotMaps.antt`), and say of each call which map it leaves, for every slot
//! there is. Values stand in an arena (`slab`), so none moves when another comes or goes. The keys by which the arena
//! knows them are never shown.
//!
//! A key is found through tables: by origin, and then by the number of a command, or by the other fields of a slot. What
//! shares a place there stands in a short list. Where what lies behind is dropped (`Span::Window`), command numbers, rounds,
//! tries and binary rounds are taken modulo some window, so the tables stay small. Where nothing is (`Span::Session`), each
//! number and each round has places of its own, and the tries and binary rounds of a round share them: a list stays short
//! however long the session is. The slots of rounds stand in a second table by round, so a drop looks at no slot that stays,
//! but for those that share a place with one that goes. Tables grow to the places that were used, and keep their memory.
#![tactic(auto)]

mod bucket;
mod buckets;
mod keys;
mod origin;
mod origins;
mod ring;
mod span;
mod tree;

pub use span::Span;
pub use tree::Tree;
