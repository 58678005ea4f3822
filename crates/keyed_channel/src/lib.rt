//! What two replicas prove to each other by a key that they share, and nobody else has: that a frame comes from its
//! sender, that an entry of the hash matrix is its echoer's, and the coin that a key fixes.
//!
//! ```rust
//! use keyed_channel::{Channel, Keys};
//! use ritas_base::Params;
//!
//! let p = Params::new(4, 1)?;
//! let sender = Channel::new(alloc, Keys::deal(&[7; 32], 258, &p, 3))?;
//! let receiver = Channel::new(alloc, Keys::deal(&[7; 32], 258, &p, 1))?;
//! let frame = sender.seal(alloc, 1, 0, b"a body")?;
//! let opened = receiver.open(frame.as_slice())?;
//! assert_eq!(rt; (opened.from, opened.seq), (3, 0));
//! assert_eq!(rt; opened.body, b"a body".as_slice());
//! ```
//!
//! Every tag is HMAC (RFC 2104) over SHA-256 (FIPS 180-4), with the block of 64 bytes and the pads 0x36 and 0x5c. What
//! is tagged begins with a byte of its own kind, and all numbers are big-endian:
//!
//! | Tag | Key | Bytes |
//! |---|---|---|
//! | key of i and j | master key | 0x4b, session (8), the lesser of i and j, the greater |
//! | coin key of i | master key | 0x53, session (8), i |
//! | of a frame | key of sender and receiver | version (1 or 2), sender, receiver, sequence number (8), body |
//! | entry | key of echoer and verifier | 0x45, session (8), slot (9), echoer, verifier, SHA-256 of the message (32) |
//! | coin | coin key | 0x43, session (8), slot (9) |
//! | of a note | key of sender and receiver | 0x4e, sender, receiver, form, number (8) |
//! | of rows that are sent | key of sender and receiver | 0x52, sender, receiver, position (8), body |
//! | key of an epoch | the session's key of its place | 0x58, session (8), epoch (8), from epoch 1 on |
//!
//! The version is the session's, which the keys have: 1 from `Keys::deal` and `Keys::from_row`, another by
//! `Keys::with_version`. A frame of one version doesn't open in a session of the other. Everything else here is the same in
//! both.
//!
//! A frame is what its tag is of, and then the tag's 32 bytes. The contracts say each of these byte for byte. `seal`
//! gives exactly that frame; `open_frame` gives the first fault that the bytes have, and their parts where they have
//! none. So what one replica seals opens at the other (`sealed_opens`), and what opens is the very frame that its sender
//! seals (`opens_sealed`); and with whatever keys, what opens of a sealed frame is what was sealed (`opens_as_sealed`).
//! That nobody without the key makes up such a tag is no part of what is proved. `frame_parts` and `frame_header` read what
//! a frame says of itself with no key, and check nothing of it.
//!
//! Sessions that follow each other are epochs. `Keys::of_epoch` and `SeedCoin::of_epoch` give the keys of one, which are the
//! session's own in epoch 0. Two replicas that share a key share one in each epoch (`epochs_share_keys`). What passes
//! between replicas about the chain of epochs are notes of two forms (`ChainNote`) and rows (`RowsSent`).
//!
//! `Channel` seals, opens and tags entries with the same contracts, and hashes the pads of each key once. A `LazyFrame` is a
//! frame that a channel made. The code computes its tag where its bytes are asked for, and where a channel opens it that doesn't share the
//! key; a channel in the same process that shares it opens it with no tag. No clause says so: to the contracts it is its bytes. Nothing is said of how
//! long a call takes, and so nothing of what its time tells about a key.
#![tactic(auto)]

mod chain_note;
mod channel;
mod coin;
mod epoch;
mod frame;
mod hashed_key;
mod keys;
mod laws;
mod lazy;
mod lengths;
mod note;
mod parts;
mod rows_sent;
mod tags;

pub use chain_note::{ChainNote, open_chain_note, seal_ask, seal_closed};
pub use channel::Channel;
pub use coin::{SeedCoin, coin_key};
pub use frame::{OpenFault, Opened, open_frame, seal};
pub use keys::Keys;
pub use laws::{
    chain_noted_from_peer, chain_notes_are_others, chain_notes_open, chain_notes_sealed,
    dealt_share_keys, entries_agree, entry_by_pair, epoch_zero_keeps_keys, epochs_share_keys,
    note_has_version, noted_from_peer, notes_are_no_frames, notes_open, notes_sealed,
    opened_from_peer, opened_parts, opens_as_sealed, opens_sealed, rows_are_no_frames,
    rows_from_peer, rows_open, rows_were_sealed, sealed_length, sealed_long, sealed_opens,
};
pub use lazy::LazyFrame;
pub use lengths::{FRAME_OVERHEAD, HEAD_LEN, LEAST_FRAME, NOTE_LEN, TAG_LEN, lengths_are};
pub use note::{Note, is_note, open_note, seal_ack, seal_again};
pub use parts::{FrameHeader, FrameParts, frame_header, frame_parts};
pub use rows_sent::{RowsSent, is_rows, open_rows, seal_rows};
pub use tags::{digest, hmac};
