//! What may happen to a replica: the events of which schedules are lists.

use crate::bytes::Bytes;

/// What happens to a replica of a world.
#[derive(Debug, Drop)]
pub enum Event {
    /// These bytes come to a replica as a frame.
    Frame { to: u8, bytes: Bytes },
    /// An input is given to a replica.
    Input { at: u8, bytes: Bytes },
    /// A replica takes the item at the front of its inbox.
    Turn { at: u8 },
    /// The frame of this number, from 0, that one replica made for another comes to it.
    Pass { from: u8, to: u8, m: u32 },
    /// A frame that seals this body with the sender's key and sequence number 0 comes to a replica.
    Sealed { from: u8, to: u8, body: Bytes },
}
