//! Notes of a chain of epochs, sealed and opened: how many epochs a replica closed, and from where on it asks for rows.

ghost use Rattle.std.specs.Prelude.{◌≡◌, ◌<◌, length};
ghost use Rattle.keyed_channel.specs.Lengths.{note_length};
ghost use Rattle.keyed_channel.specs.Frames.{sender_of};
ghost use Rattle.keyed_channel.specs.Notes.{note_form, note_number};
ghost use Rattle.keyed_channel.specs.ChainNotes.{closed_note, ask_note, chain_note_of, chain_noted};

use crate::keys::Keys;
use crate::lengths::NOTE_LEN;
use crate::note::{is_right_note, note_number, seal_note};

const CLOSED: u8 = 3;

const ASK: u8 = 4;

/// What a note of a chain says, and which replica sent it.
#[derive(Clone, Copy, Debug, PartialEq, Eq)]
pub enum ChainNote {
    /// The sender closed so many epochs.
    Closed { from: u8, epochs: u64 },
    /// The sender asks for the rows of the chain from this position on.
    Ask { from: u8, position: u64 },
}

/// The note for a replica that this one closed so many epochs: as that of `seal_ack`, with form 3, this project's own. It
/// takes no memory.
pub fn seal_closed(keys: &Keys, to: u8, epochs: u64) -> [u8; NOTE_LEN]
    requires { to < keys.now.n }
    ensures { result ≡ closed_note keys.now to epochs }
{
    seal_note(keys, to, CLOSED, epochs)
}

/// The note that asks a replica for the rows of the chain from a position on: as that of `seal_ack`, with form 4, this
/// project's own. It takes no memory.
pub fn seal_ask(keys: &Keys, to: u8, position: u64) -> [u8; NOTE_LEN]
    requires { to < keys.now.n }
    ensures { result ≡ ask_note keys.now to position }
{
    seal_note(keys, to, ASK, position)
}

// What the parts of a note say of a chain.
fn chain_note_of(bytes: &[u8]) -> Option<ChainNote>
    requires { length bytes.now ≡ note_length }
    ensures { result
        ≡ chain_note_of (sender_of bytes.now) (note_form bytes.now) (note_number bytes.now) }
{
    let from = bytes[1];
    let number = note_number(bytes);
    match bytes[3] {
        CLOSED => Some(ChainNote::Closed {
            from,
            epochs: number,
        }),
        ASK => Some(ChainNote::Ask {
            from,
            position: number,
        }),
        _ => None,
    }
}

/// What a note of a chain says, in a session of any version. `None` is answered exactly where the bytes aren't a note of form
/// 3 or 4, for this replica, from another one below n, with a right tag. It takes no memory.
pub fn open_chain_note(keys: &Keys, bytes: &[u8]) -> Option<ChainNote>
    ensures { result ≡ chain_noted keys.now bytes.now }
{
    if !is_right_note(keys, bytes) {
        return None;
    }
    chain_note_of(bytes)
}
