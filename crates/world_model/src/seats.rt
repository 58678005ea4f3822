//! The seats of a world: which replicas are correct, and the keys of each, by which a frame that nobody made is told.

ghost use Rattle.std.specs.Prelude.{◌≡◌, ◌<◌, ◌≤◌, ◌^◌, length, IfOk};
ghost use Rattle.keyed_channel.specs.Lengths.{head_length};
ghost use Rattle.keyed_channel.specs.Frames.{sender_of};
ghost use Rattle.world_model.specs.FramesMade.{made_in};
ghost use Rattle.world_model.specs.Steps.{is_numbered, is_unmade};

use crate::made::MadeFrames;
use keyed_channel::{Channel, FrameHeader, Keys, LazyFrame, frame_header};
use ritas_base::{Mem, Mode, Params, SenderSet};
use std::alloc::Global;

/// How many replicas there are, in which mode, which of them are correct, and the keys of each, with their pads hashed once.
#[derive(Drop)]
pub(crate) struct Seats {
    pub(crate) params: Params,
    pub(crate) mode: Mode,
    pub(crate) correct: SenderSet,
    pub(crate) keys: Vec<Channel>,
}

/// The channels of these keys. The one error is want of memory.
pub(crate) fn channels(alloc: Global, rows: Vec<Keys>) -> Result<Vec<Channel>, Mem>
    ensures { IfOk result (λ channels. channels.items ≡ rows.items) }
{
    let mut channels = Vec::with_capacity(alloc, rows.len())?;
    for keys in rows {
        channels.push(Channel::new(alloc, keys)?)?;
    }
    Ok(channels)
}

// Whether the frame of this number, from 0, is this one.
fn is_numbered(frames: &[LazyFrame], number: u64, bytes: &[u8]) -> bool
    ensures value { result ≡ is_numbered frames.now number bytes.now }
    ensures few { length frames.now < 2 ^ 64 }
{
    match frames.get(number as usize) {
        Some(frame) => frame.is(bytes),
        None => false,
    }
}

impl Seats {
    /// Whether these bytes name a correct sender that hadn't made them for this receiver.
    pub(crate) fn is_unmade(&self, made: &MadeFrames, to: u8, bytes: &[u8]) -> bool
        ensures value { head_length ≤ length bytes.now → result ≡ is_unmade self.now.correct made.now to bytes.now }
        ensures few { head_length ≤ length bytes.now → length (made_in made.now (sender_of bytes.now) to) < 2 ^ 64 }
    {
        match frame_header(bytes) {
            Some(FrameHeader { from, seq }) => {
                let is_made = is_numbered(made.frames(from, to), seq, bytes);
                self.correct.has(from) && !is_made
            }
            None => false,
        }
    }
}
