//! What comes of an item or a turn.
ghost use Rattle.std.specs.Prelude.{◌≡◌, [], None, false};
ghost use Rattle.node_loop.specs.declared.output.More.TheVariants as mores;
ghost use Rattle.node_loop.specs.Standing.{bytes_said};

use client_port::REPLY_LEN;
use keyed_channel::{LazyFrame, NOTE_LEN};
use replica::OutFrame;
use ritas_base::{Bytes, Event};
use std::alloc::Global;

/// The bytes of a reply. Those of a short one take no memory.
#[derive(Drop)]
pub(crate) enum ReplyBytes {
    /// A position, or a refusal.
    Short { bytes: [u8; REPLY_LEN] },
    /// A piece of a log.
    Piece { bytes: Bytes },
}

impl ReplyBytes {
    /// The bytes as a slice.
    pub(crate) fn as_slice(&self) -> &[u8]
        ensures said { result.now ≡ bytes_said self.now }
    {
        match self {
            ReplyBytes::Short { bytes } => bytes.as_slice(),
            ReplyBytes::Piece { bytes } => bytes.as_slice(),
        }
    }
}

/// A reply to a connection.
#[derive(Drop)]
pub(crate) struct Reply {
    /// The connection's number.
    pub conn: u32,
    /// The bytes of the reply.
    pub bytes: ReplyBytes,
}

/// Which of the frames that are kept for a peer go out again.
#[derive(Clone, Copy)]
pub(crate) enum Part {
    /// All of them.
    All,
    /// The batch at the front of those behind a number, if there is one, up to the last one.
    Batch {
        after: Option<u64>,
        last: u64,
        most: u64,
    },
}

/// What goes to a peer besides the frames of a call.
#[derive(Clone, Copy)]
pub(crate) enum More {
    /// Nothing.
    Nothing,
    /// A note.
    Note { peer: u8, bytes: [u8; NOTE_LEN] },
    /// A part of the frames that it didn't acknowledge.
    Kept { peer: u8, part: Part },
}

/// What comes of an item or a turn at one replica: the event that it is, if it is one, the frames of its call, what goes to a peer
/// besides, and the replies.
#[derive(Drop)]
pub(crate) struct Output {
    /// The replica's number.
    pub at: u8,
    /// The event.
    pub event: Option<Event>,
    /// Whether there is one that a journal keeps.
    pub kept: bool,
    /// The frames, in the order in which they were made. Their tags are computed as they go out.
    pub frames: Vec<OutFrame<LazyFrame>>,
    /// What goes to a peer besides.
    pub more: More,
    /// The replies, in the order in which they go out.
    pub replies: Vec<Reply>,
}

impl Output {
    /// Nothing comes. It takes no memory.
    pub(crate) fn new(alloc: Global) -> Output
        ensures none { (result.event ≡ None) × (result.frames.items ≡ []) × (result.more ≡ mores.Nothing) × (result.replies.items ≡ [])
            × (result.kept ≡ false) }
    {
        Output {
            at: 0,
            event: None,
            kept: false,
            frames: Vec::new(alloc),
            more: More::Nothing,
            replies: Vec::new(alloc),
        }
    }

    /// Nothing comes yet of what is next, at this replica. What it took of memory is kept.
    pub(crate) fn clear(&mut self, at: u8)
        ensures at { self.new.at ≡ at }
        ensures none { (self.new.event ≡ None) × (self.new.frames.items ≡ []) × (self.new.more ≡ mores.Nothing)
            × (self.new.replies.items ≡ []) × (self.new.kept ≡ false) }
    {
        self.at = at;
        self.event = None;
        self.kept = false;
        self.frames.clear();
        self.more = More::Nothing;
        self.replies.clear();
    }
}
