//! A channel: one replica's keys, made ready once, which seal and open as the keys alone do.

ghost use Rattle.sha2.proofs.Facts256.{length-sha256};
ghost use Rattle.std.specs.Prelude.{◌≡◌, ℕ, ◌<◌, IfOk, MatchResult, Ok, Err};
ghost use Rattle.keyed_channel.specs.Hmac.{hmac_of};
ghost use Rattle.keyed_channel.specs.KeyRow.{key_with, shares_key};
ghost use Rattle.keyed_channel.specs.Keyed.{keyed_entry, tags_of};
ghost use Rattle.keyed_channel.specs.Frames.{sealed, opening, sender_of, is_tagged};
ghost use Rattle.keyed_channel.specs.Notes.{sealed_note, ack_note, again_note, noted};

use crate::frame::{OpenFault, Opened, as_opened, check, front, tagged};
use crate::hashed_key::HashedKey;
use crate::keys::Keys;
use crate::lazy::LazyFrame;
use crate::lengths::{NOTE_LEN, TAG_LEN};
use crate::note::{Note, is_plain_note, note_front, note_of, tagged_note};
use crate::parts::FrameParts;
use crate::tags::digest;
use ritas_base::{Bytes, Mem, Slot, Tagger};
use std::alloc::Global;
use std::marker::Model;
use std::rc::Rc;

/// The keys of one replica, with the pads of each key hashed once. It seals and opens as `seal` and `open_frame` do
/// with those keys, in about half of their time for a short frame, and as a tagger it answers as they do.
#[derive(Drop)]
pub struct Channel {
    keys: Keys,
    hashed: Vec<Rc<HashedKey, Global>>,
}

impl Model for Channel {
    ghost use Rattle.std.specs.Prelude.{◌≡◌, map, take};
    ghost use Rattle.keyed_channel.specs.KeyRow.{KeyRow, IsKeyRow};

    ghost Value = { KeyRow };

    ghost view = { λ c. c.keys };

    ghost invariant = { λ c. (map (λ key. key.value) c.hashed.items ≡ take c.keys.n c.keys.row) × IsKeyRow c.keys };
}

impl Channel {
    /// The channel of these keys. The one error is want of memory.
    pub fn new(alloc: Global, keys: Keys) -> Result<Channel, Mem>
        ensures { IfOk result (λ channel. channel ≡ keys) }
    {
        let n = keys.n();
        let mut hashed = Vec::with_capacity(alloc, n as usize)?;
        for j in 0..n {
            hashed.push(Rc::new(alloc, HashedKey::new(keys.key(j)))?)?;
        }
        Ok(Channel { keys, hashed })
    }

    /// The keys.
    pub fn keys(&self) -> &Keys
        ensures { result.now ≡ self.now }
    {
        &self.keys
    }

    /// Whether this replica and another have one session, and one key for each other.
    pub fn shares_key(&self, other: &Channel) -> bool
        ensures { result ≡ shares_key self.now other.now }
    {
        let key = self.keys.key(other.keys.me());
        self.keys.session() == other.keys.session() && key == other.keys.key(self.keys.me())
    }

    // The tag of a text under the key that is shared with replica j.
    fn tag(&self, j: u8, text: &[u8]) -> [u8; 32]
        requires { j < self.now.n }
        ensures { result ≡ hmac_of (key_with self.now j) text.now }
    {
        self.hashed[j as usize].tag(text)
    }

    /// The frame that carries a body to a replica, as `seal` makes it. The one error is want of memory.
    pub fn seal(&self, alloc: Global, to: u8, seq: u64, body: &[u8]) -> Result<Bytes, Mem>
        requires { to < self.now.n }
        ensures { IfOk result (λ frame. frame ≡ sealed self.now to seq body.now) }
    {
        let front = front(alloc, self.keys.version(), self.keys.me(), to, seq, body)?;
        let tag = self.tag(to, front.as_slice());
        tagged(front, &tag)
    }

    /// The same frame, which shares the body. The code computes no tag here; no clause says so. The one error is want of memory, where too many share
    /// one already.
    pub fn seal_lazily(&self, to: u8, seq: u64, body: &Rc<Bytes, Global>) -> Result<LazyFrame, Mem>
        requires { to < self.now.n }
        ensures { IfOk result (λ frame. frame ≡ sealed self.now to seq body.now.value) }
    {
        Ok(LazyFrame::new(
            self.keys.version(),
            self.keys.me(),
            to,
            seq,
            body.clone()?,
            self.hashed[to as usize].clone()?,
        ))
    }

    /// Opens a frame, as `open_frame` does. It takes no memory.
    pub fn open<'a>(&self, bytes: &'a [u8]) -> Result<Opened<'a>, OpenFault>
        ensures { MatchResult result
            (λ o. opening self.now bytes.now ≡ Ok (record { from = o.from; seq = o.seq; body = o.body.now }))
            (λ fault. opening self.now bytes.now ≡ Err fault) }
    {
        check(&self.keys, bytes)?;
        let (front, tag) = bytes.split_at(bytes.len() - TAG_LEN);
        let wanted = self.tag(bytes[1], front);
        if wanted.as_slice() != tag {
            return Err(OpenFault::BadTag);
        }
        Ok(as_opened(bytes))
    }

    // Whether the tag of a frame is right. The code computes it only where the frame wasn't made with the key that is shared with its sender; no
    // clause says so.
    fn is_tagged(&self, frame: &LazyFrame) -> bool
        requires { sender_of frame.now < self.now.n }
        ensures { result ≡ is_tagged self.now frame.now }
    {
        let key = &self.hashed[frame.parts().from as usize];
        frame.has_key(key) || frame.tag_under(key) == frame.tag()
    }

    /// Opens a frame that a channel made, as `open` does with its bytes. It takes no memory. The code computes no tag where that channel shares its
    /// key; no clause says so.
    pub fn open_lazily<'a>(&self, frame: &'a LazyFrame) -> Result<Opened<'a>, OpenFault>
        ensures { MatchResult result
            (λ o. opening self.now frame.now ≡ Ok (record { from = o.from; seq = o.seq; body = o.body.now }))
            (λ fault. opening self.now frame.now ≡ Err fault) }
    {
        frame.check(&self.keys)?;
        if !self.is_tagged(frame) {
            return Err(OpenFault::BadTag);
        }
        let FrameParts { from, seq, body } = frame.parts();
        Ok(Opened { from, seq, body })
    }

    // A note of a form and a number.
    fn seal_note(&self, to: u8, form: u8, number: u64) -> [u8; NOTE_LEN]
        requires { to < self.now.n }
        ensures { result ≡ sealed_note self.now to form number }
    {
        let front = note_front(self.keys.me(), to, form, number);
        let tag = self.tag(to, &front);
        tagged_note(&front, &tag)
    }

    /// The note that a frame was taken, as `seal_ack` makes it. It takes no memory.
    pub fn seal_ack(&self, to: u8, seq: u64) -> [u8; NOTE_LEN]
        requires { to < self.now.n }
        ensures { result ≡ ack_note self.now to seq }
    {
        self.seal_note(to, 1, seq)
    }

    /// The note that frames are to be sent again from a number on, as `seal_again` makes it. It takes no memory.
    pub fn seal_again(&self, to: u8, seq: u64) -> [u8; NOTE_LEN]
        requires { to < self.now.n }
        ensures { result ≡ again_note self.now to seq }
    {
        self.seal_note(to, 2, seq)
    }

    /// What a note says, as `open_note` answers it. It takes no memory.
    pub fn open_note(&self, bytes: &[u8]) -> Option<Note>
        ensures { result ≡ noted self.now bytes.now }
    {
        if !is_plain_note(&self.keys, bytes) {
            return None;
        }
        let (front, tag) = bytes.split_at(bytes.len() - TAG_LEN);
        let right = self.tag(bytes[1], front);
        if right.as_slice() != tag {
            return None;
        }
        note_of(self.keys.version(), bytes)
    }
}

impl Tagger for Channel {
    ghost me = { λ k. k.me };

    ghost tags = { tags_of };

    ghost digests = { λ k. length-sha256 };

    fn me(&self) -> u8 {
        self.keys.me()
    }

    fn entry(&self, slot: &Slot, echoer: u8, verifier: u8, d: &[u8; 32]) -> [u8; 32] {
        let other = if echoer == self.keys.me() {
            verifier
        } else {
            echoer
        };
        // No pad is kept for the numbers from n on, which no replica has.
        match self.hashed.get(other as usize) {
            Some(key) => key.entry(self.keys.session(), slot, echoer, verifier, d),
            None => self.keys.entry(slot, echoer, verifier, d),
        }
    }

    fn digest(&self, bytes: &[u8]) -> [u8; 32] {
        digest(bytes)
    }
}
