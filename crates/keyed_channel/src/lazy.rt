//! Frames whose tags are computed once their bytes are asked for.

ghost use Rattle.std.specs.Prelude.{◌≡◌, ◌<◌, ◌≤◌, ◌∷◌, length, true, IfOk, OnOk, MatchResult, Some, None};
ghost use Rattle.std.specs.Int.{w64, to_be_bytes};
ghost use Rattle.std.specs.Str.{bytes_eq};
ghost use Rattle.ritas_base.specs.Bytes.{version_byte};
ghost use Rattle.keyed_channel.specs.Lengths.{head_length, frame_overhead};
ghost use Rattle.keyed_channel.specs.Hmac.{hmac_of};
ghost use Rattle.keyed_channel.specs.Frames.{frame_front, with_tag, tagged_front, tag_of, plain_fault, sender_of, seq_of, frame_body};

use crate::frame::{OpenFault, check_parts, front, tagged};
use crate::hashed_key::HashedKey;
use crate::keys::Keys;
use crate::lengths::{FRAME_OVERHEAD, HEAD_LEN, TAG_LEN};
use crate::parts::FrameParts;
use ritas_base::{Bytes, FrameVersion, Mem};
use std::alloc::Global;
use std::marker::Model;
use std::rc::Rc;

/// A frame that a channel made, as `Channel::seal` makes it. Contracts see it as these bytes, and say nothing of when its tag is computed: the code
/// does so where its bytes are asked for, and where it is compared or opened without its key. It shares the body with the other frames that carry it.
#[derive(Drop)]
pub struct LazyFrame {
    version: FrameVersion,
    from: u8,
    to: u8,
    seq: u64,
    body: Rc<Bytes, Global>,
    key: Rc<HashedKey, Global>,
}

impl Model for LazyFrame {
    ghost use Rattle.std.specs.Prelude.{ℕ, ◌<◌, ◌^◌, List};
    ghost use Rattle.keyed_channel.specs.Frames.{frame_front, with_tag};

    ghost Value = { List ℕ };

    ghost invariant = { λ f. f.seq < 2 ^ 64 };

    ghost view = { λ f. with_tag f.key.value (frame_front f.version f.from f.to f.seq f.body.value) };
}

// What stands before a frame's body.
fn head(version: FrameVersion, from: u8, to: u8, seq: u64) -> [u8; HEAD_LEN]
    ensures { result ≡ version_byte version ∷ from ∷ to ∷ to_be_bytes w64 seq }
{
    let mut head = [0; HEAD_LEN];
    head[0] = version.byte();
    head[1] = from;
    head[2] = to;
    head[3..].copy_from_slice(&seq.to_be_bytes());
    head
}

impl LazyFrame {
    // The frame of a front with its tag under a key.
    pub(crate) fn new(
        version: FrameVersion,
        from: u8,
        to: u8,
        seq: u64,
        body: Rc<Bytes, Global>,
        key: Rc<HashedKey, Global>,
    ) -> LazyFrame
        ensures { result ≡ with_tag key.value (frame_front version from to seq body.value) }
    {
        LazyFrame {
            version,
            from,
            to,
            seq,
            body,
            key,
        }
    }

    /// The same frame once more, which shares the body and the key. The code computes no tag here; no clause says so. The one error is want of memory,
    /// where too many share them already.
    pub fn share(&self) -> Result<LazyFrame, Mem>
        ensures { IfOk result (λ frame. frame ≡ self.now) }
    {
        Ok(LazyFrame {
            version: self.version,
            from: self.from,
            to: self.to,
            seq: self.seq,
            body: self.body.clone()?,
            key: self.key.clone()?,
        })
    }

    /// How many bytes it has. The code computes no tag here; no clause says so.
    pub fn len(&self) -> usize
        ensures is { result ≡ length self.now }
        ensures long { frame_overhead ≤ result }
    {
        self.body.as_slice().len() + FRAME_OVERHEAD
    }

    // The tag of what stands before the tag, under a key.
    pub(crate) fn tag_under(&self, key: &HashedKey) -> [u8; TAG_LEN]
        ensures { result ≡ hmac_of key.now (tagged_front self.now) }
    {
        key.tag_of_two(
            &head(self.version, self.from, self.to, self.seq),
            self.body.as_slice(),
        )
    }

    // Its tag.
    pub(crate) fn tag(&self) -> [u8; TAG_LEN]
        ensures { result ≡ tag_of self.now }
    {
        self.tag_under(&self.key)
    }

    // Whether it was tagged under this key, as far as its tag tells without being computed.
    pub(crate) fn has_key(&self, key: &HashedKey) -> bool
        ensures { result ≡ true → tag_of self.now ≡ hmac_of key.now (tagged_front self.now) }
    {
        self.key.is_same(key)
    }

    // The first fault of it that shows without a key.
    pub(crate) fn check(&self, keys: &Keys) -> Result<(), OpenFault>
        ensures fault { MatchResult result
            (λ _. plain_fault keys.now self.now ≡ None)
            (λ fault. plain_fault keys.now self.now ≡ Some fault) }
        ensures sender { OnOk result ((sender_of self.now < keys.now.n) × (keys.now.n ≤ 31)) }
    {
        check_parts(keys, self.len(), self.version.byte(), self.from, self.to)
    }

    /// What it says of itself, as `frame_parts` tells of its bytes: it is long enough for that. It takes no memory. The code computes no tag here; no
    /// clause says so.
    pub fn parts(&self) -> FrameParts<'_>
        ensures { (result.from ≡ sender_of self.now) × (result.seq ≡ seq_of self.now) × (result.body.now ≡ frame_body self.now) }
    {
        FrameParts {
            from: self.from,
            seq: self.seq,
            body: self.body.as_slice(),
        }
    }

    // Whether this stands before its tag.
    fn has_front(&self, front: &[u8]) -> bool
        requires { head_length ≤ length front.now }
        ensures { result ≡ bytes_eq front.now (tagged_front self.now) }
    {
        let (first, body) = front.split_at(HEAD_LEN);
        first == head(self.version, self.from, self.to, self.seq).as_slice()
            && body == self.body.as_slice()
    }

    /// Whether these are its bytes. It takes no memory. The code computes no tag where they differ before it; no clause says so.
    pub fn is(&self, bytes: &[u8]) -> bool
        ensures { result ≡ bytes_eq bytes.now self.now }
    {
        if bytes.len() != self.len() {
            return false;
        }
        let (front, tag) = bytes.split_at(bytes.len() - TAG_LEN);
        self.has_front(front) && tag == self.tag().as_slice()
    }

    /// Its bytes: its tag is computed. The one error is want of memory.
    pub fn to_bytes(&self, alloc: Global) -> Result<Bytes, Mem>
        ensures { IfOk result (λ bytes. bytes ≡ self.now) }
    {
        let front = front(
            alloc,
            self.version,
            self.from,
            self.to,
            self.seq,
            self.body.as_slice(),
        )?;
        let tag = self.key.tag(front.as_slice());
        tagged(front, &tag)
    }
}
