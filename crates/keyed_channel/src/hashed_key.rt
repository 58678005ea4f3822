//! Keys whose pads are hashed once, for tags that cost less and are the same.

ghost use Rattle.std.specs.Prelude.{◌≡◌, ℕ, List, ◌++◌};
ghost use Rattle.keyed_channel.specs.Hmac.{hmac_of};
ghost use Rattle.keyed_channel.specs.Keyed.{keyed_entry, entry_string};
ghost use Rattle.std.specs.Str.{bytes_eq};
ghost use Rattle.sha2.specs.Hashers.{Holds256};

use crate::tags::{finished, inner, outer};
use ritas_base::Slot;
use sha2::{Digest, Sha256};
use std::marker::Model;

// One kind, the session, a slot, two replicas and a digest.
const ENTRY_TEXT_LEN: usize = 1 + 8 + 9 + 2 + 32;

// A key whose two pads have been hashed, so that a tag costs the hashing of the text and of the inner digest alone.
// Contracts see it as the key.
#[derive(Drop)]
pub(crate) struct HashedKey {
    key: [u8; 32],
    inner: Sha256,
    outer: Sha256,
}

impl Model for HashedKey {
    ghost use Rattle.std.specs.Prelude.{ℕ, List};
    ghost use Rattle.keyed_channel.specs.Hmac.{pad};
    ghost use Rattle.sha2.specs.Hashers.{Holds256};

    ghost Value = { List ℕ };

    ghost view = { λ k. k.key };

    ghost invariant = { λ k. Holds256 k.inner (pad 0x36 k.key) × Holds256 k.outer (pad 0x5c k.key) };
}

// What is tagged for an entry.
fn entry_text(
    session: u64,
    slot: &Slot,
    echoer: u8,
    verifier: u8,
    d: &[u8; 32],
) -> [u8; ENTRY_TEXT_LEN]
    ensures { result ≡ entry_string session slot.now echoer verifier d.now }
{
    let mut text = [0; ENTRY_TEXT_LEN];
    text[0] = 0x45;
    text[1..9].copy_from_slice(&session.to_be_bytes());
    text[9..18].copy_from_slice(&slot.bytes());
    text[18] = echoer;
    text[19] = verifier;
    text[20..].copy_from_slice(d);
    text
}

impl HashedKey {
    // Hashes both pads of a key.
    pub(crate) fn new(key: &[u8; 32]) -> HashedKey
        ensures { result ≡ key.now }
    {
        HashedKey {
            key: *key,
            inner: inner(key),
            outer: outer(key),
        }
    }

    // The tag of a text.
    pub(crate) fn tag(&self, text: &[u8]) -> [u8; 32]
        ensures { result ≡ hmac_of self.now text.now }
    {
        let mut inner = self.inner.clone().unwrap();
        inner.update(text);
        finished(inner, self.outer.clone().unwrap())
    }

    // The tag of a text that stands in two parts.
    pub(crate) fn tag_of_two(&self, first: &[u8], rest: &[u8]) -> [u8; 32]
        ensures { result ≡ hmac_of self.now (first.now ++ rest.now) }
    {
        let inner = self.inner.clone().unwrap();
        finished(
            inner.chain_update(first).chain_update(rest),
            self.outer.clone().unwrap(),
        )
    }

    // Whether it is the same key.
    pub(crate) fn is_same(&self, other: &HashedKey) -> bool
        ensures { result ≡ bytes_eq self.now other.now }
    {
        self.key == other.key
    }

    // The entry of an echoer for a verifier over a digest, at a slot.
    pub(crate) fn entry(
        &self,
        session: u64,
        slot: &Slot,
        echoer: u8,
        verifier: u8,
        d: &[u8; 32],
    ) -> [u8; 32]
        ensures { result ≡ keyed_entry self.now session slot.now echoer verifier d.now }
    {
        self.tag(&entry_text(session, slot, echoer, verifier, d))
    }
}
