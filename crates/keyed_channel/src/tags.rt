//! Tags and digests: HMAC-SHA-256 and SHA-256.

ghost use Rattle.std.specs.Prelude.{◌≡◌, ℕ, ◌≤◌, List, ◌++◌, length};
ghost use Rattle.keyed_channel.specs.Hmac.{hmac_of, block_key, pad};
ghost use Rattle.sha2.specs.Hashers.{Holds256};
ghost use Rattle.sha2.specs.Sha256.{sha256};

use sha2::{Digest, Sha256};

const INNER: u8 = 0x36;

const OUTER: u8 = 0x5c;

// The key, filled up with zeros to a block.
fn block_of(key: &[u8]) -> [u8; 64]
    requires { length key.now ≤ 64 }
    ensures { result ≡ block_key key.now }
{
    let mut block = [0; 64];
    block[..key.len()].copy_from_slice(key);
    block
}

// Each byte of the key's block xor the pad.
fn padded(key: &[u8], byte: u8) -> [u8; 64]
    requires { length key.now ≤ 64 }
    ensures { result ≡ pad byte key.now }
{
    let mut block = block_of(key);
    for x in block.iter_mut() {
        *x ^= byte;
    }
    block
}

// A hasher that has taken the inner pad; the text comes next.
pub(crate) fn inner(key: &[u8]) -> Sha256
    requires { length key.now ≤ 64 }
    ensures { Holds256 result (pad 0x36 key.now) }
{
    Sha256::new_with_prefix(padded(key, INNER))
}

// A hasher that has taken the outer pad; the inner digest comes next.
pub(crate) fn outer(key: &[u8]) -> Sha256
    requires { length key.now ≤ 64 }
    ensures { Holds256 result (pad 0x5c key.now) }
{
    Sha256::new_with_prefix(padded(key, OUTER))
}

// The tag of the text that the inner hasher has taken after its pad.
pub(crate) fn finished(inner: Sha256, mut outer: Sha256) -> [u8; 32]
    ensures { (key text : List ℕ)
        → Holds256 inner (pad 0x36 key ++ text) → Holds256 outer (pad 0x5c key) → result ≡ hmac_of key text }
{
    outer.update(inner.finalize());
    outer.finalize()
}

/// The tag HMAC-SHA-256 of some bytes under a key of at most 64 bytes (RFC 2104, with SHA-256 of FIPS 180-4).
pub fn hmac(key: &[u8], bytes: &[u8]) -> [u8; 32]
    requires { length key.now ≤ 64 }
    ensures { result ≡ hmac_of key.now bytes.now }
{
    finished(inner(key).chain_update(bytes), outer(key))
}

/// The digest SHA-256 of some bytes (FIPS 180-4).
pub fn digest(bytes: &[u8]) -> [u8; 32]
    ensures { result ≡ sha256 bytes.now }
{
    Sha256::digest(bytes)
}
