//! Coins that a key fixes: the bit of a slot is that of a tag of the session and the slot.

ghost use Rattle.std.specs.Prelude.{◌≡◌};
ghost use Rattle.keyed_channel.specs.Keyed.{coin_key_of, coin_of, coin_bit};
ghost use Rattle.keyed_channel.specs.Epochs.{epoch_seed};

use crate::epoch::epoch_key;
use crate::tags::{finished, inner, outer};
use ritas_base::{Coin, Slot};
use sha2::Digest;
use std::marker::Model;

/// The key of replica me's coins, dealt from a master key: HMAC-SHA-256 (RFC 2104) under it of 0x53, the session
/// (8 bytes, big-endian) and the replica's number.
pub fn coin_key(master: &[u8; 32], session: u64, me: u8) -> [u8; 32]
    ensures { result ≡ coin_key_of master.now session me }
{
    let text = inner(master)
        .chain_update([0x53])
        .chain_update(session.to_be_bytes())
        .chain_update([me]);
    finished(text, outer(master))
}

/// A coin that a key fixes: the bit of a slot is bit 0 of the first byte of HMAC-SHA-256 (RFC 2104) under it of 0x43,
/// the session (8 bytes, big-endian) and the slot's nine bytes.
#[derive(Clone, Copy)]
pub struct SeedCoin {
    session: u64,
    key: [u8; 32],
}

impl Model for SeedCoin {
    ghost use Rattle.keyed_channel.specs.Keyed.{CoinSeed};

    ghost Value = { CoinSeed };

    ghost view = { λ c. record { session = c.session; key = c.key } };

    ghost inverse = { λ c. record { session = c.session; key = c.key } };
}

impl SeedCoin {
    /// The coin of a session under a key.
    pub fn new(session: u64, key: [u8; 32]) -> SeedCoin
        ensures { result ≡ record { session = session; key = key } }
    {
        SeedCoin { session, key }
    }

    /// The coin of an epoch of the session, which is this in epoch 0. From epoch 1 on, its key is HMAC-SHA-256 (RFC 2104,
    /// FIPS 180-4) under this one's of 0x58, the session and the epoch (8 bytes each, big-endian). That string is this
    /// project's own.
    pub fn of_epoch(&self, epoch: u64) -> SeedCoin
        ensures { result ≡ epoch_seed epoch self.now }
    {
        SeedCoin {
            session: self.session,
            key: epoch_key(&self.key, self.session, epoch),
        }
    }
}

// The tag of a slot under the coin key.
fn coin_of(key: &[u8; 32], session: u64, slot: &Slot) -> [u8; 32]
    ensures { result ≡ coin_of (record { session = session; key = key.now }) slot.now }
{
    let text = inner(key)
        .chain_update([0x43])
        .chain_update(session.to_be_bytes())
        .chain_update(slot.bytes());
    finished(text, outer(key))
}

impl Coin for SeedCoin {
    ghost bits = { coin_bit };

    fn toss(&self, slot: &Slot) -> bool {
        let coin = coin_of(&self.key, self.session, slot);
        coin[0] % 2 == 1
    }
}
