//! The keys of one replica, dealt from a master key or given as a row.

ghost use Rattle.std.specs.Prelude.{◌≡◌, ◌<◌, ◌≤◌, ℕ, List, length, map, take};
ghost use Rattle.sha2.proofs.Facts256.{length-sha256};
ghost use Rattle.ritas_base.specs.declared.mode.FrameVersion.TheVariants.{One};
ghost use Rattle.ritas_base.specs.Bytes.{filled_row};
ghost use Rattle.keyed_channel.specs.KeyRow.{IsKeyRow, key_with};
ghost use Rattle.keyed_channel.specs.Keyed.{pair_key, dealt_keys, dealt, tags_of};
ghost use Rattle.keyed_channel.specs.Epochs.{epoch_key, epoch_keys};

use crate::epoch::epoch_key;
use crate::hashed_key::HashedKey;
use crate::tags::{digest, finished, inner, outer};
use ritas_base::{FrameVersion, Params, Slot, Tagger};
use sha2::Digest;
use std::marker::Model;

/// The keys of one replica: the one that it shares with each of the n replicas, itself too.
#[derive(Clone, Copy)]
pub struct Keys {
    session: u64,
    n: u8,
    me: u8,
    row: [[u8; 32]; 31],
    version: FrameVersion,
}

impl Model for Keys {
    ghost use Rattle.keyed_channel.specs.KeyRow.{KeyRow, IsKeyRow};

    ghost Value = { KeyRow };

    ghost view = { λ k. record { session = k.session; n = k.n; me = k.me; row = k.row; version = k.version } };

    ghost invariant = { λ k. IsKeyRow (record { session = k.session; n = k.n; me = k.me; row = k.row; version = k.version }) };

    ghost inverse = { λ k. record { session = k.session; n = k.n; me = k.me; row = k.row; version = k.version } };
}

// The key that replicas i and j share.
fn pair_key(master: &[u8; 32], session: u64, i: u8, j: u8) -> [u8; 32]
    ensures { result ≡ pair_key master.now session i j }
{
    let text = inner(master)
        .chain_update([0x4b])
        .chain_update(session.to_be_bytes())
        .chain_update([i.min(j), i.max(j)]);
    finished(text, outer(master))
}

// The keys that replica me shares with each of the n replicas, and zeros behind them.
fn dealt_row(master: &[u8; 32], session: u64, n: u8, me: u8) -> [[u8; 32]; 31]
    requires { n ≤ 31 }
    ensures { result ≡ filled_row (dealt_keys master.now session n me) }
{
    let mut row = [[0; 32]; 31];
    for j in 0..n {
        row[j as usize] = pair_key(master, session, me, j);
    }
    row
}

// These keys, and zeros behind them.
fn filled_row(keys: &[[u8; 32]]) -> [[u8; 32]; 31]
    requires { length keys.now ≤ 31 }
    ensures { result ≡ filled_row keys.now }
{
    let mut row = [[0; 32]; 31];
    row[..keys.len()].copy_from_slice(keys);
    row
}

// The keys of an epoch for these of the session, and zeros behind them.
fn epoch_row(keys: &[[u8; 32]], session: u64, epoch: u64) -> [[u8; 32]; 31]
    requires { length keys.now ≤ 31 }
    ensures { result ≡ filled_row (map (epoch_key session epoch) keys.now) }
{
    let mut row = [[0; 32]; 31];
    for (j, key) in keys.iter().enumerate() {
        row[j] = epoch_key(key, session, epoch);
    }
    row
}

impl Keys {
    /// The keys of replica me, dealt from a master key: the one that i and j share is HMAC-SHA-256 (RFC 2104) under it of
    /// 0x4b, the session (8 bytes, big-endian), and the lesser and the greater of i and j. Its frames are of version 1.
    pub fn deal(master: &[u8; 32], session: u64, p: &Params, me: u8) -> Keys
        requires { me < p.now.n }
        ensures { result ≡ dealt master.now session p.now.n me }
    {
        let n = p.n();
        let row = dealt_row(master, session, n, me);
        Keys {
            session,
            n,
            me,
            row,
            version: FrameVersion::One,
        }
    }

    /// The keys of replica me, where place k of the row is the key that it shares with replica k. Its frames are of version 1.
    pub fn from_row(session: u64, p: &Params, me: u8, row: &[[u8; 32]]) -> Keys
        requires mine { me < p.now.n }
        requires each { length row.now ≡ p.now.n }
        ensures { result ≡ record { session = session; n = p.now.n; me = me; row = filled_row row.now; version = One } }
    {
        let n = p.n();
        let row = filled_row(row);
        Keys {
            session,
            n,
            me,
            row,
            version: FrameVersion::One,
        }
    }

    /// The same keys for frames of this version.
    pub fn with_version(self, version: FrameVersion) -> Keys
        ensures { result ≡ record self { version = version } }
    {
        let row = self.row;
        Keys {
            session: self.session,
            n: self.n,
            me: self.me,
            row,
            version,
        }
    }

    /// The keys of an epoch of the session, which are these in epoch 0. From epoch 1 on, each is HMAC-SHA-256 (RFC 2104,
    /// FIPS 180-4) under the key of its place of 0x58, the session and the epoch (8 bytes each, big-endian). That string is
    /// this project's own.
    pub fn of_epoch(&self, epoch: u64) -> Keys
        ensures { result ≡ epoch_keys epoch self.now }
    {
        let row = epoch_row(self.row(), self.session, epoch);
        Keys {
            session: self.session,
            n: self.n,
            me: self.me,
            row,
            version: self.version,
        }
    }

    /// The version of the frames that they seal and open.
    pub fn version(&self) -> FrameVersion
        ensures { result ≡ self.now.version }
    {
        self.version
    }

    /// The number of the replica, below n.
    pub fn me(&self) -> u8
        ensures value { result ≡ self.now.me }
        ensures row { IsKeyRow self.now }
    {
        self.me
    }

    /// The number of replicas that the keys were made for, 1 to 31.
    pub fn n(&self) -> u8
        ensures value { result ≡ self.now.n }
        ensures row { IsKeyRow self.now }
    {
        self.n
    }

    /// The session.
    pub fn session(&self) -> u64
        ensures value { result ≡ self.now.session }
        ensures row { IsKeyRow self.now }
    {
        self.session
    }

    /// The keys that it shares with replicas 0 to n - 1, in their order.
    pub fn row(&self) -> &[[u8; 32]]
        ensures value { result.now ≡ take self.now.n self.now.row }
        ensures given { (keys : List (List ℕ)) → length keys ≡ self.now.n → self.now.row ≡ filled_row keys → result.now ≡ keys }
    {
        &self.row[..self.n as usize]
    }

    // The key that is shared with replica j.
    pub(crate) fn key(&self, j: u8) -> &[u8; 32]
        requires { j < 31 }
        ensures { result.now ≡ key_with self.now j }
    {
        &self.row[j as usize]
    }
}

impl Tagger for Keys {
    ghost me = { λ k. k.me };

    ghost tags = { tags_of };

    ghost digests = { λ k. length-sha256 };

    fn me(&self) -> u8 {
        self.me
    }

    fn entry(&self, slot: &Slot, echoer: u8, verifier: u8, d: &[u8; 32]) -> [u8; 32] {
        let other = if echoer == self.me { verifier } else { echoer };
        HashedKey::new(self.key(other)).entry(self.session, slot, echoer, verifier, d)
    }

    fn digest(&self, bytes: &[u8]) -> [u8; 32] {
        digest(bytes)
    }
}
