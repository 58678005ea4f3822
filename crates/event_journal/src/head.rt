//! The head of a journal's file.
ghost use Rattle.std.specs.Prelude.{◌≡◌, slice_index};
ghost use Rattle.schedule_file.specs.Spelling.{vect_byte};
ghost use Rattle.event_journal.specs.Head.{head_of, keys_digest, place_text, session_text};

use ritas_base::{Mode, Params, Vect};
use sha2::{Digest, Sha256};

fn vect_byte(vect: Vect) -> u8
    ensures { result ≡ vect_byte vect }
{
    match vect {
        Vect::Echo => 1,
        Vect::Reliable => 2,
    }
}

// RITJ, 1 and the session.
fn session_bytes(session: u64) -> [u8; 13]
    ensures { result ≡ session_text session }
{
    let [s7, s6, s5, s4, s3, s2, s1, s0] = session.to_be_bytes();
    [b'R', b'I', b'T', b'J', 1, s7, s6, s5, s4, s3, s2, s1, s0]
}

// The replica's place in the session.
fn place_bytes(p: Params, mode: Mode, me: u8) -> [u8; 6]
    ensures { result ≡ place_text p mode me }
{
    [
        p.n(),
        p.f(),
        mode.root,
        vect_byte(mode.vect),
        mode.version.byte(),
        me,
    ]
}

// The digest of keys and of the key of coins.
fn keys_digest(keys: &[[u8; 32]], coin: &[u8; 32]) -> [u8; 32]
    ensures { result ≡ keys_digest keys.now coin.now }
{
    Sha256::new_with_prefix(keys.as_flattened())
        .chain_update(coin)
        .finalize()
}

/// The head of the journal of replica `me`: RITJ and 1, the session's number, its numbers and mode, the replica, and SHA-256 of
/// the n keys that it shares with each replica, in the first places of its row, and of the key of its coins. Byte 13 is n, as `open_journal` wants it.
pub fn journal_head(
    session: u64,
    p: Params,
    mode: Mode,
    me: u8,
    row: &[[u8; 32]; 31],
    coin: &[u8; 32],
) -> [u8; 51]
    ensures exact { result ≡ head_of session p mode me row.now coin.now }
    ensures count { slice_index result 13 ≡ p.n }
{
    let mut head = [0; 51];
    head[..13].copy_from_slice(&session_bytes(session));
    head[13..19].copy_from_slice(&place_bytes(p, mode, me));
    head[19..].copy_from_slice(&keys_digest(&row[..p.n() as usize], coin));
    head
}
