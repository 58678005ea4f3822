//! The keys of a session, written: a line for each replica.

ghost use Rattle.std.specs.Prelude.{◌≡◌, ◌<◌, IfOk, string_bytes};
ghost use Rattle.std.specs.List.{concat};
ghost use Rattle.hex.specs.Hex.{encode_lower};
ghost use Rattle.keyed_channel.specs.Keyed.{dealt_keys};
ghost use Rattle.key_rows.specs.KeyRows.{key_row, key_rows};

use keyed_channel::{Keys, coin_key};
use ritas_base::{Bytes, Mem, Params};
use std::alloc::{AllocError, Global};

// The keys that replica i shares with each of the n replicas, in hexadecimal digits.
fn shared_keys(
    alloc: Global,
    session: u64,
    p: &Params,
    master: &[u8; 32],
    i: u8,
) -> Result<String, AllocError>
    requires { i < p.now.n }
    ensures { IfOk result (λ s. string_bytes s ≡ encode_lower (concat (dealt_keys master.now session p.now.n i))) }
{
    let keys = Keys::deal(master, session, p, i);
    let joined = keys.row().concat(alloc)?;
    hex::encode(alloc, joined.as_slice())
}

// The line of replica i's keys.
fn key_row(
    alloc: Global,
    session: u64,
    p: &Params,
    master: &[u8; 32],
    i: u8,
) -> Result<String, AllocError>
    requires { i < p.now.n }
    ensures { IfOk result (λ s. string_bytes s ≡ key_row master.now session p.now.n i) }
{
    let keys = shared_keys(alloc, session, p, master, i)?;
    let coin = hex::encode(alloc, coin_key(master, session, i))?;
    format!(in alloc; "row {i} {keys} {coin}\n")
}

/// The keys of all replicas of a session, dealt from a master key: for each replica, ascending, the line `row`, its number,
/// the keys that it shares with replicas 0 to n - 1, joined, and its coin's key, with a space between them, in hexadecimal
/// digits (RFC 4648, base 16, lower case). The one error is want of memory.
pub fn write_key_rows(
    alloc: Global,
    session: u64,
    p: &Params,
    master: &[u8; 32],
) -> Result<Bytes, Mem>
    ensures { IfOk result (λ text. text ≡ key_rows master.now session p.now.n) }
{
    let mut text = String::new(alloc);
    for i in 0..p.n() {
        let row = key_row(alloc, session, p, master, i)?;
        text.push_str(row.as_str())?;
    }
    Ok(Bytes::from_vec(text.into_bytes()))
}
