//! The columns that an origin makes of HASHES.

ghost use Rattle.std.specs.Prelude.{◌≡◌, ◌≤◌, length, map, IfOk};
ghost use Rattle.ritas_base.specs.History.{replicas};
ghost use Rattle.frame_codec.specs.Values.{column_bytes};
ghost use Rattle.layer_api.specs.Entries.{entry_in};
ghost use Rattle.echo_bcast.specs.Matrix.{senders_of, rows_for, column_for, columns_of};

use ritas_base::{Bytes, Kind, Mem, Msg, Params, SenderSet, Slot, To};
use std::alloc::Global;

/// Those whose HASHES are there.
fn senders_of(hashes: &[Option<Bytes>], n: u8) -> u32
    requires all_fit { n ≤ 31 }
    ensures { length hashes.now ≡ n → result ≡ senders_of hashes.now }
{
    let mut senders = SenderSet::empty();
    for k in 0..n {
        let at = usize::from(k);
        if at < hashes.len() && hashes[at].is_some() {
            senders = senders.with(k);
        }
    }
    senders.mask()
}

/// Entry k of HASHES, and less where they are short.
fn entry_in(value: &[u8], k: u8) -> &[u8]
    ensures { result.now ≡ entry_in k value.now }
{
    let start = (32 * usize::from(k)).min(value.len());
    let rest = &value[start..];
    &rest[..rest.len().min(32)]
}

/// The column for replica k. The one error is want of memory.
fn column_for(alloc: Global, hashes: &[Option<Bytes>], senders: u32, k: u8) -> Result<Bytes, Mem>
    ensures { IfOk result (λ bytes. bytes ≡ column_bytes senders (rows_for k hashes.now)) }
{
    // Room for the rows, so that the vector doesn't grow by copies.
    let rows = senders.count_ones() as usize;
    let mut out = Vec::with_capacity(alloc, 4 + 32 * rows)?;
    out.extend_from_slice(&senders.to_be_bytes())?;
    for value in hashes {
        if let Some(value) = value {
            out.extend_from_slice(entry_in(value.as_slice(), k))?;
        }
    }
    Ok(Bytes::from_vec(out))
}

/// A column for each replica, where enough HASHES are there. The one error is want of memory.
pub(crate) fn columns_of(
    alloc: Global,
    p: &Params,
    slot: &Slot,
    hashes: &[Option<Bytes>],
) -> Result<Vec<Msg>, Mem>
    ensures { IfOk result (λ columns. length hashes.now ≡ p.now.n → columns.items ≡ columns_of p.now slot.now hashes.now) }
{
    let senders = senders_of(hashes, p.n());
    if senders.count_ones() < u32::from(p.wait()) {
        return Ok(Vec::new(alloc));
    }
    let mut columns = Vec::with_capacity(alloc, usize::from(p.n()))?;
    for k in 0..p.n() {
        columns.push(Msg {
            to: To::One(k),
            kind: Kind::Column,
            slot: *slot,
            value: column_for(alloc, hashes, senders, k)?,
        })?;
    }
    Ok(columns)
}
