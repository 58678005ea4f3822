//! Bodies and values, written.

ghost use Rattle.std.specs.Prelude.{◌≡◌, ◌+◌, ◌≤◌, ◌<◌, ◌^◌, ◌++◌, length, All, IfOk};
ghost use Rattle.ritas_base.specs.Numbers.{Numbers};
ghost use Rattle.ritas_base.specs.declared.mode.Mode.{Mode};
ghost use Rattle.std.specs.Int.{w32, to_be_bytes};
ghost use Rattle.std.specs.Int.RustNames.{count_ones};
ghost use Rattle.frame_codec.specs.Values.{ids_bytes, vector_bytes, vect_bytes, column_bytes};
ghost use Rattle.frame_codec.specs.Body.{kind_byte, spelling, IsInGrammar};

use ritas_base::{Bytes, Id, Item, Kind, Mem, SenderSet};
use std::alloc::Global;

fn kind_byte(kind: Kind) -> u8
    ensures { result ≡ kind_byte kind }
{
    match kind {
        Kind::Init => 1,
        Kind::Echo => 2,
        Kind::Ready => 3,
        Kind::Send => 4,
        Kind::Hashes => 5,
        Kind::Column => 6,
        Kind::Want => 7,
        Kind::Value => 8,
    }
}

/// The one spelling of an item: its kind, its slot and its value. The one error is want of memory.
pub fn write_body(alloc: Global, item: &Item) -> Result<Bytes, Mem>
    ensures { IfOk result (λ bytes. bytes ≡ spelling item.now) }
{
    let value = item.value.as_slice();
    // Room for all of it: the kind, the nine bytes of the slot, and the value.
    let mut out = Vec::with_capacity(alloc, 10 + value.len())?;
    out.push(kind_byte(item.kind))?;
    out.extend_from_slice(&item.slot.bytes())?;
    out.extend_from_slice(value)?;
    Ok(Bytes::from_vec(out))
}

/// How many bytes an item is spelled with, at most 15,952. Condition: it is in the grammar of a session.
pub fn body_len(item: &Item) -> u32
    requires { (p : Numbers) × (mode : Mode) × IsInGrammar p mode item.now }
    ensures { result ≡ length (spelling item.now) }
{
    10 + item.value.as_slice().len() as u32
}

/// A vector: its mask, and for each place, ascending, the entry's length and the entry. The one error is want of memory.
///
/// Conditions: there is one entry for each place, of at most 65,535 bytes.
pub fn write_vector(alloc: Global, places: SenderSet, entries: &[Bytes]) -> Result<Bytes, Mem>
    requires one_each { length entries.now ≡ count_ones places }
    requires short { All (λ e. length e < 2 ^ 16) entries.now }
    ensures { IfOk result (λ bytes. bytes ≡ vector_bytes places entries.now) }
{
    let mut out = Vec::new(alloc);
    out.extend_from_slice(&places.mask().to_be_bytes())?;
    for entry in entries {
        let entry = entry.as_slice();
        out.extend_from_slice(&(entry.len() as u16).to_be_bytes())?;
        out.extend_from_slice(entry)?;
    }
    Ok(Bytes::from_vec(out))
}

/// An identifier list. The one error is want of memory.
pub fn write_ids(alloc: Global, ids: &[Id]) -> Result<Bytes, Mem>
    ensures { IfOk result (λ bytes. bytes ≡ ids_bytes ids.now) }
{
    let mut out = Vec::new(alloc);
    for id in ids {
        out.push(id.origin)?;
        out.extend_from_slice(&id.num.to_be_bytes())?;
    }
    Ok(Bytes::from_vec(out))
}

/// A VECT that isn't none: the mask of its places, and its value. The one error is want of memory.
pub fn write_vect(alloc: Global, places: SenderSet, value: &[u8]) -> Result<Bytes, Mem>
    ensures { IfOk result (λ bytes. bytes ≡ vect_bytes places value.now) }
{
    let mut out = Vec::new(alloc);
    out.extend_from_slice(&places.mask().to_be_bytes())?;
    out.extend_from_slice(value)?;
    Ok(Bytes::from_vec(out))
}

/// A column: its mask, and one row for each place, ascending. The one error is want of memory.
///
/// Condition: there is one row for each place.
pub fn write_column(alloc: Global, places: SenderSet, rows: &[[u8; 32]]) -> Result<Bytes, Mem>
    requires { length rows.now ≡ count_ones places }
    ensures { IfOk result (λ bytes. bytes ≡ column_bytes places rows.now) }
{
    let mut out = Vec::new(alloc);
    out.extend_from_slice(&places.mask().to_be_bytes())?;
    for row in rows {
        out.extend_from_slice(row)?;
    }
    Ok(Bytes::from_vec(out))
}
