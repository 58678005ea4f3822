//! What held items are found by.

ghost use Rattle.std.specs.Prelude.{◌≡◌, ℕ, ◌+◌, ◌-◌, ◌<◌, ◌^◌, OnOk, OnErr, if◌then◌else◌};
ghost use Rattle.ritas_base.specs.Messages.{kind_rank};
ghost use Rattle.ooc_buffers.specs.Keys.{value_mark, item_key, key_eq, count_at};
ghost use Rattle.ooc_buffers.specs.declared.key.Key.{Key};

use indexmap::IndexMap;
use ritas_base::{Item, Kind, Mem};

/// What of an item is looked up: its kind and slot, and for a column a mark of its value.
#[derive(Clone, Copy, PartialEq, Eq, Hash)]
pub(crate) struct Key {
    kind: u8,
    class: u8,
    a: u32,
    attempt: u8,
    bround: u8,
    step: u8,
    origin: u8,
    pub(crate) mark: u64,
}

// A kind's place in the order.
fn rank(kind: Kind) -> u8
    ensures { result ≡ kind_rank kind }
{
    match kind {
        Kind::Init => 0,
        Kind::Echo => 1,
        Kind::Ready => 2,
        Kind::Send => 3,
        Kind::Hashes => 4,
        Kind::Column => 5,
        Kind::Want => 6,
        Kind::Value => 7,
    }
}

// The hash FNV-1a of 64 bits, of Fowler, Noll and Vo.
#[tactic(auto, unfolding(crate::specs::Keys::value_mark))]
fn mark(value: &[u8]) -> u64
    ensures { result ≡ value_mark value.now }
{
    value.iter().fold(14_695_981_039_346_656_037, |hash, byte| {
        (hash ^ u64::from(*byte)).wrapping_mul(1_099_511_628_211)
    })
}

impl Key {
    pub(crate) fn of(item: &Item) -> Key
        ensures { result ≡ item_key item.now }
    {
        let mark = match item.kind {
            Kind::Column => mark(item.value.as_slice()),
            _ => 0,
        };
        Key {
            kind: rank(item.kind),
            class: item.slot.class,
            a: item.slot.a,
            attempt: item.slot.attempt,
            bround: item.slot.bround,
            step: item.slot.step,
            origin: item.slot.origin,
            mark,
        }
    }
}

// How many are counted for a key.
pub(crate) fn count_of(index: &IndexMap<Key, usize>, key: &Key) -> usize
    ensures { result ≡ count_at index.now key.now }
{
    index.get(key).copied().unwrap_or(0)
}

// Counts one more for a key.
pub(crate) fn count_in(index: &mut IndexMap<Key, usize>, key: Key) -> Result<(), Mem>
    ensures ok { OnOk result ((q : Key) → count_at index.new q ≡ count_at index.old q + (if key_eq q key then 1 else 0)) }
    ensures err { OnErr result ((q : Key) → count_at index.new q ≡ count_at index.old q) }
{
    let more = count_of(index, &key).checked_add(1).ok_or(Mem)?;
    index.insert(key, more)?;
    Ok(())
}

// Counts one less for a key.
pub(crate) fn count_out(index: &mut IndexMap<Key, usize>, key: &Key)
    ensures { (q : Key) → count_at index.new q ≡ count_at index.old q - (if key_eq q key.now then 1 else 0) }
{
    let count = count_of(index, key);
    if count > 1 {
        if let Some(counted) = index.get_mut(key) {
            *counted = count - 1;
        }
    } else {
        index.swap_remove(key);
    }
}
