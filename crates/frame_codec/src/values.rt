//! What stands in values. No call takes memory.

ghost use Rattle.std.specs.Prelude.{◌≡◌, ℕ, suc, ◌<◌, ◌≤◌, ◌^◌, ◌↔◌, [], length, drop};
ghost use Rattle.std.specs.Prelude.{IsTrue, MatchOption, Contains};
ghost use Rattle.std.specs.Option.{option_copied};
ghost use Rattle.std.specs.List.{slice_get};
ghost use Rattle.ritas_base.specs.Numbers.{Numbers};
ghost use Rattle.frame_codec.specs.Format.{Is};
ghost use Rattle.frame_codec.specs.Grammar.{vector, vect};
ghost use Rattle.frame_codec.specs.Values.{ids_of, mask_of, entry_at_place, column_row};
ghost use Rattle.frame_codec.specs.Values.{len_in, entry_in_front, after_entry, HasEntries, nth_entry};

use crate::ids::id_from;
use ritas_base::{Id, SenderSet};

/// The identifier at a place of a list, from 0; `None` exactly where there is no such place.
pub fn id_at(value: &[u8], at: usize) -> Option<Id>
    ensures { result ≡ slice_get (ids_of value.now) at }
{
    if at >= value.len() / 5 {
        return None;
    }
    Some(id_from(&value[5 * at..5 * at + 5]))
}

/// Whether an identifier is in a list.
pub fn ids_have(value: &[u8], id: Id) -> bool
    ensures { IsTrue result ↔ Contains (ids_of value.now) id }
{
    for at in 0..value.len() / 5 {
        if id_at(value, at) == Some(id) {
            return true;
        }
    }
    false
}

#[tactic(auto, unfolding(crate::specs::Values::mask_of))]
fn split_mask(value: &[u8]) -> (SenderSet, &[u8])
    requires { 4 ≤ length value.now }
    ensures mask { result.0 ≡ mask_of value.now }
    ensures small { mask_of value.now < 2 ^ 32 }
    ensures rest { result.1.now ≡ drop 4 value.now }
{
    let (front, rest) = value.split_at(4);
    let mask = u32::from_be_bytes([front[0], front[1], front[2], front[3]]);
    (SenderSet::from_mask(mask), rest)
}

#[tactic(auto, unfolding(crate::specs::Values::len_in))]
fn split_entry(bytes: &[u8]) -> (&[u8], &[u8])
    requires length { 2 ≤ length bytes.now }
    requires whole { len_in bytes.now ≤ length (drop 2 bytes.now) }
    ensures entry { result.0.now ≡ entry_in_front bytes.now }
    ensures rest { result.1.now ≡ after_entry bytes.now }
{
    let (front, rest) = bytes.split_at(2);
    let len = u16::from_be_bytes([front[0], front[1]]);
    rest.split_at(usize::from(len))
}

fn nth_entry(at: u32, bytes: &[u8]) -> &[u8]
    requires { HasEntries (suc at) bytes.now }
    ensures { result.now ≡ nth_entry at bytes.now }
{
    let mut rest = bytes;
    for _ in 0..at {
        let (_, after) = split_entry(rest);
        rest = after;
    }
    let (entry, _) = split_entry(rest);
    entry
}

/// The entry of a vector at replica k's place; `None` exactly where it has no such place. Condition: the value is a
/// vector.
pub fn vector_entry(value: &[u8], k: u8) -> Option<&[u8]>
    requires { (p : Numbers) × (root : ℕ) × Is (vector p root) value.now }
    ensures { option_copied result ≡ entry_at_place value.now k }
{
    let (places, rest) = split_mask(value);
    if !places.has(k) {
        return None;
    }
    Some(nth_entry(places.rank(k), rest))
}

/// The places and the value of a VECT; `None` exactly where the VECT is none. Condition: the value is a VECT.
pub fn vect_parts(value: &[u8]) -> Option<(SenderSet, &[u8])>
    requires { (p : Numbers) × (root : ℕ) × Is (vect p root) value.now }
    ensures { MatchOption result (value.now ≡ [])
        (λ x. (0 < length value.now) × (x.0 ≡ mask_of value.now) × (x.1.now ≡ drop 4 value.now)) }
{
    if value.is_empty() {
        return None;
    }
    Some(split_mask(value))
}

/// The row of a column at replica k's place; `None` exactly where it has no such place, or where its row there isn't
/// whole. So it is of any bytes.
pub fn column_entry(value: &[u8], k: u8) -> Option<&[u8]>
    ensures { option_copied result ≡ column_row value.now k }
{
    if value.len() < 4 {
        return None;
    }
    let (places, rest) = split_mask(value);
    if !places.has(k) {
        return None;
    }
    let start = 32 * places.rank(k) as usize;
    if rest.len() < start + 32 {
        return None;
    }
    Some(&rest[start..start + 32])
}
