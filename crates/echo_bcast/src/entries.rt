//! The entries of a replica's tagger, given and found again.

ghost use Rattle.std.specs.Prelude.{◌≡◌, ◌≤◌, ◌<◌, ℕ, true, IfOk, length};
ghost use Rattle.ritas_base.specs.Members.{has_member};
ghost use Rattle.frame_codec.specs.Format.{Is};
ghost use Rattle.frame_codec.specs.Grammar.{column};
ghost use Rattle.frame_codec.specs.Values.{mask_of};
ghost use Rattle.echo_bcast.specs.Matrix.{hashes_bytes};
ghost use Rattle.echo_bcast.specs.State.{tagged, has_valid_entry, adds_to, JoinsSet};

use frame_codec::column_entry;
use ritas_base::{Bytes, Mem, SenderSet, Slot, Tagger};
use std::alloc::Global;
use std::slice;
use vote_lanes::rows_equal;

/// This replica's entry over a digest for a verifier.
fn entry_for<T: Tagger>(t: &T, slot: &Slot, verifier: u8, digest: &[u8; 32]) -> [u8; 32]
    requires me_fits { T.me t.now < 31 }
    requires verifier_fits { verifier < 31 }
    ensures value { result ≡ (T.tags t.now).entry slot.now (T.me t.now) verifier digest.now }
    ensures whole { length result ≡ 32 }
{
    t.entry(slot, t.me(), verifier, digest)
}

/// This replica's entries over a digest, one for each verifier, one behind the other. The one error is want of memory.
pub(crate) fn hashes_of<T: Tagger>(
    alloc: Global,
    t: &T,
    slot: &Slot,
    n: u8,
    digest: &[u8; 32],
) -> Result<Bytes, Mem>
    requires me_fits { T.me t.now < 31 }
    requires all_fit { n ≤ 31 }
    ensures { IfOk result (λ bytes. bytes
        ≡ hashes_bytes (tagged (record { me = T.me t.now; tags = T.tags t.now }) slot.now n digest.now)) }
{
    let mut out = Vec::with_capacity(alloc, 32 * usize::from(n))?;
    for verifier in 0..n {
        out.extend_from_slice(&entry_for(t, slot, verifier, digest))?;
    }
    Ok(Bytes::from_vec(out))
}

/// The mask in front.
#[tactic(auto, unfolding(frame_codec::specs::Values::mask_of))]
fn mask_of(value: &[u8]) -> u32
    requires { 4 ≤ length value.now }
    ensures { result ≡ mask_of value.now }
{
    u32::from_be_bytes([value[0], value[1], value[2], value[3]])
}

/// Whether the bytes are a column, of however many replicas.
pub(crate) fn is_column(value: &[u8]) -> bool
    ensures right { result ≡ true → Is (column 32) value.now }
    ensures all { (n : ℕ) → Is (column n) value.now → result ≡ true }
{
    if value.len() < 4 {
        return false;
    }
    let rows = mask_of(value).count_ones() as usize;
    rows >= 1 && value.len() == 4 + 32 * rows
}

/// Whether a column has a valid entry of an echoer for this replica.
fn is_valid<T: Tagger>(t: &T, slot: &Slot, digest: &[u8; 32], value: &[u8], echoer: u8) -> bool
    requires me_fits { T.me t.now < 31 }
    requires echoer_fits { echoer < 31 }
    requires is_column { Is (column 32) value.now }
    ensures { result ≡ has_valid_entry (record { me = T.me t.now; tags = T.tags t.now }) slot.now digest.now value.now echoer }
{
    let Some(row) = column_entry(value, echoer) else {
        return false;
    };
    // It is a whole row, so it is an array where it stands.
    let Some(row) = row.as_array() else {
        return false;
    };
    let entry = t.entry(slot, echoer, t.me(), digest);
    rows_equal(slice::from_ref(row), 1, &entry) == 1
}

/// The set with the echoers of which a column has a valid entry, and whether it has more members by them.
pub(crate) fn judged<T: Tagger>(
    t: &T,
    slot: &Slot,
    n: u8,
    digest: &[u8; 32],
    value: &[u8],
    good: SenderSet,
) -> (SenderSet, bool)
    requires me_fits { T.me t.now < 31 }
    requires all_fit { n ≤ 31 }
    requires is_column { Is (column 32) value.now }
    ensures good { JoinsSet (record { me = T.me t.now; tags = T.tags t.now }) slot.now n digest.now value.now good result.0 }
    ensures news { result.1 ≡ adds_to (record { me = T.me t.now; tags = T.tags t.now }) slot.now n digest.now value.now good }
{
    let mut all = good;
    let mut news = false;
    for echoer in 0..n {
        if !good.has(echoer) && is_valid(t, slot, digest, value, echoer) {
            all = all.with(echoer);
            news = true;
        }
    }
    (all, news)
}
