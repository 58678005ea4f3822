//! In how many lists identifiers stand.

ghost use Rattle.std.specs.Prelude.{◌≡◌, ℕ, ◌<◌, ◌≤◌, List, [], ◌∷◌, length, drop, nat_le, IfOk, OnOk};
ghost use Rattle.std.specs.Int.RustNames.{count_ones};
ghost use Rattle.ritas_base.specs.declared.id.Id.{Id};
ghost use Rattle.frame_codec.specs.Values.{ids_of, mask_of, entry_in_front, after_entry, vector_entries};
ghost use Rattle.ordered_rounds.specs.Identifiers.{passing_ids, in_order};
ghost use Rattle.layer_api.specs.Proposals.{backers};
ghost use Rattle.ordered_rounds.specs.Rounds.{entry_ids, backed};
ghost use Rattle.ordered_rounds.specs.Backing.{lists_with, NotesList};

use frame_codec::id_at;
use ritas_base::{Id, Mem, Params, SenderSet};
use std::alloc::Global;
use std::collections::BTreeMap;

// How many lists the mask of a vector tells of, and the bytes behind it.
#[tactic(auto, unfolding(frame_codec::specs::Values::mask_of))]
fn split_count(vector: &[u8]) -> (u8, &[u8])
    requires { 4 ≤ length vector.now }
    ensures count { result.0 ≡ count_ones (mask_of vector.now) }
    ensures few { result.0 ≤ 32 }
    ensures rest { result.1.now ≡ drop 4 vector.now }
{
    let (front, rest) = vector.split_at(4);
    let mask = u32::from_be_bytes([front[0], front[1], front[2], front[3]]);
    (mask.count_ones() as u8, rest)
}

// The list in front, and the bytes behind it. A list that is cut off is what there is of it.
#[tactic(auto, unfolding(frame_codec::specs::Values::len_in))]
fn split_list(bytes: &[u8]) -> (&[u8], &[u8])
    ensures list { result.0.now ≡ entry_in_front bytes.now }
    ensures rest { result.1.now ≡ after_entry bytes.now }
{
    if bytes.len() < 2 {
        return (&[], &[]);
    }
    let (front, rest) = bytes.split_at(2);
    let len = usize::from(u16::from_be_bytes([front[0], front[1]]));
    rest.split_at(len.min(rest.len()))
}

// Notes that an identifier stands in list k.
fn note_id(noted: &mut BTreeMap<Id, u32>, id: Id, k: u8) -> Result<(), Mem>
    requires { k < 32 }
    ensures { OnOk result (NotesList noted.old noted.new (id ∷ []) k) }
{
    let lists = SenderSet::from_mask(noted.get(&id).copied().unwrap_or(0));
    noted.insert(id, lists.with(k).mask())?;
    Ok(())
}

/// Notes that the identifiers of list k stand there.
pub fn note_list(noted: &mut BTreeMap<Id, u32>, list: &[u8], k: u8) -> Result<(), Mem>
    requires { k < 32 }
    ensures { OnOk result (NotesList noted.old noted.new (ids_of list.now) k) }
{
    for at in 0..list.len() / 5 {
        if let Some(id) = id_at(list, at) {
            note_id(noted, id, k)?;
        }
    }
    Ok(())
}

// In which lists each identifier stands, as a mask: bit j stands for list j.
fn note_lists(alloc: Global, vector: &[u8]) -> Result<BTreeMap<Id, u32>, Mem>
    ensures { IfOk result (λ noted. (x : Id) → lists_with noted x ≡ backers (vector_entries vector.now) x) }
{
    let mut noted = BTreeMap::new(alloc);
    if vector.len() < 4 {
        return Ok(noted);
    }
    let (count, mut rest) = split_count(vector);
    for k in 0..count {
        let (list, after) = split_list(rest);
        note_list(&mut noted, list, k)?;
        rest = after;
    }
    Ok(noted)
}

/// Those that stand in so many lists at least, ascending.
pub fn with_backers(alloc: Global, least: u8, noted: &BTreeMap<Id, u32>) -> Result<Vec<Id>, Mem>
    requires { 1 ≤ least }
    ensures { IfOk result (λ ids. (lists : List (List ℕ)) → ((x : Id) → lists_with noted.now x ≡ backers lists x)
        → ids.items ≡ passing_ids (λ x. nat_le least (backers lists x)) (in_order (entry_ids lists))) }
{
    let mut ids = Vec::new(alloc);
    for (id, lists) in noted.iter() {
        if SenderSet::from_mask(*lists).len() >= least {
            ids.push(*id)?;
        }
    }
    Ok(ids)
}

/// The identifiers that stand in f + 1 at least of the lists of a vector, ascending, each once.
///
/// One of f + 1 lists is a correct replica's, which had the command delivered. The vector is read once, and each of its
/// identifiers costs the logarithm of how many different ones there are. Any bytes are taken: a list that is cut off is
/// what there is of it. What comes out is new memory; `Err` says that there was none.
pub fn backed_ids(alloc: Global, p: &Params, vector: &[u8]) -> Result<Vec<Id>, Mem>
    ensures { IfOk result (λ ids. ids.items ≡ backed p.now (vector_entries vector.now)) }
{
    let noted = note_lists(alloc, vector)?;
    with_backers(alloc, p.f() + 1, &noted)
}
