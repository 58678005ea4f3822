//! Bodies, read.

ghost use Rattle.std.specs.Prelude.{◌≡◌, ℕ, ◌+◌, ◌<◌, ◌≤◌, ◌^◌, length};
ghost use Rattle.std.specs.Prelude.{IfOk, OnOk, MatchResult, Ok, Some, None};
ghost use Rattle.frame_codec.specs.Body.{kind_of, is_of_version, if_of_version, slot_of, is_of_form, head_answer, payload_fault};
ghost use Rattle.frame_codec.specs.Body.{body_answer, Answers, Spells};
ghost use Rattle.frame_codec.specs.Format.{read};
ghost use Rattle.frame_codec.specs.Grammar.{payload};
ghost use Rattle.ritas_base.specs.Numbers.{IsSession};
ghost use Rattle.ritas_base.specs.declared.item.Item.{Item as an_item};

use crate::fault::{BodyFault, Wrong};
use crate::payload::payload;
use ritas_base::{Bytes, FrameVersion, Item, Kind, Mode, Params, Slot, SlotFault};
use std::alloc::Global;

fn kind_of(b: u8) -> Option<Kind>
    ensures { result ≡ kind_of b }
{
    match b {
        1 => Some(Kind::Init),
        2 => Some(Kind::Echo),
        3 => Some(Kind::Ready),
        4 => Some(Kind::Send),
        5 => Some(Kind::Hashes),
        6 => Some(Kind::Column),
        7 => Some(Kind::Want),
        8 => Some(Kind::Value),
        _ => None,
    }
}

fn is_of_version(version: FrameVersion, kind: Kind) -> bool
    ensures { result ≡ is_of_version version kind }
{
    match (version, kind) {
        (FrameVersion::One, Kind::Want | Kind::Value) => false,
        _ => true,
    }
}

/// The kind with this number, where frames of the version have it.
fn kind_in(version: FrameVersion, b: u8) -> Option<Kind>
    ensures { result ≡ if_of_version version (kind_of b) }
{
    let kind = kind_of(b)?;
    if !is_of_version(version, kind) {
        return None;
    }
    Some(kind)
}

fn is_of_form(form: u8, kind: Kind) -> bool
    ensures { result ≡ is_of_form form kind }
{
    match kind {
        Kind::Init | Kind::Echo | Kind::Ready => form != 2,
        Kind::Send | Kind::Hashes | Kind::Column => form == 2,
        Kind::Want | Kind::Value => form == 3,
    }
}

#[tactic(auto, unfolding(crate::specs::Body::slot_of))]
fn slot_of(b: &[u8]) -> Slot
    requires { length b.now ≡ 9 }
    ensures { result ≡ slot_of b.now }
{
    Slot {
        class: b[0],
        a: u32::from_be_bytes([b[1], b[2], b[3], b[4]]),
        attempt: b[5],
        bround: b[6],
        step: b[7],
        origin: b[8],
    }
}

/// The kind and the slot of a body.
#[tactic(auto, unfolding(crate::specs::Body::head_answer))]
fn head(p: &Params, mode: &Mode, bytes: &[u8]) -> Result<(Kind, Slot), BodyFault>
    ensures value { result ≡ head_answer p.now mode.now bytes.now }
    ensures whole { OnOk result (10 ≤ length bytes.now) }
    ensures session { OnOk result (IsSession p.now) }
{
    if bytes.is_empty() {
        return Err(BodyFault::Kind);
    }
    let Some(kind) = kind_in(mode.version, bytes[0]) else {
        return Err(BodyFault::Kind);
    };
    if bytes.len() < 10 {
        return Err(BodyFault::Slot(SlotFault::Whole));
    }
    let slot = slot_of(&bytes[1..10]);
    if let Err(fault) = slot.check(p, mode) {
        return Err(BodyFault::Slot(fault));
    }
    if !is_of_form(slot.form(mode), kind) {
        return Err(BodyFault::Kind);
    }
    Ok((kind, slot))
}

/// Whether a payload, the last of so many bytes, is whole and right.
fn check_payload(
    p: &Params,
    mode: &Mode,
    kind: Kind,
    slot: &Slot,
    len: usize,
    bytes: &[u8],
) -> Result<(), BodyFault>
    requires whole { len ≡ 10 + length bytes.now }
    requires session { IsSession p.now }
    ensures { MatchResult result
        (λ _. payload_fault len (read (payload p.now mode.now kind slot.now) bytes.now) ≡ None)
        (λ fault. payload_fault len (read (payload p.now mode.now kind slot.now) bytes.now) ≡ Some fault) }
{
    match payload(p, mode, kind, slot, bytes) {
        Err(Wrong { left }) => Err(BodyFault::Payload((len - left) as u32)),
        Ok([]) => Ok(()),
        Ok(rest) => Err(BodyFault::Rest((len - rest.len()) as u32)),
    }
}

#[tactic(auto, unfolding(crate::specs::Body::body_answer))]
fn answer(alloc: Global, p: &Params, mode: &Mode, from: u8, bytes: &[u8]) -> Result<Item, BodyFault>
    ensures exact { Answers result (body_answer p.now mode.now from bytes.now) }
    ensures session { OnOk result (IsSession p.now) }
{
    let (kind, slot) = head(p, mode, bytes)?;
    let value = &bytes[10..];
    check_payload(p, mode, kind, &slot, bytes.len(), value)?;
    let value = Bytes::from_slice(alloc, value)?;
    Ok(Item {
        from,
        kind,
        slot,
        value,
    })
}

/// The one item that the bytes spell, as from this replica.
///
/// `Kind` comes exactly where the body is empty, its first byte isn't 1 to 6 (in versions 2 and 3: 1 to 8), or its slot is right
/// and goes by a broadcast without this kind; `Slot` exactly where the first byte is one of these and the slot isn't whole,
/// or has this fault. Otherwise the payload is read from the left: `Payload` comes at the first field that is wrong or
/// isn't whole, and `Rest` exactly where bytes follow a whole payload. A digest is one field, which is never wrong. `Mem`
/// can come in place of the item alone.
pub fn read_body(
    alloc: Global,
    p: &Params,
    mode: &Mode,
    from: u8,
    bytes: &[u8],
) -> Result<Item, BodyFault>
    // What is read is spelled so.
    ensures found { IfOk result (λ item. Spells p.now mode.now from bytes.now item) }
    // What is spelled so is read, unless memory runs out.
    ensures only { (item : an_item) → Spells p.now mode.now from bytes.now item → Answers result (Ok item) }
    // Which fault it is.
    ensures exact { Answers result (body_answer p.now mode.now from bytes.now) }
{
    answer(alloc, p, mode, from, bytes)
}
