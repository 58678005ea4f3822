//! Which item a call made a replica take, where the audit looks at it: at columns, and at items of the kinds that their slot's
//! broadcast hashes.

ghost use Rattle.std.specs.Prelude.{◌≡◌, ℕ, ◌==◌, ◌||◌, ◌≢◌, true, [], Some, None, Ok, IfOk, OnErr, is_some, if◌then◌else◌};
ghost use Rattle.std.specs.Option.{option_copied};
ghost use Rattle.ritas_base.specs.declared.item.Item.{Item as an_item};
ghost use Rattle.ritas_base.specs.declared.mode.Mode.{Mode};
ghost use Rattle.ritas_base.specs.Numbers.{Numbers, IsSession};
ghost use Rattle.ritas_base.specs.Slots.{form_of};
ghost use Rattle.frame_codec.specs.Body.{body_answer};
ghost use Rattle.keyed_channel.specs.Keyed.{tags_of};
ghost use Rattle.ritas_core.specs.Machine.{CoreState};
ghost use Rattle.ritas_core.specs.Stands.{meaning};
ghost use Rattle.world_model.specs.World.{Setting};
ghost use Rattle.world_model.specs.Watch.{is_watched, watched, is_watched_start};
ghost use Rattle.world_model.specs.Stands.{ReplicasStand};
ghost use Rattle.world_model.specs.Steps.{is_took, IsInboxFront, IsFrameItem};

use crate::seen::Seen;
use frame_codec::{BodyFault, read_body, spelled};
use keyed_channel::{LazyFrame, frame_parts};
use layer_api::{Broadcast, Service};
use replica::Replica;
use ritas_base::{Coin, FrameVersion, Item, Kind, Mem, Mode, Params};
use ritas_core::Answer;
use std::alloc::Global;

// Whether the audit looks at items of this kind, where the slot's broadcast has this form.
fn is_watched(form: u8, kind: Kind) -> bool
    ensures { result ≡ is_watched form kind }
{
    match kind {
        Kind::Init | Kind::Value => form == 3,
        Kind::Send => form == 2,
        Kind::Column => true,
        _ => false,
    }
}

// Whether an event was seen to be taken.
fn is_took(seen: &Seen) -> bool
    ensures { result ≡ is_took seen.now }
{
    match seen {
        Seen::Answered(Answer::Took) => true,
        _ => false,
    }
}

// A copy of an item. The one error is want of memory.
fn copied(alloc: Global, item: &Item) -> Result<Item, Mem>
    ensures { IfOk result (λ copy. copy ≡ item.now) }
{
    let value = item.value.copy(alloc)?;
    Ok(Item {
        from: item.from,
        kind: item.kind,
        slot: item.slot,
        value,
    })
}

// A copy of an item, if there is one and the audit looks at it.
fn watched(alloc: Global, mode: &Mode, item: Option<&Item>) -> Result<Option<Item>, Mem>
    ensures is { IfOk result (λ found. found ≡ watched mode.now (option_copied item.entry)) }
    ensures only { OnErr result (is_some (option_copied item.entry) ≡ true) }
{
    match item {
        Some(item) => {
            if !is_watched(item.slot.form(mode), item.kind) {
                return Ok(None);
            }
            Ok(Some(copied(alloc, item)?))
        }
        None => Ok(None),
    }
}

/// The item at the front of a replica's inbox, where the audit looks at it. The one error is want of memory, where an item
/// waits.
pub(crate) fn front_item<S: Service, E: Broadcast, C: Coin + Drop>(
    alloc: Global,
    mode: &Mode,
    replicas: &[Option<Replica<S, E, C>>],
    at: u8,
) -> Result<Option<Item>, Mem>
    ensures is { IfOk result (λ front. (w : Setting) (states : ℕ → CoreState) → mode.now ≡ w.mode
        → ReplicasStand (meaning S.stands S.rules S.shown E.stands E.rules E.shown C.bits (λ k. k.me) tags_of) w states replicas.now
        → w.is_correct at ≡ true → IsInboxFront w states at front) }
    ensures only { OnErr result ((w : Setting) (states : ℕ → CoreState)
        → ReplicasStand (meaning S.stands S.rules S.shown E.stands E.rules E.shown C.bits (λ k. k.me) tags_of) w states replicas.now
        → (w.is_correct at ≡ true) × ((states at).inbox ≢ [])) }
{
    let place = usize::from(at);
    if place >= replicas.len() {
        return Ok(None);
    }
    match &replicas[place] {
        Some(replica) => watched(alloc, mode, replica.core().inbox_front()),
        None => Ok(None),
    }
}

// Whether the audit looks at items whose bodies begin so: with the byte of a kind, and with that of a slot's class.
fn is_watched_start(version: FrameVersion, kind: u8, class: u8) -> bool
    ensures { result ≡ is_watched_start version kind class }
{
    match version {
        FrameVersion::One => kind == 4 || kind == 6,
        FrameVersion::Two => (kind == 4 || kind == 6) || (kind == 1 || kind == 8),
        FrameVersion::Three => {
            (kind == 4 || kind == 6) || ((kind == 1 || kind == 8) && class != 5)
        }
    }
}

// Whether the audit looks at the item that a body spells.
fn is_watched_body(mode: &Mode, body: &[u8]) -> bool
    ensures { (p : Numbers) (from : ℕ) (item : an_item) → IsSession p
        → body_answer p mode.now from body.now ≡ Ok item → result ≡ is_watched (form_of mode.now item.slot) item.kind }
{
    spelled();
    match body {
        [kind, class, ..] => is_watched_start(mode.version, *kind, *class),
        _ => false,
    }
}

// The item that a body spells, if it does and the audit looks at it. The one error is want of memory.
fn body_item(
    alloc: Global,
    p: &Params,
    mode: &Mode,
    from: u8,
    body: &[u8],
) -> Result<Option<Item>, Mem>
    ensures { IfOk result (λ found. (item : an_item) → IsSession p.now
        → body_answer p.now mode.now from body.now ≡ Ok item → found ≡ watched mode.now (Some item)) }
{
    if !is_watched_body(mode, body) {
        return Ok(None);
    }
    match read_body(alloc, p, mode, from, body) {
        Ok(item) => Ok(Some(item)),
        Err(BodyFault::Mem) => Err(Mem),
        Err(_) => Ok(None),
    }
}

/// The item that a frame's body spells, where the frame was seen to be taken and the audit looks at the item. The one error
/// is want of memory, where it was taken.
pub(crate) fn frame_item(
    alloc: Global,
    p: &Params,
    mode: &Mode,
    seen: &Seen,
    bytes: &[u8],
) -> Result<Option<Item>, Mem>
    ensures is { IfOk result (λ found. IsFrameItem p.now mode.now seen.now bytes.now found) }
    ensures only { OnErr result (is_took seen.now ≡ true) }
{
    if !is_took(seen) {
        return Ok(None);
    }
    match frame_parts(bytes) {
        Some(parts) => body_item(alloc, p, mode, parts.from, parts.body),
        None => Ok(None),
    }
}

/// The item that the body of a frame that a channel made spells, as `frame_item` finds it.
pub(crate) fn lazy_frame_item(
    alloc: Global,
    p: &Params,
    mode: &Mode,
    seen: &Seen,
    frame: &LazyFrame,
) -> Result<Option<Item>, Mem>
    ensures is { IfOk result (λ found. IsFrameItem p.now mode.now seen.now frame.now found) }
    ensures only { OnErr result (is_took seen.now ≡ true) }
{
    if !is_took(seen) {
        return Ok(None);
    }
    let parts = frame.parts();
    body_item(alloc, p, mode, parts.from, parts.body)
}

/// The item, where the event was seen to be taken.
pub(crate) fn if_took(seen: &Seen, item: Option<Item>) -> Option<Item>
    ensures { result ≡ (if is_took seen.now then item else None) }
{
    if is_took(seen) { item } else { None }
}
