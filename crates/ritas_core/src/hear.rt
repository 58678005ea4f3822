//! Giving an item to the broadcast of its slot, which is made where it isn't there yet, and what is newly delivered by it.

ghost use Rattle.std.specs.Prelude.{◌≡◌, ◌<◌, List, ℕ, Bool, true, IsOk, IfOk, None, if◌then◌else◌};
ghost use Rattle.std.specs.FinMap.{get};
ghost use Rattle.ritas_base.specs.declared.slot.Slot.{Slot};
ghost use Rattle.ritas_base.specs.declared.mode.Mode.{Mode};
ghost use Rattle.ritas_base.specs.History.{Call};
ghost use Rattle.ritas_base.specs.Numbers.{Numbers};
ghost use Rattle.ritas_base.specs.Tags.{Tags};
ghost use Rattle.ritas_core.specs.declared.route.Route.{Route};
ghost use Rattle.ritas_core.specs.Rules.{casts_by, rules_by};
ghost use Rattle.ritas_core.specs.SlotCast.{CastStands, CastStandsAt, shown_by_cast};
ghost use Rattle.ritas_core.specs.Casts.{CastsStand};
ghost use Rattle.ritas_core.specs.CastCalls.{HearsItem, CastsHear, is_ready_in};

use crate::cast::Cast;
use crate::taken::Taken;
use instance_tree::Tree;
use layer_api::{Broadcast, Heard};
use ritas_base::{Bytes, Item, Kind, Mem, Mode, Msg, Params, Tagger};
use std::alloc::Global;

/// What is delivered, where nothing was before.
fn newly_delivered<E: Broadcast>(
    alloc: Global,
    had: bool,
    cast: &Cast<E>,
) -> Result<Option<Bytes>, Mem>
    ensures value { IfOk result (λ d. d ≡ (if had then None else (shown_by_cast E.shown cast.now).out)) }
    ensures had { had ≡ true → IsOk result }
    ensures none { (shown_by_cast E.shown cast.now).out ≡ None → IsOk result }
{
    if had {
        return Ok(None);
    }
    match cast.delivered() {
        None => Ok(None),
        Some(value) => Ok(Some(Bytes::from_slice(alloc, value)?)),
    }
}

/// Gives an item to its broadcast.
fn hear<E: Broadcast, T: Tagger>(
    alloc: Global,
    t: &T,
    cast: &mut Cast<E>,
    item: &Item,
    made: &mut Vec<Msg>,
) -> Result<Taken, Mem>
    ensures { (route : Route) → HearsItem (CastStands route E.stands) (rules_by route E.rules) (shown_by_cast E.shown) (record { me = T.me t.now; tags = T.tags t.now })
        cast.old cast.new item.now made.old.items made.new.items result }
{
    let had = cast.delivered().is_some();
    match cast.take(alloc, t, item, made)? {
        Heard::Repeat => Ok(Taken::Repeat),
        Heard::Took => Ok(Taken::Took(newly_delivered(alloc, had, cast)?)),
    }
}

/// Makes the broadcast of an item's slot, where none is there, and gives it the item. It is kept where it took the item.
fn take_first<E: Broadcast, T: Tagger>(
    alloc: Global,
    p: &Params,
    mode: &Mode,
    me: u8,
    t: &T,
    casts: &mut Tree<Cast<E>>,
    item: &Item,
    made: &mut Vec<Msg>,
) -> Result<Taken, Mem>
    requires me_below { me < p.now.n }
    requires origin_below { item.now.slot.origin < p.now.n }
    requires unmade { get casts.old item.now.slot ≡ None }
    ensures { let c = casts_by mode.now p.now me (T.tags t.now) E.rules in
        (dropped : Slot → Bool) → CastsHear (CastStandsAt mode.now E.stands) (shown_by_cast E.shown) c dropped (T.me t.now) casts.old casts.new item.now made.old.items made.new.items result }
{
    let mut cast = Cast::make(alloc, p, mode, me, item.slot)?;
    match hear(alloc, t, &mut cast, item, made)? {
        Taken::Repeat => Ok(Taken::Repeat),
        Taken::Took(delivered) => match casts.make(alloc, item.slot, cast) {
            Ok(()) => Ok(Taken::Took(delivered)),
            Err(_) => Err(Mem),
        },
    }
}

/// Gives an item to the broadcast of its slot, which is made if it isn't there.
pub(crate) fn take_cast<E: Broadcast, T: Tagger>(
    alloc: Global,
    p: &Params,
    mode: &Mode,
    me: u8,
    t: &T,
    casts: &mut Tree<Cast<E>>,
    item: &Item,
    made: &mut Vec<Msg>,
) -> Result<Taken, Mem>
    ensures { let c = casts_by mode.now p.now me (T.tags t.now) E.rules in
        (dropped : Slot → Bool) → CastsHear (CastStandsAt mode.now E.stands) (shown_by_cast E.shown) c dropped (T.me t.now) casts.old casts.new item.now made.old.items made.new.items result }
{
    // No such item comes: the origin of a slot in the grammar is a replica.
    if me >= p.n() || item.slot.origin >= p.n() {
        return Ok(Taken::Repeat);
    }
    match casts.find_mut(&item.slot) {
        Some(cast) => hear(alloc, t, cast, item, made),
        None => take_first(alloc, p, mode, me, t, casts, item, made),
    }
}

/// Whether the broadcast of its slot can take an item yet. Only a column isn't taken at any time, so nothing else is
/// looked up.
pub(crate) fn is_ready<E: Broadcast>(casts: &Tree<Cast<E>>, item: &Item) -> bool
    ensures { (mode : Mode) (numbers : Numbers) (me : ℕ) (tags : Tags) (dropped : Slot → Bool) (h : Slot → List Call) →
        let c = casts_by mode numbers me tags E.rules in
        CastsStand (CastStandsAt mode E.stands) c dropped casts.now h → result ≡ is_ready_in c casts.now h item.now }
{
    if item.kind != Kind::Column {
        return true;
    }
    match casts.find(&item.slot) {
        Some(cast) => cast.ready_for(item),
        None => false,
    }
}
