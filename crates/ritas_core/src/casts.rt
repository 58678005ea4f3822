//! Starting the broadcasts of what the service says, each made where it isn't there yet.

ghost use Rattle.std.specs.Prelude.{◌≡◌, ◌<◌, ◌++◌, Bool, false, None, List, OnOk, OnErr};
ghost use Rattle.std.specs.FinMap.{get};
ghost use Rattle.ritas_base.specs.declared.slot.Slot.{Slot};
ghost use Rattle.ritas_base.specs.History.{Call, Start};
ghost use Rattle.ritas_base.specs.Tags.{Tags};
ghost use Rattle.layer_api.specs.Broadcast.{MayStart};
ghost use Rattle.ritas_core.specs.Rules.{casts_by, place_at};
ghost use Rattle.ritas_core.specs.SlotCast.{CastStandsAt, shown_by_cast};
ghost use Rattle.ritas_core.specs.Drops.{is_dropped_shown};
ghost use Rattle.ritas_core.specs.Casts.{news_at};
ghost use Rattle.ritas_core.specs.CastCalls.{IsOwnTagger, StartsCast, StartsNone, StartsCasts, StartsFewer};

use crate::cast::Cast;
use crate::drops::is_dropped;
use instance_tree::Tree;
use layer_api::{Broadcast, Service};
use ritas_base::{Mem, Mode, Msg, Params, Say, Slot, Tagger};
use std::alloc::Global;

/// Makes the broadcast of a say's slot, where none is there, and starts it. The slot's broadcasts aren't dropped.
fn start_first<E: Broadcast, T: Tagger>(
    alloc: Global,
    p: &Params,
    mode: &Mode,
    me: u8,
    t: &T,
    casts: &mut Tree<Cast<E>>,
    say: &Say,
    made: &mut Vec<Msg>,
) -> Result<(), Mem>
    requires me_below { me < p.now.n }
    requires origin_below { say.now.slot.origin < p.now.n }
    requires unmade { get casts.old say.now.slot ≡ None }
    ensures ok { let c = casts_by mode.now p.now me (T.tags t.now) E.rules in
        OnOk result ((dropped : Slot → Bool) → dropped say.now.slot ≡ false
        → StartsCast (CastStandsAt mode.now E.stands) c dropped (T.me t.now) casts.old casts.new say.now made.old.items made.new.items) }
    ensures err { let c = casts_by mode.now p.now me (T.tags t.now) E.rules in
        OnErr result ((dropped : Slot → Bool)
        → StartsNone (CastStandsAt mode.now E.stands) (shown_by_cast E.shown) c dropped (T.me t.now) casts.old casts.new say.now) }
{
    let mut cast = Cast::make(alloc, p, mode, me, say.slot)?;
    cast.start(alloc, t, say.value.as_slice(), made)?;
    match casts.make(alloc, say.slot, cast) {
        Ok(()) => Ok(()),
        Err(_) => Err(Mem),
    }
}

/// Starts a broadcast that isn't kept, since its slot is past: what becomes due by a start doesn't depend on the items taken
/// before.
fn start_alone<E: Broadcast, T: Tagger>(
    alloc: Global,
    p: &Params,
    mode: &Mode,
    me: u8,
    t: &T,
    say: &Say,
    made: &mut Vec<Msg>,
) -> Result<(), Mem>
    requires me_below { me < p.now.n }
    requires origin_below { say.now.slot.origin < p.now.n }
    ensures { let c = casts_by mode.now p.now me (T.tags t.now) E.rules in
        OnOk result ((h : List Call) → IsOwnTagger c (T.me t.now) → MayStart (place_at c say.now.slot) h
        → made.new.items ≡ made.old.items ++ news_at c say.now.slot h (Start say.now.value)) }
{
    let mut cast: Cast<E> = Cast::make(alloc, p, mode, me, say.slot)?;
    cast.start(alloc, t, say.value.as_slice(), made)?;
    Ok(())
}

/// Starts the broadcast of one say, whose slot's broadcasts are dropped or aren't.
fn start_cast<E: Broadcast, T: Tagger>(
    alloc: Global,
    p: &Params,
    mode: &Mode,
    me: u8,
    t: &T,
    casts: &mut Tree<Cast<E>>,
    is_dropped: bool,
    say: &Say,
    made: &mut Vec<Msg>,
) -> Result<(), Mem>
    ensures ok { let c = casts_by mode.now p.now me (T.tags t.now) E.rules in
        OnOk result ((dropped : Slot → Bool) → dropped say.now.slot ≡ is_dropped
        → StartsCast (CastStandsAt mode.now E.stands) c dropped (T.me t.now) casts.old casts.new say.now made.old.items made.new.items) }
    ensures err { let c = casts_by mode.now p.now me (T.tags t.now) E.rules in
        OnErr result ((dropped : Slot → Bool) → dropped say.now.slot ≡ is_dropped
        → StartsNone (CastStandsAt mode.now E.stands) (shown_by_cast E.shown) c dropped (T.me t.now) casts.old casts.new say.now) }
{
    // No such say comes: a say is at one of the replica's own slots.
    if me >= p.n() || say.slot.origin >= p.n() {
        return Ok(());
    }
    if is_dropped {
        return start_alone::<E, T>(alloc, p, mode, me, t, say, made);
    }
    match casts.find_mut(&say.slot) {
        Some(cast) => cast.start(alloc, t, say.value.as_slice(), made),
        None => start_first(alloc, p, mode, me, t, casts, say, made),
    }
}

/// Starts the broadcasts of these says, in order. Those of slots that are past, as the service shows it, aren't kept.
pub(crate) fn start_casts<S: Service, E: Broadcast, T: Tagger>(
    alloc: Global,
    p: &Params,
    mode: &Mode,
    me: u8,
    t: &T,
    service: &S,
    casts: &mut Tree<Cast<E>>,
    says: &[Say],
    made: &mut Vec<Msg>,
) -> Result<(), Mem>
    ensures ok { let c = casts_by mode.now p.now me (T.tags t.now) E.rules in
        OnOk result (StartsCasts (CastStandsAt mode.now E.stands) c (is_dropped_shown mode.now.version (S.shown service.now) p.now.n) (T.me t.now)
        casts.old casts.new says.now made.old.items made.new.items) }
    ensures err { let c = casts_by mode.now p.now me (T.tags t.now) E.rules in
        OnErr result (StartsFewer (CastStandsAt mode.now E.stands) (shown_by_cast E.shown) c (is_dropped_shown mode.now.version (S.shown service.now) p.now.n) (T.me t.now)
        casts.old casts.new says.now) }
{
    for say in says {
        let is_gone = is_dropped(mode.version, service, p.n(), &say.slot);
        start_cast(alloc, p, mode, me, t, casts, is_gone, say, made)?;
    }
    Ok(())
}
