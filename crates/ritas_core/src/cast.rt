//! The broadcast of one slot, of the form that its class and the mode give.

ghost use Rattle.std.specs.Prelude.{◌≡◌, ◌<◌, List, [], IfOk};
ghost use Rattle.std.specs.Option.{option_copied};
ghost use Rattle.ritas_base.specs.Messages.{Place};
ghost use Rattle.ritas_base.specs.History.{Call};
ghost use Rattle.ritas_base.specs.Tags.{Tags};
ghost use Rattle.layer_api.specs.BroadcastCalls.{Started, Takes};
ghost use Rattle.ritas_core.specs.declared.route.Route.{Route};
ghost use Rattle.ritas_core.specs.Rules.{reliable_route, route_of, rules_by};
ghost use Rattle.ritas_core.specs.SlotCast.{CastStands, CastStandsAt, is_cast_live, shown_by_cast};

use crate::route::Route;
use layer_api::{Broadcast, Heard};
use reliable_bcast::{DigestRb, Rb};
use ritas_base::{FrameVersion, Item, Mem, Mode, Msg, Params, Slot, Tagger};
use std::alloc::Global;

/// The broadcast of a slot: reliable broadcast with values, or with digests, or the core's other one.
#[derive(Drop)]
pub enum Cast<E> {
    Plain(Rb),
    Digest(DigestRb),
    Other(E),
}

/// By which reliable broadcast the slots of a class go.
fn reliable_route(version: FrameVersion, class: u8) -> Route
    ensures { result ≡ reliable_route version class }
{
    match version {
        FrameVersion::One => Route::Values,
        FrameVersion::Two => Route::Digests,
        FrameVersion::Three => {
            if class == 5 {
                Route::Values
            } else {
                Route::Digests
            }
        }
    }
}

/// By which broadcast a slot goes.
#[tactic(auto, unfolding(crate::specs::Rules::by_other))]
fn route_of(mode: &Mode, slot: &Slot) -> Route
    ensures { result ≡ route_of mode.now slot.now }
{
    let is_other = if slot.class == 1 {
        mode.service().echoes_commands()
    } else {
        slot.class == 4
    };
    if is_other {
        Route::Other
    } else {
        reliable_route(mode.version, slot.class)
    }
}

impl<E: Broadcast> Cast<E> {
    /// The part of replica `me` in the broadcast of a slot, before any call.
    pub(crate) fn make(
        alloc: Global,
        p: &Params,
        mode: &Mode,
        me: u8,
        slot: Slot,
    ) -> Result<Self, Mem>
        requires me_below { me < p.now.n }
        requires origin_below { slot.origin < p.now.n }
        ensures { IfOk result (λ cast. (tags : Tags) →
            CastStandsAt mode.now E.stands cast (record { numbers = p.now; me = me; slot = slot }) tags []) }
    {
        match route_of(mode, &slot) {
            Route::Values => Ok(Cast::Plain(Rb::new(alloc, p, me, slot)?)),
            Route::Digests => Ok(Cast::Digest(DigestRb::new(alloc, p, me, slot)?)),
            Route::Other => Ok(Cast::Other(E::new(alloc, p, me, slot)?)),
        }
    }

    /// Broadcasts a value.
    pub(crate) fn start<T: Tagger>(
        &mut self,
        alloc: Global,
        t: &T,
        value: &[u8],
        out: &mut Vec<Msg>,
    ) -> Result<(), Mem>
        ensures { (route : Route) → Started (CastStands route E.stands) (rules_by route E.rules) (is_cast_live E.live) (shown_by_cast E.shown)
            (record { me = T.me t.now; tags = T.tags t.now }) self.old self.new value.now out.old.items out.new.items result }
    {
        match self {
            Cast::Plain(cast) => cast.start(alloc, t, value, out),
            Cast::Digest(cast) => cast.start(alloc, t, value, out),
            Cast::Other(cast) => cast.start(alloc, t, value, out),
        }
    }

    /// Takes an item.
    pub(crate) fn take<T: Tagger>(
        &mut self,
        alloc: Global,
        t: &T,
        item: &Item,
        out: &mut Vec<Msg>,
    ) -> Result<Heard, Mem>
        ensures { (route : Route) → Takes (CastStands route E.stands) (rules_by route E.rules) (is_cast_live E.live) (shown_by_cast E.shown)
            (record { me = T.me t.now; tags = T.tags t.now }) self.old self.new item.now out.old.items out.new.items result }
    {
        match self {
            Cast::Plain(cast) => cast.take(alloc, t, item, out),
            Cast::Digest(cast) => cast.take(alloc, t, item, out),
            Cast::Other(cast) => cast.take(alloc, t, item, out),
        }
    }

    /// Whether an item of this slot and broadcast can be taken yet.
    pub(crate) fn ready_for(&self, item: &Item) -> bool
        ensures { result ≡ (shown_by_cast E.shown self.now).ready item.now }
    {
        match self {
            Cast::Plain(cast) => cast.ready_for(item),
            Cast::Digest(cast) => cast.ready_for(item),
            Cast::Other(cast) => cast.ready_for(item),
        }
    }

    /// What is delivered, if anything is.
    pub fn delivered(&self) -> Option<&[u8]>
        ensures { option_copied result ≡ (shown_by_cast E.shown self.now).out }
    {
        match self {
            Cast::Plain(cast) => cast.delivered(),
            Cast::Digest(cast) => cast.delivered(),
            Cast::Other(cast) => cast.delivered(),
        }
    }
}
