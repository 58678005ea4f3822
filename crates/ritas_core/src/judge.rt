//! What is done with an item, by the checks in their order: it is refused, repeats another, is held, or is taken.

ghost use Rattle.std.specs.Prelude.{◌≡◌, ◌<◌, false};
ghost use Rattle.ritas_base.specs.declared.item.Kind.TheVariants.{Column};
ghost use Rattle.ritas_base.specs.Messages.{kind_eq};
ghost use Rattle.layer_api.specs.Broadcast.{is_of_origin, is_for_origin};
ghost use Rattle.ritas_core.specs.declared.verdict.Verdict.TheVariants.{Hold};
ghost use Rattle.ritas_core.specs.Parts.{Parts};
ghost use Rattle.ritas_core.specs.Stands.{meaning, LayersStand};
ghost use Rattle.ritas_core.specs.LayerCalls.{is_let_in};
ghost use Rattle.ritas_core.specs.Judging.{misdirection, inside_verdict, judged_in};

use crate::fault::CoreFault;
use crate::layers::Layers;
use crate::limits::{is_behind, is_beyond};
use crate::verdict::Verdict;
use layer_api::{Broadcast, Service};
use ritas_base::{Coin, Item, Kind, Tagger};

/// Whether the slot's origin alone may send the kind.
fn is_of_origin(kind: Kind) -> bool
    ensures { result ≡ is_of_origin kind }
{
    matches!(kind, Kind::Init | Kind::Send | Kind::Column)
}

/// Whether the kind is for the slot's origin alone.
fn is_for_origin(kind: Kind) -> bool
    ensures { result ≡ is_for_origin kind }
{
    matches!(kind, Kind::Hashes)
}

/// Why the sender or this replica isn't one that the item's kind has.
fn misdirection(me: u8, item: &Item) -> Option<CoreFault>
    ensures { result ≡ misdirection me item.now }
{
    if is_of_origin(item.kind) && item.from != item.slot.origin {
        return Some(CoreFault::NotOrigin);
    }
    if is_for_origin(item.kind) && me != item.slot.origin {
        return Some(CoreFault::NotForMe);
    }
    None
}

/// What is done with an item inside its window.
fn judge_inside(is_let_in: bool, is_kept: bool, item: &Item) -> Verdict
    ensures result { result ≡ inside_verdict is_let_in (kind_eq item.now.kind Column) is_kept }
    ensures fresh { result ≡ Hold → is_kept ≡ false }
{
    if is_kept && !(is_let_in && item.kind == Kind::Column) {
        return Verdict::Again;
    }
    if is_let_in {
        Verdict::Take
    } else {
        Verdict::Hold
    }
}

/// What is done with an item: `Take` where it is open, whether or not it repeats one that its slot took, and `Hold`
/// where it isn't open and not held yet, whether or not there is room for it.
pub(crate) fn judge<S: Service, E: Broadcast, C: Coin + Drop, T: Tagger + Drop>(
    layers: &Layers<S, E, C, T>,
    is_kept: bool,
    item: &Item,
) -> Verdict
    ensures result { let m = meaning S.stands S.rules S.shown E.stands E.rules E.shown C.bits T.me T.tags in
        (p : Parts) → LayersStand m layers.now p → item.now.slot.origin < layers.now.params.n
        → result ≡ judged_in m layers.now p is_kept item.now }
    ensures fresh { result ≡ Hold → is_kept ≡ false }
{
    if let Some(fault) = misdirection(layers.me, item) {
        return Verdict::Refuse(fault);
    }
    let mark = layers.mark(&item.slot);
    if is_behind(layers.mode.version, &item.slot, mark) {
        return Verdict::Refuse(CoreFault::Past(mark));
    }
    if is_beyond(&item.slot, mark) {
        return Verdict::Refuse(CoreFault::Ahead(mark));
    }
    judge_inside(layers.lets_in(item), is_kept, item)
}
