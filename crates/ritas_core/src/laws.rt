//! The laws of a core's history and of its checks, for the layers above.

ghost use Rattle.std.specs.Prelude.{◌≡◌, ℕ, ◌+◌, ◌<◌, true, not, ◌&&◌, List, ◌∷◌, Some, None};
ghost use Rattle.std.specs.Option.{is_some};
ghost use Rattle.ritas_base.specs.declared.slot.Slot.{Slot};
ghost use Rattle.ritas_base.specs.declared.mode.Mode.{Mode};
ghost use Rattle.ritas_base.specs.Numbers.{Numbers};
ghost use Rattle.ritas_base.specs.declared.item.Msg.{Msg};
ghost use Rattle.ritas_base.specs.Slots.{slot_fault};
ghost use Rattle.ritas_base.specs.Messages.{has};
ghost use Rattle.layer_api.specs.Broadcast.{BroadcastRules};
ghost use Rattle.layer_api.specs.Runs.{Has};
ghost use Rattle.layer_api.specs.Windows.{command_window};
ghost use Rattle.layer_api.specs.OneValue.{IsReceiver, IsOnce};
ghost use Rattle.ritas_core.specs.Rules.{Rules, seat_of, out_at_slot, casts_by, FormsFit, HasForm};
ghost use Rattle.ritas_base.specs.Tags.{Tags, HasDigests};
ghost use Rattle.ritas_core.specs.Parts.{Entry, parts};
ghost use Rattle.ritas_core.specs.Order.{new_messages};
ghost use Rattle.ritas_core.specs.Checks.{IsHistory};
ghost use Rattle.ritas_core.specs.Laws.{is_due, AreMessagesInOrder};
ghost use Rattle.ritas_core.specs.Laws.{StartsWhereSaid, StartsWhatWasSaid, HearsWhereDelivered, WordsAreProper, CallsAreTaken, CallsAreFirst, CallsAreGood};
ghost use Rattle.ritas_core.specs.Laws.{NewIsDue, DueStays, NewIsGood, MayStartGiven, MayHearTaken, MayStartHeard, TakenIsTakable, GivenIsGivable, FoundIsRepeat};
ghost use Rattle.ritas_core.specs.CoreOf.{IsCoreOf};

use layer_api::{Broadcast, Service};

/// What goes out by an entry of a core's history is what is due after it, at any slot, and was not due before. It goes
/// out in the order of slot, kind and receiver, each message once, and to all or to a replica.
///
/// It does nothing: its contract is the law.
pub fn new_is_due<S: Service, E: Broadcast>()
    ensures due { (r : Rules) → IsCoreOf S.rules E.rules r → (h : List Entry) (e : Entry) (m : Msg) →
        has (new_messages r h e) m ≡ (is_due r (parts r (e ∷ h)) m && not (is_due r (parts r h) m)) }
    ensures order { (r : Rules) (h : List Entry) (e : Entry) → AreMessagesInOrder (new_messages r h e) }
    ensures once { (r : Rules) → IsCoreOf S.rules E.rules r → (h : List Entry) (e : Entry) → IsHistory r (e ∷ h) →
        IsOnce (new_messages r h e) }
    ensures receiver { (r : Rules) → IsCoreOf S.rules E.rules r → (h : List Entry) (e : Entry) → IsHistory r (e ∷ h) → (m : Msg) →
        Has (new_messages r h e) m → IsReceiver r.casts.numbers.n m.to }
{}

/// A slot that has delivered is in the grammar. A command slot that has delivered lies below the end of its origin's
/// window, as the service has it now.
///
/// It does nothing: its contract is the law.
pub fn delivered_within<S: Service, E: Broadcast>()
    ensures grammar { (r : Rules) → IsCoreOf S.rules E.rules r → (h : List Entry) → IsHistory r h → (s : Slot) →
        is_some (out_at_slot r.casts s ((parts r h).calls s)) ≡ true → slot_fault r.casts.numbers r.mode s ≡ None }
    ensures window { (r : Rules) → IsCoreOf S.rules E.rules r → (h : List Entry) → IsHistory r h → (s : Slot) → s.class ≡ 1 →
        is_some (out_at_slot r.casts s ((parts r h).calls s)) ≡ true → s.a < r.service.base (seat_of r) (parts r h).words s.origin + command_window }
{}

/// Every entry of a history, where it met its own conditions, meets those of the layers, whatever they mean, as long as
/// they keep their laws.
///
/// A broadcast was started exactly where the service said its slot, with the value said there, and a slot was heard
/// exactly where it has delivered. Each word to the service and each call on a broadcast met its conditions and is in the
/// grammar, and so is each message that goes out. No item repeats an earlier one, and what is due stays due.
///
/// It does nothing: its contract is the law.
pub fn history_laws()
    ensures starts { StartsWhereSaid }
    ensures started { StartsWhatWasSaid }
    ensures heard { HearsWhereDelivered }
    ensures proper { WordsAreProper }
    ensures taken { CallsAreTaken }
    ensures first { CallsAreFirst }
    ensures calls { CallsAreGood }
    ensures due { NewIsDue }
    ensures due_stays { DueStays }
    ensures sent { NewIsGood }
{}

/// What an entry makes the layers do may be done: what the service newly says may be started, and it may hear what an
/// item's slot newly delivers.
///
/// It does nothing: its contract is the law.
pub fn entry_laws()
    ensures given { MayStartGiven }
    ensures hears { MayHearTaken }
    ensures heard { MayStartHeard }
{}

/// What passes all checks meets the conditions of an entry. What a core looks up of an item, which is its broadcast only
/// where it is open, and else the held items alone, tells whether it repeats another.
///
/// It does nothing: its contract is the law.
pub fn verdict_laws()
    ensures takable { TakenIsTakable }
    ensures givable { GivenIsGivable }
    ensures repeats { FoundIsRepeat }
{}

/// The broadcast of each slot has the form that the grammar gives to it, where the other broadcast has the form
/// of the mode.
///
/// It does nothing: its contract is the law.
pub fn kinds_fit()
    ensures { (numbers : Numbers) (mode : Mode) (me : ℕ) (tags : Tags) (other : BroadcastRules) → HasForm mode other → HasDigests tags →
        FormsFit mode (casts_by mode numbers me tags other) }
{}
