//! Putting messages in order, and keeping those for oneself in the inbox.

ghost use Rattle.std.specs.Prelude.{◌≡◌, ◌++◌, [], ◌∷◌, false, IsOk, OnOk, OnErr, IfOk};
ghost use Rattle.ritas_base.specs.Messages.{reaches};
ghost use Rattle.ritas_core.specs.Order.{is_before, inserted, ordered, own_items, Extends};

use ritas_base::{Item, Mem, Msg, To};
use std::alloc::Global;
use std::collections::VecDeque;

/// Whether the message comes before another: at an earlier slot, or at its slot of an earlier kind, or then for an
/// earlier receiver.
fn comes_before(m: &Msg, other: &Msg) -> bool
    ensures { result ≡ is_before m.now other.now }
{
    (m.slot, m.kind, m.to) < (other.slot, other.kind, other.to)
}

/// Whether a message for these receivers comes to a replica.
fn reaches(to: To, me: u8) -> bool
    ensures { result ≡ reaches to me }
{
    match to {
        To::All => true,
        To::One(k) => k == me,
    }
}

/// The item that comes to oneself goes to the back of the inbox.
fn keep_one(alloc: Global, me: u8, m: &Msg, inbox: &mut VecDeque<Item>) -> Result<(), Mem>
    ensures ok { OnOk result (inbox.new.items ≡ inbox.old.items ++ own_items me (m.now ∷ [])) }
    ensures err { OnErr result (inbox.new.items ≡ inbox.old.items) }
    ensures spared { reaches m.now.to me ≡ false → IsOk result }
{
    if reaches(m.to, me) {
        let item = m.to_item(alloc, me)?;
        inbox.push_back(item)?;
    }
    Ok(())
}

/// The items that come to oneself go to the back of the inbox; for want of memory only some of them.
pub(crate) fn keep_own(
    alloc: Global,
    me: u8,
    sent: &[Msg],
    inbox: &mut VecDeque<Item>,
) -> Result<(), Mem>
    ensures ok { OnOk result (inbox.new.items ≡ inbox.old.items ++ own_items me sent.now) }
    ensures err { OnErr result (Extends inbox.old.items inbox.new.items) }
{
    for m in sent {
        keep_one(alloc, me, m, inbox)?;
    }
    Ok(())
}

/// Puts a message behind those that it isn't before.
fn put_in(sorted: &mut Vec<Msg>, m: Msg) -> Result<(), Mem>
    ensures { OnOk result (sorted.new.items ≡ inserted sorted.old.items m) }
{
    let mut at = 0;
    while at < sorted.len() && !comes_before(&m, &sorted[at]) {
        at += 1;
    }
    sorted.insert(at, m)?;
    Ok(())
}

/// Puts messages in order. A call makes few of them.
#[tactic(auto, unfolding(crate::specs::Order::ordered))]
pub(crate) fn in_order(alloc: Global, made: Vec<Msg>) -> Result<Vec<Msg>, Mem>
    ensures { IfOk result (λ sorted. sorted.items ≡ ordered made.items) }
{
    let mut sorted = Vec::with_capacity(alloc, made.len())?;
    for m in made {
        put_in(&mut sorted, m)?;
    }
    Ok(sorted)
}
