//! What follows where a proposal or a VECT is there: the VECT, the bit, and the decision.

ghost use Rattle.std.specs.Prelude.{◌≡◌, ◌||◌, IfOk};
ghost use Rattle.multivalued.specs.Settling.{Decides, BoxSettles};

use crate::part::Part;
use crate::table::Table;
use crate::telling::{ask, is_due, tell};
use layer_api::BinaryBox;
use ritas_base::{Mem, Say};
use std::alloc::Global;

/// What is decided: nothing yet, that no value is, or the value of the entry there.
#[derive(Clone, Copy)]
pub(crate) enum Decision {
    NotYet,
    Nothing,
    At(usize),
}

/// How far an instance has come: whether it proposed, said its VECT and proposed the bit; the round of the binary
/// instance; and what is decided.
#[derive(Clone, Copy)]
pub(crate) struct Progress {
    pub(crate) own: bool,
    pub(crate) told: bool,
    pub(crate) asked: bool,
    pub(crate) round: u8,
    pub(crate) decided: Decision,
}

/// What is decided now. The VECTs are looked at only where 1 is decided, and no value is yet.
pub(crate) fn decide(old: Decision, bit: Option<bool>, table: &Table) -> Decision
    ensures { Decides table.now old bit result }
{
    match (old, bit) {
        (Decision::NotYet, Some(true)) => match table.supported() {
            Some(at) => Decision::At(at),
            None => Decision::NotYet,
        },
        (Decision::NotYet, Some(false)) => Decision::Nothing,
        _ => old,
    }
}

fn or(a: bool, b: bool) -> bool
    ensures { result ≡ (a || b) }
{
    a || b
}

/// Says the VECT and proposes the bit, where they are due, in this order, and answers how far the instance has come.
pub(crate) fn settle<B: BinaryBox>(
    alloc: Global,
    part: &Part,
    old: Progress,
    table: &Table,
    inner: &mut B,
    made: &mut Vec<Say>,
) -> Result<Progress, Mem>
    ensures { IfOk result (λ next. BoxSettles B.stands B.rules part.now old table.now inner.old inner.new made.old.items made.new.items next) }
{
    let tells = is_due(old.own, old.told, part.wait, table.proposals());
    tell(alloc, tells, part.slot(4), table, made)?;
    let told = or(old.told, tells);
    let asks = is_due(told, old.asked, part.wait, table.valids());
    ask(alloc, asks, table, inner, made)?;
    Ok(Progress {
        own: old.own,
        told,
        asked: or(old.asked, asks),
        round: inner.round(),
        decided: decide(old.decided, inner.decision(), table),
    })
}
