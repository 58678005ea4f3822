//! How the attempts go on.

ghost use Rattle.std.specs.Prelude.{◌≡◌, ◌<◌, length, is_some, IfOk, OnErr};
ghost use Rattle.layer_api.specs.MultiCalls.{decided_of};
ghost use Rattle.std.specs.Option.{option_flatten};
ghost use Rattle.vector_consensus.specs.Consensus.{is_none};
ghost use Rattle.vector_consensus.specs.Begun.{all_failed, decided_at, is_attempt_due, attempts_progress};
ghost use Rattle.vector_consensus.specs.Going.{AttemptBegins, KeepsAttempts, AttemptsGoOn};

use crate::part::Part;
use crate::proposals::Proposals;
use layer_api::{Decided, MultiBox};
use ritas_base::{Mem, Say};
use std::alloc::Global;

/// How far the attempts have come.
#[derive(Clone, Copy)]
pub(crate) struct Progress {
    /// Whether something was proposed.
    pub(crate) own: bool,
    /// How many attempts began.
    pub(crate) begun: usize,
    /// The attempt that decided a vector.
    pub(crate) decided: Option<usize>,
    /// Whether the last attempt decided that no vector is.
    pub(crate) spent: bool,
}

// Whether it is decided that no value is.
fn is_nothing(decision: Decided<'_>) -> bool
    ensures { result ≡ is_none (decided_of decision.entry) }
{
    matches!(decision, Decided::Nothing)
}

// Whether a value is decided.
fn is_value(decision: Decided<'_>) -> bool
    ensures { result ≡ is_some (option_flatten (decided_of decision.entry)) }
{
    matches!(decision, Decided::Value(_))
}

/// Whether all attempts that began decided that no vector is: those before the last did.
fn all_failed<M: MultiBox>(tries: &[M]) -> bool
    ensures { result ≡ all_failed M.shown tries.now }
{
    match tries.last() {
        Some(last) => is_nothing(last.decision()),
        None => true,
    }
}

/// Which attempt decided a vector: the last, if one did.
fn decided_at<M: MultiBox>(tries: &[M]) -> Option<usize>
    ensures { result ≡ decided_at M.shown tries.now }
{
    match tries.last() {
        Some(last) if is_value(last.decision()) => Some(tries.len() - 1),
        _ => None,
    }
}

/// Whether the next attempt is due: something is proposed, one is left, enough proposals are there, and all attempts that
/// began failed.
fn is_due<M: MultiBox>(part: &Part, own: bool, count: u8, tries: &[M]) -> bool
    ensures { result ≡ is_attempt_due M.shown part.now own count tries.now }
{
    let k = tries.len();
    own && k <= usize::from(part.last)
        && usize::from(part.wait) + k <= usize::from(count)
        && all_failed(tries)
}

/// Begins the next attempt: its box is made, and is proposed the vector of the proposals.
fn begin<M: MultiBox>(
    alloc: Global,
    part: &Part,
    table: &Proposals,
    tries: &mut Vec<M>,
    made: &mut Vec<Say>,
) -> Result<(), Mem>
    requires { length tries.old.items < 256 }
    ensures ok { IfOk result (λ u. AttemptBegins M.stands M.rules part.now table.now tries.old.items tries.new.items made.old.items made.new.items) }
    ensures err { OnErr result (tries.new.items ≡ tries.old.items) }
{
    let vector = table.vector(alloc)?;
    let mut next = M::new(alloc, &part.params, part.me, part.a, tries.len() as u8)?;
    next.propose(alloc, vector.as_slice(), made)?;
    tries.push(next)?;
    Ok(())
}

/// How far the attempts have come.
fn progress_of<M: MultiBox>(part: &Part, own: bool, tries: &[M]) -> Progress
    ensures { result ≡ attempts_progress M.shown part.now own tries.now }
{
    Progress {
        own,
        begun: tries.len(),
        decided: decided_at(tries),
        spent: tries.len() > usize::from(part.last) && all_failed(tries),
    }
}

/// Begins each attempt that is due, in their order, and answers how far they then have come.
pub(crate) fn go_on<M: MultiBox>(
    alloc: Global,
    part: &Part,
    own: bool,
    table: &Proposals,
    tries: &mut Vec<M>,
    made: &mut Vec<Say>,
) -> Result<Progress, Mem>
    ensures ok { IfOk result (λ now. AttemptsGoOn M.stands M.rules part.now own table.now tries.old.items tries.new.items made.old.items made.new.items now) }
    ensures keeps { KeepsAttempts tries.old.items tries.new.items }
{
    let count = table.count();
    while is_due(part, own, count, tries) {
        begin(alloc, part, table, tries, made)?;
    }
    Ok(progress_of(part, own, tries))
}
