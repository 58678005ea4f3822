//! The votes of all steps: a row for each step of what its senders said, and counts of those that are accepted by the votes
//! of the step before.

ghost use Rattle.std.specs.Prelude.{◌≡◌, ℕ, ◌≤◌, ◌<◌, OnOk, OnErr, None, [], length};
ghost use Rattle.ritas_base.specs.Numbers.{IsSession};
ghost use Rattle.layer_api.specs.Binary.{vote_limit};
ghost use Rattle.bracha_validation.specs.Tallies.{vote_count, tally_votes, IsTally};
ghost use Rattle.bracha_validation.specs.Votes.{may_give, step_before};
ghost use Rattle.vote_lanes.specs.Plain.{equal_places};
ghost use Rattle.binary_consensus.specs.Steps.{step_of, accepted};
ghost use Rattle.binary_consensus.specs.Counts.{none, row_votes, row_tally, count_kept, tally_taken, HearsOneVote, HearsByte, row, sender_byte, heards, before_row, IsLine, IsLineBut};

use bracha_validation::{Tally, may_follow, set_of_votes};
use ritas_base::{Mem, Params};
use std::alloc::Global;
use std::marker::Model;
use vote_lanes::count_equal;

const NONE: Tally = Tally {
    zeros: 0,
    ones: 0,
    nones: 0,
};

/// The byte of a sender that wasn't heard.
const UNHEARD: u8 = 255;

/// The votes of one step: what each sender said, and how many votes of each value are accepted.
#[derive(Clone, Copy)]
pub(crate) struct StepVotes {
    // There is a byte for each replica that there may be; those from n on stay `UNHEARD`.
    heard: [u8; 31],
    accepted: Tally,
}

/// The votes heard at the steps of all rounds, in one line. Contracts see the rows of what was heard.
///
/// Whether a vote is accepted depends on its value and on the counts of those accepted at the step before. So one vote more
/// changes the accepted votes of its step and of those above up to the first that stays as it was, and the rows of these
/// alone are counted anew.
#[derive(Drop)]
pub(crate) struct Line {
    params: Params,
    steps: Vec<StepVotes>,
}

impl Model for Line {
    ghost use Rattle.binary_consensus.specs.Counts.{HeardRows, heards, IsLine};

    ghost Value = { HeardRows };

    ghost view = { λ l. record { numbers = l.params; rows = heards l.steps.items } };

    ghost invariant = { λ l. IsLine l.params l.steps.items };
}

impl Line {
    /// Nothing heard.
    pub(crate) fn new(alloc: Global, params: &Params) -> Line
        ensures empty { result ≡ record { numbers = params.now; rows = [] } }
        ensures session { IsSession params.now }
    {
        // It says that these are a session's numbers.
        let _ = params.n();
        Line {
            params: *params,
            steps: Vec::new(alloc),
        }
    }

    /// The numbers of the session.
    pub(crate) fn params(&self) -> Params
        ensures { result ≡ self.now.numbers }
    {
        self.params
    }

    /// The votes that are accepted at a step.
    pub(crate) fn accepted(&self, t: u16) -> Tally
        ensures counted { IsTally result (accepted self.now.numbers (row_votes self.now.rows) t) }
        ensures small { vote_count result ≤ self.now.numbers.n }
    {
        set_of_votes();
        match self.steps.get(usize::from(t)) {
            Some(step) => step.accepted,
            None => NONE,
        }
    }

    /// Hears a vote at a step from an origin that wasn't heard there.
    pub(crate) fn hear(&mut self, t: u16, origin: u8, value: u8) -> Result<(), Mem>
        ensures { OnOk result (origin < self.old.numbers.n → row_votes self.old.rows t origin ≡ None → value < vote_limit (step_of t)
            → HearsOneVote t origin value self.old self.new) }
    {
        let at = usize::from(t);
        make_room(&mut self.steps, at)?;
        hear_at(
            &self.params,
            &mut self.steps,
            at,
            usize::from(origin),
            value,
        );
        Ok(())
    }
}

// Makes room for a step, with no votes there.
fn make_room(steps: &mut Vec<StepVotes>, at: usize) -> Result<(), Mem>
    requires { at ≤ 65535 }
    ensures room { OnOk result (at < length steps.new.items) }
    ensures same { (t : ℕ) → row steps.new.items t ≡ row steps.old.items t }
{
    if at >= steps.len() {
        steps.resize(
            at + 1,
            StepVotes {
                heard: [UNHEARD; 31],
                accepted: NONE,
            },
        )?;
    }
    Ok(())
}

// The votes of a step are below this.
fn limit(t: usize) -> u8
    ensures { result ≡ vote_limit (step_of t) }
{
    if t % 3 == 2 { 3 } else { 2 }
}

// Hears a vote at a step from an origin that wasn't heard there.
fn hear_at(p: &Params, steps: &mut [StepVotes], at: usize, origin: usize, value: u8)
    requires line { IsLine p.now steps.old }
    requires inside { at < length steps.old }
    ensures line { IsLine p.now steps.new }
    ensures heard { origin < p.now.n → sender_byte steps.old at origin ≡ 255 → value < vote_limit (step_of at)
        → HearsByte at origin value steps.old steps.new }
{
    let n = usize::from(p.n());
    if value >= limit(at) || origin >= n || steps[at].heard[origin] != UNHEARD {
        return;
    }
    steps[at].heard[origin] = value;
    settle(p, steps, at);
}

// How many votes of a value a row has.
fn count(row: &[u8], value: u8) -> u8
    requires { length row.now ≤ 31 }
    ensures { result ≡ equal_places row.now value }
{
    count_equal(row, value) as u8
}

// So many votes of a value, where it may follow from the votes before.
fn kept(p: &Params, step: u8, value: u8, row: &[u8], before: &Tally) -> u8
    requires step { (1 ≤ step) × (step ≤ 3) }
    requires bits { step ≡ 2 → before.now.nones ≡ 0 }
    requires few { vote_count before.now ≤ p.now.n }
    requires short { length row.now ≤ 31 }
    ensures { result ≡ count_kept (may_give p.now (step_before step) value (tally_votes before.now)) (equal_places row.now value) }
{
    if may_follow(p, step, value, before) {
        count(row, value)
    } else {
        0
    }
}

// The votes that are accepted at a step, of those heard there.
fn taken(p: &Params, t: usize, before: &Tally, row: &[u8]) -> Tally
    requires bits { step_of t ≡ 2 → before.now.nones ≡ 0 }
    requires few { vote_count before.now ≤ p.now.n }
    requires short { length row.now ≤ 31 }
    ensures { result ≡ tally_taken p.now t before.now (row_tally row.now) }
{
    if t == 0 {
        return Tally {
            zeros: count(row, 0),
            ones: count(row, 1),
            nones: count(row, 2),
        };
    }
    let step = (t % 3) as u8 + 1;
    Tally {
        zeros: kept(p, step, 0, row, before),
        ones: kept(p, step, 1, row, before),
        nones: kept(p, step, 2, row, before),
    }
}

// The votes that are accepted before a step.
fn votes_before(steps: &[StepVotes], t: usize) -> Tally
    requires { t ≤ length steps.now }
    ensures { result ≡ before_row steps.now t }
{
    if t == 0 { NONE } else { steps[t - 1].accepted }
}

// Brings the accepted votes up to date, from a step whose votes changed up to the first that stays as it was.
fn settle(p: &Params, steps: &mut [StepVotes], from: usize)
    requires { IsLineBut p.now from steps.old }
    ensures line { IsLine p.now steps.new }
    ensures same { heards steps.new ≡ heards steps.old }
{
    let n = usize::from(p.n());
    for t in from..steps.len() {
        let accepted = taken(p, t, &votes_before(steps, t), &steps[t].heard[..n]);
        if accepted == steps[t].accepted {
            return;
        }
        steps[t].accepted = accepted;
    }
}
