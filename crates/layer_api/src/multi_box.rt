//! The trait of a multi-valued consensus: its calls, what they mean, and the laws that each implementation proves.

ghost use Rattle.std.specs.Prelude.{◌≡◌, ℕ, ◌<◌, Bool, true, List, [], IfOk};
ghost use Rattle.layer_api.specs.Words.{Word};
ghost use Rattle.layer_api.specs.Multi.{MultiRules, Desk, MultiLaws, OneDecision};
ghost use Rattle.layer_api.specs.MultiCalls.{MultiShown, ShowsMulti, MultiProposes, MultiHears, decided_of};
ghost use Rattle.layer_api.specs.OpeningLaws.{OpensDown};

use crate::decided::Decided;
use ritas_base::{Coin, Mem, Params, Say, Slot};
use std::alloc::Global;

/// One replica's part in one instance of multi-valued consensus.
pub trait MultiBox: Drop + Sized {
    /// The value stands for these words, the newest first, at this desk.
    ghost stands: { Self → Desk → List Word → Type 0 };

    /// What the box means.
    ghost rules: { MultiRules };

    /// No call on it was without memory.
    ghost live: { Self → Bool };

    /// What its getters answer.
    ghost shown: { Self → MultiShown };

    /// The part of replica `me` in the instance of a round and an attempt, before any word. The one error is want of
    /// memory.
    fn new(alloc: Global, p: &Params, me: u8, a: u32, attempt: u8) -> Result<Self, Mem>
        requires { me < p.now.n }
        ensures { IfOk result (λ b. (at : Desk) → at.scope.numbers ≡ p.now → at.me ≡ me → at.scope.a ≡ a → at.scope.attempt ≡ attempt → stands b at []) };

    /// Proposes a value of class 3, and appends the broadcasts that this newly starts. It comes once.
    ///
    /// For want of memory `says` is as before, and the value isn't `live`.
    fn propose(&mut self, alloc: Global, value: &[u8], says: &mut Vec<Say>) -> Result<(), Mem>
        ensures { MultiProposes stands rules live shown self.old self.new value.now says.old.items says.new.items result };

    /// Hears what a slot of the instance delivered, and appends the broadcasts that this newly starts. It comes once a
    /// slot, while its items may be taken.
    ///
    /// For want of memory `says` is as before, and the value isn't `live`.
    fn heard<C: Coin>(
        &mut self,
        alloc: Global,
        coin: &C,
        slot: &Slot,
        value: &[u8],
        says: &mut Vec<Say>,
    ) -> Result<(), Mem>
        ensures { MultiHears stands rules live shown (C.bits coin.now) self.old self.new slot.now value.now says.old.items says.new.items result };

    /// Whether items of a slot of the instance may be taken.
    fn is_open(&self, slot: &Slot) -> bool
        ensures rules { (at : Desk) (w : List Word) → stands self.now at w → result ≡ rules.opens at w slot.now }
        ensures shown { result ≡ (shown self.now).opens slot.now };

    /// What is decided.
    fn decision(&self) -> Decided<'_>
        ensures rules { (at : Desk) (w : List Word) → stands self.now at w → decided_of result ≡ rules.decision at w }
        ensures shown { decided_of result ≡ (shown self.now).decision };

    /// Whether no call on this value answered want of memory.
    fn live(&self) -> bool
        ensures { result ≡ live self.now };

    /// A value that stands for some words is live, and its getters answer what the rules say.
    ghost shows: { (b : Self) (at : Desk) (w : List Word) → stands b at w → (live b ≡ true) × ShowsMulti rules at w (shown b) };

    /// The laws of a single value.
    ghost multi_laws: { MultiLaws rules };

    /// The law of one decision, over every run of correct replicas.
    ghost one_decision: { OneDecision rules };

    /// Where a slot opens, each opens that is no later.
    ghost opens_down: { (at : Desk) (w : List Word) → OpensDown (rules.opens at w) };
}
