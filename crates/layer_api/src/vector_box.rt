//! The trait of a vector consensus: its calls, what they mean, and the laws that each implementation proves.

ghost use Rattle.std.specs.Prelude.{◌≡◌, ℕ, ◌<◌, Bool, true, List, [], IfOk};
ghost use Rattle.std.specs.Option.{option_copied};
ghost use Rattle.layer_api.specs.Words.{Word};
ghost use Rattle.layer_api.specs.Multi.{Desk};
ghost use Rattle.layer_api.specs.Vectors.{VectorRules, VectorLaws, OneVector};
ghost use Rattle.layer_api.specs.VectorCalls.{VectorShown, ShowsVector, VectorProposes, VectorHears};
ghost use Rattle.layer_api.specs.OpeningLaws.{OpensDown};

use ritas_base::{Coin, Mem, Params, Say, Slot};
use std::alloc::Global;

/// One replica's part in one instance of vector consensus.
pub trait VectorBox: Drop + Sized {
    /// The value stands for these words, the newest first, at this desk.
    ghost stands: { Self → Desk → List Word → Type 0 };

    /// What the box means.
    ghost rules: { VectorRules };

    /// No call on it was without memory.
    ghost live: { Self → Bool };

    /// What its getters answer.
    ghost shown: { Self → VectorShown };

    /// The part of replica `me` in the instance of a round, before any word. The one error is want of memory.
    fn new(alloc: Global, p: &Params, me: u8, a: u32) -> Result<Self, Mem>
        requires { me < p.now.n }
        ensures { IfOk result (λ b. (at : Desk) → at.scope.numbers ≡ p.now → at.me ≡ me → at.scope.a ≡ a → at.scope.attempt ≡ 0 → stands b at []) };

    /// Proposes a value of class 2, and appends the broadcasts that this newly starts. It comes once.
    ///
    /// For want of memory `says` is as before, and the value isn't `live`.
    fn propose(&mut self, alloc: Global, value: &[u8], says: &mut Vec<Say>) -> Result<(), Mem>
        ensures { VectorProposes stands rules live shown self.old self.new value.now says.old.items says.new.items result };

    /// Hears what a slot of the instance delivered, and appends the broadcasts that this newly starts. It comes once a
    /// slot, while its items may be taken.
    ///
    /// For want of memory `says` is as before, and the value isn't `live`.
    fn heard<C: Coin>(
        &mut self,
        alloc: Global,
        coin: &C,
        slot: &Slot,
        value: &[u8],
        says: &mut Vec<Say>,
    ) -> Result<(), Mem>
        ensures { VectorHears stands rules live shown (C.bits coin.now) self.old self.new slot.now value.now says.old.items says.new.items result };

    /// Whether items of a slot of the instance may be taken.
    fn is_open(&self, slot: &Slot) -> bool
        ensures rules { (at : Desk) (w : List Word) → stands self.now at w → result ≡ rules.opens at w slot.now }
        ensures shown { result ≡ (shown self.now).opens slot.now };

    /// The vector that is decided, if one is.
    fn decision(&self) -> Option<&[u8]>
        ensures rules { (at : Desk) (w : List Word) → stands self.now at w → option_copied result ≡ rules.decision at w }
        ensures shown { option_copied result ≡ (shown self.now).decision };

    /// The attempt that decided, if one did.
    fn decided_try(&self) -> Option<u8>
        ensures rules { (at : Desk) (w : List Word) → stands self.now at w → result ≡ rules.attempt at w }
        ensures shown { result ≡ (shown self.now).attempt };

    /// Whether the last attempt decided that no vector is.
    fn spent(&self) -> bool
        ensures rules { (at : Desk) (w : List Word) → stands self.now at w → result ≡ rules.spent at w }
        ensures shown { result ≡ (shown self.now).spent };

    /// Whether no call on this value answered want of memory.
    fn live(&self) -> bool
        ensures { result ≡ live self.now };

    /// A value that stands for some words is live, and its getters answer what the rules say.
    ghost shows: { (b : Self) (at : Desk) (w : List Word) → stands b at w → (live b ≡ true) × ShowsVector rules at w (shown b) };

    /// The laws of a single value.
    ghost vector_laws: { VectorLaws rules };

    /// The law of one vector, over every run of correct replicas.
    ghost one_vector: { OneVector rules };

    /// Where a slot opens, each opens that is no later.
    ghost opens_down: { (at : Desk) (w : List Word) → OpensDown (rules.opens at w) };
}
