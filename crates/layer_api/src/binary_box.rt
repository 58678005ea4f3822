//! The trait of a binary consensus: its calls, what they mean, and the laws that each implementation proves.

ghost use Rattle.std.specs.Prelude.{◌≡◌, ℕ, ◌<◌, Bool, true, List, [], IfOk};
ghost use Rattle.layer_api.specs.Words.{Word};
ghost use Rattle.layer_api.specs.Binary.{BinaryRules, Bench, BoxLaws, OneBit};
ghost use Rattle.layer_api.specs.BinaryCalls.{BoxShown, ShowsBox, Proposes, HearsVote};

use ritas_base::{Coin, Mem, Params, Say, Slot};
use std::alloc::Global;

/// One replica's part in one instance of binary consensus, by rounds of three broadcast steps.
pub trait BinaryBox: Drop + Sized {
    /// The value stands for these words, the newest first, at this bench.
    ghost stands: { Self → Bench → List Word → Type 0 };

    /// What the box means.
    ghost rules: { BinaryRules };

    /// No call on it was without memory.
    ghost live: { Self → Bool };

    /// What its getters answer.
    ghost shown: { Self → BoxShown };

    /// The part of replica `me` in the instance of a round and an attempt, before any word. The one error is want of
    /// memory.
    fn new(alloc: Global, p: &Params, me: u8, a: u32, attempt: u8) -> Result<Self, Mem>
        requires { me < p.now.n }
        ensures { IfOk result (λ b. (at : Bench) → at.numbers ≡ p.now → at.me ≡ me → at.a ≡ a → at.attempt ≡ attempt → stands b at []) };

    /// Proposes a bit, and appends the broadcasts that this newly starts. It comes once.
    ///
    /// For want of memory `says` is as before, and the value isn't `live`.
    fn propose(&mut self, alloc: Global, bit: bool, says: &mut Vec<Say>) -> Result<(), Mem>
        ensures { Proposes stands rules live shown self.old self.new bit says.old.items says.new.items result };

    /// Hears what a slot of a step delivered, after the proposal, and appends the broadcasts that this newly starts. It
    /// comes once a slot, at most one round ahead of the greatest that was said.
    ///
    /// For want of memory `says` is as before, and the value isn't `live`.
    fn heard<C: Coin>(
        &mut self,
        alloc: Global,
        coin: &C,
        slot: &Slot,
        value: u8,
        says: &mut Vec<Say>,
    ) -> Result<(), Mem>
        ensures { HearsVote stands rules live shown (C.bits coin.now) self.old self.new slot.now value says.old.items says.new.items result };

    /// The greatest round whose first step was said; 0 before the proposal.
    fn round(&self) -> u8
        ensures rules { (at : Bench) (w : List Word) → stands self.now at w → result ≡ rules.round at w }
        ensures shown { result ≡ (shown self.now).round };

    /// The bit that is decided, if one is.
    fn decision(&self) -> Option<bool>
        ensures rules { (at : Bench) (w : List Word) → stands self.now at w → result ≡ rules.decision at w }
        ensures shown { result ≡ (shown self.now).decision };

    /// Whether the last round is over without a decision.
    fn rounds_over(&self) -> bool
        ensures rules { (at : Bench) (w : List Word) → stands self.now at w → result ≡ rules.over at w }
        ensures shown { result ≡ (shown self.now).over };

    /// Whether no call on this value answered want of memory.
    fn live(&self) -> bool
        ensures { result ≡ live self.now };

    /// A value that stands for some words is live, and its getters answer what the rules say.
    ghost shows: { (b : Self) (at : Bench) (w : List Word) → stands b at w → (live b ≡ true) × ShowsBox rules at w (shown b) };

    /// The laws of a single value.
    ghost box_laws: { BoxLaws rules };

    /// The law of one bit, over every run of correct replicas.
    ghost one_bit: { OneBit rules };
}
