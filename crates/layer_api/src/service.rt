//! The trait of a root service: its calls, what they mean, and the laws that each implementation proves.

ghost use Rattle.std.specs.Prelude.{◌≡◌, ℕ, ◌<◌, Bool, true, List, [], IfOk, reverse, option_map};
ghost use Rattle.ritas_base.specs.declared.id.Id.{Id};
ghost use Rattle.layer_api.specs.Service.{ServiceRules, Seat, WordLaws};
ghost use Rattle.layer_api.specs.Words.{Word};
ghost use Rattle.layer_api.specs.ServiceCalls.{Inputs, Heeds, ServiceShown, Shows, ending_of};
ghost use Rattle.layer_api.specs.OneLog.{OneLog};
ghost use Rattle.layer_api.specs.OpeningLaws.{OpensDown};

use crate::outcome::Outcome;
use ritas_base::{Coin, Id, Mem, Mode, Params, Say, Slot};
use std::alloc::Global;

/// A root service over broadcasts: it is told inputs and what slots delivered, and says what to broadcast.
pub trait Service: Drop + Sized {
    /// The value stands for these words, the newest first, at this seat.
    ghost stands: { Self → Seat → List Word → Type 0 };

    /// What the service means.
    ghost rules: { ServiceRules };

    /// No call on it was without memory.
    ghost live: { Self → Bool };

    /// What its getters answer.
    ghost shown: { Self → ServiceShown };

    /// Whether the type serves this root service.
    fn serves(root: u8) -> bool
        ensures { result ≡ rules.serves root };

    /// The service of replica `me` in a session of this mode, before any word. The one error is want of memory.
    fn new(alloc: Global, p: &Params, mode: &Mode, me: u8) -> Result<Self, Mem>
        requires { me < p.now.n }
        ensures { IfOk result (λ s. (seat : Seat) → seat.numbers ≡ p.now → seat.mode ≡ mode.now → seat.me ≡ me
            → stands s seat []) };

    /// Takes an input, and appends the broadcasts that it newly starts.
    ///
    /// For want of memory `says` is as before, and the value isn't `live`.
    fn input(&mut self, alloc: Global, value: &[u8], says: &mut Vec<Say>) -> Result<(), Mem>
        ensures { Inputs stands rules live shown self.old self.new value.now says.old.items says.new.items result };

    /// Hears what a slot delivered, and appends the broadcasts that this newly starts. It comes once a slot.
    ///
    /// For want of memory `says` is as before, and the value isn't `live`.
    fn heard<C: Coin>(
        &mut self,
        alloc: Global,
        coin: &C,
        slot: &Slot,
        value: &[u8],
        says: &mut Vec<Say>,
    ) -> Result<(), Mem>
        ensures { Heeds stands rules live shown (C.bits coin.now) self.old self.new slot.now value.now says.old.items says.new.items result };

    /// Whether items of a slot inside the window may be taken.
    fn is_open(&self, slot: &Slot) -> bool
        ensures rules { (seat : Seat) (w : List Word) → stands self.now seat w → result ≡ rules.opens seat w slot.now }
        ensures shown { result ≡ (shown self.now).opens slot.now };

    /// How many rounds are complete.
    fn completed(&self) -> u32
        ensures rules { (seat : Seat) (w : List Word) → stands self.now seat w → result ≡ rules.completed seat w }
        ensures shown { result ≡ (shown self.now).completed };

    /// The least command number of an origin that isn't finished.
    fn base(&self, origin: u8) -> u32
        ensures rules { (seat : Seat) (w : List Word) → stands self.now seat w → origin < seat.numbers.n → result ≡ rules.base seat w origin }
        ensures shown { result ≡ (shown self.now).base origin };

    /// The number that the next input gets.
    fn next_number(&self) -> u32
        ensures rules { (seat : Seat) (w : List Word) → stands self.now seat w → result ≡ rules.next_number seat w }
        ensures shown { result ≡ (shown self.now).next_number };

    /// Whether the one input of a root service with one instance is there.
    fn given(&self) -> bool
        ensures rules { (seat : Seat) (w : List Word) → stands self.now seat w → result ≡ rules.given seat w }
        ensures shown { result ≡ (shown self.now).given };

    /// The identifier log, the oldest first.
    fn done(&self) -> &[Id]
        ensures rules { (seat : Seat) (w : List Word) → stands self.now seat w → result.now ≡ reverse (rules.done seat w) }
        ensures shown { result.now ≡ reverse (shown self.now).done };

    /// What became of the one instance.
    fn outcome(&self) -> Outcome<'_>
        ensures rules { (seat : Seat) (w : List Word) → stands self.now seat w → ending_of result ≡ rules.outcome seat w }
        ensures shown { ending_of result ≡ (shown self.now).outcome };

    /// The last vector that is decided: its round, the attempt that decided it, and its value.
    fn last_vector(&self) -> Option<(u32, u8, &[u8])>
        ensures rules { (seat : Seat) (w : List Word) → stands self.now seat w → option_map (λ x. record { round = x.0; attempt = x.1; value = x.2.now }) result ≡ rules.last seat w }
        ensures shown { option_map (λ x. record { round = x.0; attempt = x.1; value = x.2.now }) result ≡ (shown self.now).last };

    /// Whether no call on this value answered want of memory.
    fn live(&self) -> bool
        ensures { result ≡ live self.now };

    /// A value that stands for some words is live.
    ghost lives: { (s : Self) (seat : Seat) (w : List Word) → stands s seat w → live s ≡ true };

    /// And its getters answer what the rules say.
    ghost shows: { (s : Self) (seat : Seat) (w : List Word) → stands s seat w → Shows rules seat w (shown s) };

    /// The laws of a single value.
    ghost word_laws: { WordLaws rules };

    /// The law of one log, over every run of correct replicas.
    ghost one_log: { OneLog rules };

    /// Where a slot opens, each opens that is no later.
    ghost opens_down: { (seat : Seat) (w : List Word) → OpensDown (rules.opens seat w) };
}
