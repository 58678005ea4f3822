//! The laws of commands, of the identifier log and of a single service, for the layers above.

ghost use Rattle.std.specs.Prelude.{◌≡◌, ℕ, ◌+◌, ◌<◌, List, [], ◌∷◌, true, false};
ghost use Rattle.ritas_base.specs.declared.item.Say.{Say};
ghost use Rattle.layer_api.specs.Service.{Seat, AreProper, AreDistinct, WordLaws};
ghost use Rattle.layer_api.specs.Words.{Word, Ask, is_heard, asked};
ghost use Rattle.layer_api.specs.OneLog.{OneLog};
ghost use Rattle.layer_api.specs.Windows.{command_window};
ghost use Rattle.layer_api.specs.Vectors.{VectorRules, VectorLaws, OneVector};
ghost use Rattle.ritas_base.specs.Slots.{command_slot};
ghost use Rattle.atomic_bcast.specs.Commands.{base_of, commands};
ghost use Rattle.atomic_bcast.specs.VectorRounds.{atomic, by_vectors};
ghost use Rattle.ordered_rounds.specs.RoundsAgree.{RoundDecisionsAgree};
ghost use Rattle.ordered_rounds.specs.Appended.{AppendsProposed};

/// The law of what is said: to an input the service says that input, alone, at the command slot of the next number.
///
/// It does nothing: its contract is the law.
pub fn says_commands()
    ensures { (seat : Seat) (w : List Word) (v : List ℕ) → AreProper commands seat (Ask v ∷ w)
        → commands.says seat w (Ask v) ≡ record { slot = command_slot seat.me (asked w); value = v } ∷ [] }
{}

/// The law of the base: it is the least number of the origin that was not heard, and what was heard lies less than
/// the window of commands above it.
///
/// It does nothing: its contract is the law.
pub fn base_is_least()
    ensures missing { (w : List Word) (o : ℕ) → is_heard w (command_slot o (base_of w o)) ≡ false }
    ensures below { (w : List Word) (o k : ℕ) → k < base_of w o → is_heard w (command_slot o k) ≡ true }
    ensures near { (seat : Seat) (w : List Word) (o k : ℕ) → AreProper commands seat w
        → is_heard w (command_slot o k) ≡ true → k < base_of w o + command_window }
{}

/// The law of atomic broadcast, over any vector consensus that keeps its laws: over every run of correct replicas, of
/// two identifier logs one is a part of the other, each identifier stands in a log once, vectors of one round are equal,
/// and each identifier that a round appends was in the list that some correct replica proposed in the round. What the
/// instances inside decided was proposed to them by correct replicas, and each identifier of a log was appended
/// by a round.
///
/// It does nothing: its contract is the law.
pub fn one_log()
    ensures log { (v : VectorRules) → VectorLaws v → OneVector v → OneLog (atomic v) }
    ensures once { (v : VectorRules) (seat : Seat) (w : List Word) → AreDistinct ((atomic v).done seat w) }
    ensures vectors { (v : VectorRules) → VectorLaws v → OneVector v → RoundDecisionsAgree (by_vectors v) }
    ensures proposed { (v : VectorRules) → VectorLaws v → OneVector v → AppendsProposed (by_vectors v) }
{}

/// The laws of a single value of atomic broadcast: what is said is new, in the grammar, and at command slots the
/// inputs; the windows never go back; the identifier log grows at its end alone, by commands that were delivered; what
/// is open stays open while its window isn't past; and decisions stay.
///
/// It does nothing: its contract is the law.
pub fn atomic_laws()
    ensures { (v : VectorRules) → VectorLaws v → WordLaws (atomic v) }
{}
