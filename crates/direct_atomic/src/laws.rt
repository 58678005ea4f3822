//! The laws of the direct atomic broadcast.

ghost use Rattle.std.specs.Prelude.{◌≡◌, ℕ, List, None};
ghost use Rattle.layer_api.specs.Multi.{MultiRules, MultiLaws, OneDecision};
ghost use Rattle.layer_api.specs.Words.{Word};
ghost use Rattle.layer_api.specs.Service.{Seat, AreDistinct, Undecided, WordLaws};
ghost use Rattle.layer_api.specs.OneLog.{OneLog};
ghost use Rattle.ordered_rounds.specs.RoundsAgree.{RoundDecisionsAgree};
ghost use Rattle.ordered_rounds.specs.Appended.{AppendsProposed};
ghost use Rattle.direct_atomic.specs.Lists.{direct, lists};

/// The law of the direct atomic broadcast, over any multi-valued consensus that keeps its laws.
///
/// Over every run of correct replicas, of two identifier logs one is a part of the other, each
/// identifier stands in a log once, and what two of them decided in a round or in an instance is
/// equal. Each identifier that a round appends was in the list that some correct replica broadcast
/// in the round. What the instances inside decided was proposed to them by correct replicas, and
/// each identifier of a log was appended by a round.
///
/// It does nothing: its contract is the law.
pub fn direct_log()
    ensures log { (m : MultiRules) → MultiLaws m → OneDecision m → OneLog (direct m) }
    ensures once { (m : MultiRules) (seat : Seat) (w : List Word) → AreDistinct ((direct m).done seat w) }
    ensures decisions { (m : MultiRules) → MultiLaws m → OneDecision m → RoundDecisionsAgree (lists m) }
    ensures proposed { (m : MultiRules) → MultiLaws m → OneDecision m → AppendsProposed (lists m) }
{}

/// The laws of a single value of the direct atomic broadcast.
///
/// What is said is new, in the grammar, and at command slots the inputs; the windows never go back;
/// the identifier log grows at its end alone, by commands that were delivered; what is open stays
/// open while its window isn't past; and decisions stay. Its outcome is always undecided, and no
/// vector is decided.
///
/// It does nothing: its contract is the law.
pub fn direct_words()
    ensures laws { (m : MultiRules) → MultiLaws m → WordLaws (direct m) }
    ensures undecided { (m : MultiRules) (seat : Seat) (w : List Word) → (direct m).outcome seat w ≡ Undecided }
    ensures vectors { (m : MultiRules) (seat : Seat) (w : List Word) → (direct m).last seat w ≡ None }
{}
