//! The laws of the definitions: sets of votes are choices in order, counts alone matter, and what each rule gives by them.

ghost use Rattle.std.specs.Prelude.{◌≡◌, ℕ, Bool, true, List, ◌↔◌};
ghost use Rattle.ritas_base.specs.Numbers.{Numbers};
ghost use Rattle.bracha_validation.specs.declared.tally.Tally.{Tally};
ghost use Rattle.bracha_validation.specs.Votes.{some_set, gives};
ghost use Rattle.bracha_validation.specs.Tallies.{tally_votes, IsTally, DependsOnCounts};
ghost use Rattle.bracha_validation.specs.Picks.{PassingSet};
ghost use Rattle.bracha_validation.specs.RuleLaws.{FirstSays, SecondSays, ThirdSays};

/// Whether some set of n - f votes gives a value depends on the counts of the votes alone, in whatever order they stand.
///
/// It does nothing: its contract is the law.
pub fn set_of_votes()
    ensures same { DependsOnCounts }
    ensures itself { (t : Tally) → IsTally t (tally_votes t) }
{}

/// `some_set test m vs` is true exactly where a list of m of the votes, chosen in order, passes the test.
///
/// It does nothing: its contract is the law.
pub fn set_is_picked()
    ensures { (test : List ℕ → Bool) (m : ℕ) (vs : List ℕ) → (some_set test m vs ≡ true) ↔ PassingSet test m vs }
{}

/// What the rule of each step gives, in inequalities of counts.
///
/// It does nothing: its contract is the law.
pub fn rules_by_counts()
    ensures first { (p : Numbers) (vs : List ℕ) (value : ℕ) → (gives p 1 vs value ≡ true) ↔ FirstSays vs value }
    ensures second { (p : Numbers) (vs : List ℕ) (value : ℕ) → (gives p 2 vs value ≡ true) ↔ SecondSays p vs value }
    ensures third { (p : Numbers) (vs : List ℕ) (value : ℕ) → (gives p 3 vs value ≡ true) ↔ ThirdSays p vs value }
{}
