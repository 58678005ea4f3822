//! That a file has one reading.
ghost use Rattle.std.specs.Prelude.{◌≡◌, length};
ghost use Rattle.event_journal.specs.Journal.{OpensAs};
ghost use Rattle.event_journal.specs.Reading.{IsBroken, IsForeign};

/// A file opens as one list of events, or is foreign or broken at one place, and none of these beside another. So `open_journal`
/// answers each exactly where its definition holds of the file, but for want of memory and faults of the disk, and but for `Full`:
/// what is longer than the limit is none of these.
///
/// It does nothing: its contract is the law.
pub fn journal_laws()
    ensures opens { (me : _) (head : _) (file : _) (es : _) (fs : _) → length head ≡ 51 → OpensAs me head file es → OpensAs me head file fs → es ≡ fs }
    ensures whole { (me : _) (head : _) (file : _) (es : _) (p : _) → length head ≡ 51 → OpensAs me head file es → IsBroken me head file p → ⊥ }
    ensures own { (me : _) (head : _) (file : _) (es : _) (p : _) → length head ≡ 51 → OpensAs me head file es → IsForeign head file p → ⊥ }
    ensures either { (me : _) (head : _) (file : _) (p : _) (q : _) → length head ≡ 51 → IsBroken me head file p → IsForeign head file q → ⊥ }
    ensures broken { (me : _) (head : _) (file : _) (p : _) (q : _) → IsBroken me head file p → IsBroken me head file q → p ≡ q }
    ensures foreign { (head : _) (file : _) (p : _) (q : _) → IsForeign head file p → IsForeign head file q → p ≡ q }
{}
