//! That a file has one reading.
ghost use Rattle.std.specs.Prelude.{◌≡◌, length};
ghost use Rattle.record_file.specs.Form.{Form};
ghost use Rattle.record_file.specs.Records.{OpensAs};
ghost use Rattle.record_file.specs.Reading.{IsBroken, IsForeign, records_read};

/// A file opens as one list of records, which are those that are read of it. Or it is foreign or broken at one place, and
/// none of these beside another. So `open_records` answers each exactly where its definition holds of the file, but for want
/// of memory and faults of the disk. What is longer than the limit is none of these, and there the answer is `Full`.
///
/// It does nothing: its contract is the law.
pub fn record_laws()
    ensures opens { (form : Form) (head : _) (file : _) (rs : _) (ss : _)
        → length head ≡ form.head_length
        → OpensAs form head file rs → OpensAs form head file ss → rs ≡ ss }
    ensures read { (form : Form) (head : _) (file : _) (rs : _)
        → length head ≡ form.head_length
        → OpensAs form head file rs → records_read form file ≡ rs }
    ensures whole { (form : Form) (head : _) (file : _) (rs : _) (p : _)
        → length head ≡ form.head_length
        → OpensAs form head file rs → IsBroken form head file p → ⊥ }
    ensures own { (form : Form) (head : _) (file : _) (rs : _) (p : _)
        → length head ≡ form.head_length
        → OpensAs form head file rs → IsForeign form head file p → ⊥ }
    ensures either { (form : Form) (head : _) (file : _) (p : _) (q : _)
        → length head ≡ form.head_length
        → IsBroken form head file p → IsForeign form head file q → ⊥ }
    ensures broken { (form : Form) (head : _) (file : _) (p : _) (q : _)
        → IsBroken form head file p → IsBroken form head file q → p ≡ q }
    ensures foreign { (form : Form) (head : _) (file : _) (p : _) (q : _)
        → IsForeign form head file p → IsForeign form head file q → p ≡ q }
{}
