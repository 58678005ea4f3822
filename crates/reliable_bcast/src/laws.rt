//! The laws of reliable broadcast, with values and with digests: one value for all correct replicas, and what is due.

ghost use Rattle.ritas_base.specs.Numbers.{Numbers};
ghost use Rattle.ritas_base.specs.Messages.{Place};
ghost use Rattle.reliable_bcast.specs.Bracha.{bracha, is_backed, is_carried, ready_value, out_by_value};
ghost use Rattle.reliable_bcast.specs.Digests.{by_digest};
ghost use Rattle.reliable_bcast.specs.Reading.{IsTheValue};
ghost use Rattle.layer_api.specs.OneDue.{OneDue};
ghost use Rattle.layer_api.specs.OneValue.{OneValue};

/// In every run with values where at least n - f replicas are correct, what correct replicas deliver is one value, and a
/// correct origin's is what it started.
///
/// It does nothing: its contract is the law.
pub fn one_value()
    ensures { OneValue bracha }
{}

/// In every run with digests where at least n - f replicas are correct, and no two of the values that these took with INIT
/// and VALUE have one digest, what correct replicas deliver is one value, and a correct origin's is what it started.
///
/// It does nothing: its contract is the law.
pub fn one_value_by_digest()
    ensures { OneValue by_digest }
{}

/// READY is due of a value exactly where that value has an echo quorum of ECHO voters or f + 1 READY voters at the
/// shortest prefix of the calls with such a value; there it is the only one. With digests, read digest for value.
///
/// It does nothing: its contract is the law.
pub fn one_backed()
    ensures { (p : Numbers) → IsTheValue (is_backed p) (ready_value p) }
{}

/// A value is delivered exactly where it has 2f + 1 READY voters at the shortest prefix of the calls with such a
/// value; there it is the only one. With digests, this is the digest whose value is delivered.
///
/// It does nothing: its contract is the law.
pub fn one_carried()
    ensures { (at : Place) → IsTheValue (is_carried at.numbers) (out_by_value at) }
{}

/// Of all INITs that are due at a slot after whatever calls, each has one value; so have all ECHOs, and all READYs. So no later
/// message of a replica contradicts an earlier one.
///
/// It does nothing: its contract is the law.
pub fn one_due()
    ensures { OneDue bracha }
{}

/// The same with digests: all WANTs have one value, and all VALUEs to one receiver.
///
/// It does nothing: its contract is the law.
pub fn one_due_by_digest()
    ensures { OneDue by_digest }
{}
