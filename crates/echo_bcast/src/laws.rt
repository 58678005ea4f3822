//! The laws of echo broadcast: one value for all correct replicas, and what its messages carry.

ghost use Rattle.echo_bcast.specs.Matrix.{echo};
ghost use Rattle.echo_bcast.specs.Reading.{HashesCarry, GoodIs, SendersAre};
ghost use Rattle.echo_bcast.specs.OneDue.{ColumnsGrow};
ghost use Rattle.layer_api.specs.OneDue.{OneDue};
ghost use Rattle.layer_api.specs.OneValue.{OneValue};

/// In every run where at least n - f replicas are correct and nothing that they hashed collides, what correct replicas
/// deliver is one value, and a correct origin's is what it started.
///
/// It does nothing: its contract is the law.
pub fn one_value()
    ensures { OneValue echo }
{}

/// Each HASHES that is due is to the origin and carries exactly the entries that its replica gave, one behind the other,
/// and some is due once a message was sent.
///
/// It does nothing: its contract is the law.
pub fn hashes_carry()
    ensures { HashesCarry }
{}

/// An echoer is good exactly where some column that was taken has its valid entry of the message that was sent. That
/// message is delivered exactly where an echo quorum of replicas is good.
///
/// It does nothing: its contract is the law.
pub fn good_is()
    ensures { GoodIs }
{}

/// Bit k of a column's mask is set exactly where replica k's HASHES are there.
///
/// It does nothing: its contract is the law.
pub fn senders_are()
    ensures { SendersAre }
{}

/// Of all SENDs that are due at a slot after whatever calls, each has one value, and so have all HASHES. Of two columns to one
/// receiver one has the entries of the other, and perhaps more: each is of the HASHES that were there after a part of the calls.
/// So no later message of a replica contradicts an earlier one.
///
/// It does nothing: its contract is the law.
pub fn one_due()
    ensures one { OneDue echo }
    ensures grow { ColumnsGrow }
{}
