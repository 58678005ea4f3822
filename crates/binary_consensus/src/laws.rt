//! The laws of binary consensus, for the layers above: one bit for all correct replicas, and what a single box keeps to.

ghost use Rattle.layer_api.specs.Binary.{BoxLaws, OneBit};
ghost use Rattle.binary_consensus.specs.Consensus.{binary};

/// The law of one bit: over every run of correct replicas all decisions are equal, and a bit that one of them decides was
/// proposed by a correct one, which said it at its first step.
///
/// It does nothing: its contract is the law.
pub fn one_bit()
    ensures { OneBit binary }
{}

/// The laws of a single value: what is said is new and a vote of its step, a decision stays, and the round is the greatest
/// whose first step was said.
///
/// It does nothing: its contract is the law.
pub fn box_laws()
    ensures { BoxLaws binary }
{}
