//! The law of layers over other layers: their runs make runs of what is inside.

ghost use Rattle.layer_api.specs.OneLog.{InnerRuns};

/// In the run that the steps of a layer make of an inner part, each replica's calls are those that its own steps make.
///
/// It does nothing: its contract is the law.
pub fn inner_runs()
    ensures { InnerRuns }
{}
