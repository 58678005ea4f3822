//! What a life of a node keeps to.
ghost use Rattle.node_session.specs.NodePrints.{NodeLivesPrint};

use event_journal::journal_laws;

/// Whatever ends a life of a node with a journal, each image that its disk may leave then opens as events that make
/// the frames of those first that the journal had kept. Behind these they make each frame that the link took for the
/// first time in this life, in order. Of several lives `node_loop::lives_print` says it of what the last of them left.
///
/// It does nothing: its contract is the law.
pub fn node_lives_print()
    ensures print { NodeLivesPrint }
{
    journal_laws();
}
