//! The promise of chains.

ghost use Rattle.epoch_world.specs.Worlds.{WorldChainsAgree, WorldChainsOnce, WorldChainsConfirmed, WorldsAreMarked};
ghost use Rattle.epoch_world.specs.Worlds.{ServedIsSame, ServedAudit, ServedIsChain, ServedEnds, ServedAgree, ServedIsKept, ServedCloses};

/// The promise of chains over worlds, one for each epoch, each of them a session by itself. Let correct replicas agree in each, as
/// `world_model::agreement` says of each world whose audit holds.
///
/// - *One list*: the chains of any two nodes are prefixes of one list, with each command once. A node has its own log of its
///   newest epoch, and what it keeps of those before.
/// - *Confirmed*: each command of a chain was submitted at a correct replica, in its epoch.
/// - *Marked*: let correct replicas be given no input of the closing client in epoch k but with the request number k. Then
///   closing rows are marked so, and the closing rows of two epochs are two requests.
/// - *Over the chain of the epochs before*: nodes serve an epoch with logs that begin with these rows. All but the logs is as in the
///   session by itself: each replica has the same history, and the audits are equal. Such a log is the chain with its
///   epoch, of which the session by itself has the rows. It has ended exactly where a fresh row of the session's own log
///   closes the epoch.
/// - *One after the other*: so the logs of any two nodes that serve epochs are prefixes of one list, in whatever epochs and
///   after whatever events. A node whose log has ended keeps the epoch, and may serve the next one. Where closing rows
///   are marked, its log has ended as soon as the session's own log has one.
///
/// It does nothing: its contract is the law.
pub fn chains_of_worlds()
    ensures agree { WorldChainsAgree }
    ensures once { WorldChainsOnce }
    ensures confirmed { WorldChainsConfirmed }
    ensures marked { WorldsAreMarked }
    ensures same { ServedIsSame }
    ensures audit { ServedAudit }
    ensures chain { ServedIsChain }
    ensures ends { ServedEnds }
    ensures served { ServedAgree }
    ensures kept { ServedIsKept }
    ensures closes { ServedCloses }
{
    epoch_chain::chain_laws();
    epoch_chain::log_is_chain();
}
