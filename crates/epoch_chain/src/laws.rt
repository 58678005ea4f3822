//! The laws of chains.

ghost use Rattle.epoch_chain.specs.Epochs.{ChainsAgree, ChainsOnce, RowsAreOfEpochs, MarkedIsClosed, LogIsChain, OverIsClosed, AdoptedIsTrue, AdoptedIsPart, TakenOverIsKept};

/// The laws of chains. In each epoch let the logs of correct replicas be prefixes of one list. Then so are the chains of any two
/// nodes. A node has its own log of its newest epoch. Of each epoch before it has a correct replica's log that closes the
/// epoch, or what the chain got of that. Each client and request stands in a chain once. Each row of a chain is one of the log
/// of a correct replica of its epoch, in whose world it was confirmed. Where replicas close epoch k with the request number k,
/// a closing row of a correct replica's log closes its epoch.
///
/// It does nothing: its contract is the law.
pub fn chain_laws()
    ensures agree { ChainsAgree }
    ensures once { ChainsOnce }
    ensures confirmed { RowsAreOfEpochs }
    ensures closed { MarkedIsClosed }
{}

/// The law of a log that begins with the chain of the epochs before. Its rows are the chain with its own epoch, of which the log of
/// a session by itself would have the rows. It is over exactly where that log closes the epoch.
///
/// It does nothing: its contract is the law.
pub fn log_is_chain()
    ensures rows { LogIsChain }
    ensures over { OverIsClosed }
{}

/// The laws of rows that are taken over. A row that f + 1 replicas gave at a position of the chain is that of the longest correct
/// chain. A chain that is a part of it stays one with that row. What a node took over so, from the end of its chain up to the
/// first closing row, is what the chain got of the epoch: so the node's chain goes on as any other.
///
/// It does nothing: its contract is the law.
pub fn rows_taken_over()
    ensures row { AdoptedIsTrue }
    ensures chain { AdoptedIsPart }
    ensures epoch { TakenOverIsKept }
{}
