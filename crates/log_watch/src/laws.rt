//! What whoever watches may rely on.
ghost use Rattle.log_watch.specs.Laws.{WatchLaw};

use observer::log_is_true;

/// A law: let at least n - f of n nodes be correct, their logs be prefixes of one list, and each reply of a correct
/// node be a piece of its log at some moment. Then the log that is watched is a prefix of the longest correct log.
///
/// It does nothing: its contract is the law.
pub fn watched_is_true()
    ensures { WatchLaw }
{
    log_is_true();
}
