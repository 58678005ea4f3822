//! What serving keeps to, whatever the link gives.
ghost use Rattle.node_loop.specs.Laws.{OneRun, GroupsAreRounds, RoundsGrow, GroupsGrow, ActsAreDeeds, DeedsAreBehind, FramesAreMade, ResendsAreOpen};
ghost use Rattle.node_loop.specs.Laws.{RecalledAreSent, RecalledAreOpen, AcksAreEarned, EventsFit, RepliesAreTrue, KeptMakes};
ghost use Rattle.node_loop.specs.EarnedRounds.{AcksAreOfRounds};
ghost use Rattle.node_loop.specs.PieceLaws.{PiecesAreOfLogs};
ghost use Rattle.node_loop.specs.Keeping.{KeptStands, KeptIsShort};
ghost use Rattle.node_loop.specs.LivesPrint.{LivesPrint, AllLivesPrint};
ghost use Rattle.node_loop.specs.Meanings.{meaning_of};

use event_journal::journal_laws;
use layer_api::{Broadcast, Service};
use outside::Disk;
use ritas_base::Coin;

/// Serving is a function of what it begins with and of the items that the link gives: of two runs over one list of items, each as far as it
/// came, the rounds of the one are the first of the other's. In which groups they were delivered changes nothing of them.
///
/// It does nothing: its contract is the law.
pub fn one_run()
    ensures runs { OneRun }
    ensures groups { GroupsAreRounds }
{}

/// More rounds only add to the events, and more groups to the calls of the link. So what a fault left is a front of what would have come.
///
/// It does nothing: its contract is the law.
pub fn only_grows()
    ensures events { RoundsGrow }
    ensures calls { GroupsGrow }
{}

/// The link's calls are the deeds of the groups: what it gave, and what it was given and why.
///
/// It does nothing: its contract is the law.
pub fn acts_are_deeds()
    ensures deeds { ActsAreDeeds }
    ensures behind { DeedsAreBehind }
{}

/// The frames that went out for the first time are those that the calls of the events made, in their order, and no others.
///
/// It does nothing: its contract is the law.
pub fn frames_are_made()
    ensures made { FramesAreMade }
{}

/// A frame that goes out again went out for the first time before, and no acknowledgement of its number by that peer came between the two.
///
/// It does nothing: its contract is the law.
pub fn resends_are_open()
    ensures unacknowledged { ResendsAreOpen }
{}

/// What is kept for peers as serving begins after events that a journal kept are frames of these events, which count as sent before, and of
/// which none went out again.
///
/// It does nothing: its contract is the law.
pub fn recalled_are_sent()
    ensures sent { RecalledAreSent }
    ensures again { RecalledAreOpen }
{}

/// An acknowledgement goes out only after a frame of that peer with that number opened, and was answered otherwise than that it is to come
/// again. It is of the very round that took this frame, and stands right behind the frames of its call.
///
/// It does nothing: its contract is the law.
pub fn acks_are_earned()
    ensures earned { AcksAreEarned }
    ensures rounds { AcksAreOfRounds }
{}

/// The events are at the replicas that are served, and have at most 65,535 bytes: so they may stand in a schedule file.
///
/// It does nothing: its contract is the law.
pub fn events_fit()
    ensures fit { EventsFit }
{}

/// A reply that gives a position gives the one that the request has in the log of the replica which replies, and which it keeps there. A
/// piece is of that log as it was at some moment, byte for byte. In an epoch of a chain the log begins with the rows of the epochs before, and
/// the law asks that each client and request stands once among these.
///
/// It does nothing: its contract is the law.
pub fn replies_are_true<S: Service, E: Broadcast>()
    ensures replies { RepliesAreTrue S.rules E.rules }
{
    world_model::logs_grow::<S, E>();
}

/// A piece that was replied is read by an observer without a fault, as a piece of the log which its replica has. So it is
/// what `observer::log_is_true` asks of the pieces of correct replicas. That the queries fit, as the law asks, is what
/// `serve`, `serve_kept` and `serve_recovered` say of what they served (`queries` of `Serves` and of `ServesAgain`). The
/// rows that the logs begin with, none in a session by itself, are to be such as replicas enter, at most 4,200,000,000.
///
/// It does nothing: its contract is the law.
pub fn pieces_are_of_logs<S: Service, E: Broadcast>()
    ensures pieces { PiecesAreOfLogs S.rules E.rules }
{
    world_model::logs_grow::<S, E>();
    world_model::rows_fit::<S, E>();
    observer::pieces_are_read();
}

/// The replicas stand after the events that a journal keeps, which are the turns and what was taken or is held, where they stand after all
/// frames, inputs and turns: other events change nothing.
///
/// It does nothing: its contract is the law.
pub fn kept_stands()
    ensures stands { KeptStands }
{}

/// The frames that the kept events make are those that all events make, in their order. What follows of the lives of a
/// node that keeps a journal is `lives_print`.
///
/// It does nothing: its contract is the law.
pub fn kept_makes()
    ensures makes { KeptMakes }
{}

/// A frame or an input that a journal keeps has at most 16,384 bytes.
///
/// It does nothing: its contract is the law.
pub fn kept_is_short()
    ensures short { KeptIsShort }
{}

/// Whatever ends a life that `serve_kept` serves, each image that the disk may leave then opens as events that make the
/// frames of the recovered ones first. Behind these they make each frame that the link took for the first time in this
/// life, in order. So what the last of several lives left makes the first sendings of each, and so do events that have
/// it in front, as those of a file of a later life.
///
/// It does nothing: its contract is the law.
pub fn lives_print<S: Service, E: Broadcast, C: Coin, D: Disk>()
    ensures one { LivesPrint (meaning_of S.Service E.Broadcast C.Coin) D.Disk }
    ensures all { AllLivesPrint }
{
    journal_laws();
}
