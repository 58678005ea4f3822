//! The laws of every world, for whoever runs one: one value at each slot, and agreement, where the audit holds.

ghost use Rattle.std.specs.Prelude.{◌≡◌, List, ◌++◌};
ghost use Rattle.ritas_base.specs.declared.event.Event.{Event};
ghost use Rattle.world_model.specs.World.{Setting};
ghost use Rattle.world_model.specs.Audit.{audit_of};
ghost use Rattle.world_model.specs.OneValueEach.{WorldLaw};
ghost use Rattle.world_model.specs.CoreLaws.{CoreLaws};
ghost use Rattle.world_model.specs.Agree.{AgreeLaw};
ghost use Rattle.world_model.specs.Apart.{NoTwoValues, NoTwoRows, NoTwoIdentifierLogs, NoTwoOutcomes, NoTwoDecisions, NoTwoVectors};
ghost use Rattle.world_model.specs.Stopped.{LostIsTaken, EqualRows, OnePrefix};
ghost use Rattle.world_model.specs.EveryWorld.{AgreementLaw, LogsGrow};
ghost use Rattle.world_model.specs.RowsFit.{RowsFit};

use crate::audit::Audit;
use layer_api::{Broadcast, Service};

// The laws of the core and of inputs, which those of worlds rest on.
//
// It does nothing: its contract is the laws.
pub(crate) fn core_laws()
    ensures { CoreLaws }
{
    ritas_core::history_laws();
    ritas_core::entry_laws();
    ritas_core::verdict_laws();
    frame_codec::right_input();
}

/// In every world at each slot all correct replicas that deliver a value deliver the same one, and what they deliver at
/// a slot of a correct replica is what that started there, which is what its service said there, and at a command slot its
/// input of that number; as long as the audit holds: at least n - f replicas
/// are correct; no event gives a correct replica a frame that opens as from a correct replica which hadn't made it, or
/// makes it take a column with a valid entry of a correct replica which hadn't given it; and no two different things that
/// correct replicas hashed have one image.
///
/// It does nothing: its contract is the law. `IsSound` says what the world's layers, channel and codec keep to.
pub fn one_value_each()
    ensures { WorldLaw }
{
    core_laws();
}

/// Where the audit of a world holds after some events, it held after the earlier ones of them: so what the other laws say
/// was true at every point of the schedule.
///
/// It does nothing: its contract is the law.
pub fn prefix_holds()
    ensures { (w : Setting) (later es : List Event) → audit_of w (later ++ es) ≡ Audit.Holds → audit_of w es ≡ Audit.Holds }
{}

/// In every world whose audit holds, correct replicas' logs of commands are prefixes of one list, with each command once;
/// each command there was submitted at a correct replica; and no two correct replicas decide differently in any instance.
///
/// - *Every world*: whatever its keys, its coins and its schedule. A frame that is never handed over is lost. Frames come
///   in any order and as often as the schedule says. Faulty replicas are whatever bytes it hands in under their numbers.
///   Correct ones may be stopped between events.
/// - *Its audit holds*: at least n - f replicas are correct, no event forges, and no two things that were hashed collide,
///   as `one_value_each` says.
/// - *Prefixes of one list*: of the logs of any two correct replicas one is a prefix of the other, so all are prefixes of
///   the longest. It is so of the identifier logs too, where each identifier stands once.
/// - *Each command once*: a log has one row for each client and request, where it is so in the base.
/// - *Above a base*: a log is the rows that it began with, of the epochs of a chain before its own, and above these the rows that
///   its replica entered. In a session by itself it began with none.
/// - *Submitted at a correct replica*: a row above the base has the client, the request and the payload of an input of some correct
///   replica, since f + 1 replicas broadcast that command. Where its identifier's origin is correct, they are those of that
///   replica's input of the identifier's number, from 0.
/// - *Any instance*: at each slot of a broadcast they deliver one value, as `one_value_each` says; what became of their one
///   instance is equal where both are decided; and so is what they decided in each instance inside, of one bit, of one value
///   or of a vector, where no value and no vector are decisions too. Besides, a bit that is decided was an input of some
///   correct replica, and so was a value that multi-valued consensus decided.
/// - *From proposals*: a bit or a value that one of them decided in an instance inside was proposed to it by a correct
///   replica, which started it at its first slot there. In a vector that one of them decided the entry of a correct replica
///   is its proposal, which is its input where the vector is what its root service decides. Each identifier of a log was
///   appended by a round, the first whose decision wants it: a vector wants what stands in f + 1 of its entries, and a list
///   what stands in it. And a correct replica proposed it in that round.
/// - *Never spent*: no vector consensus that is the one instance of a correct replica, or is in the round where its atomic
///   broadcast stands, ends without a vector. And where the last vectors that two of them decided are of one round, they
///   are one vector, decided in one attempt.
///
/// All this is said of what a replica's history, as far as it went, makes its service show, whether it was stopped or not.
///
/// It does nothing: its contract is the law. It rests on what `one_value_each` does, and on the service's own law over
/// its runs, `OneLog`. The protocols are those of Moniz, Neves, Correia and Veríssimo, RITAS (2011), and, for the log,
/// of Correia, Neves and Veríssimo, From Consensus to Atomic Broadcast (2006).
pub fn agreement_each()
    ensures { AgreeLaw }
{
    core_laws();
}

/// Two different correct replicas of a world whose replicas agree are never set apart: they deliver no two values at a slot,
/// their logs of commands have no two rows at a position, their identifier logs are equal where they are equally long, and
/// no two things become of their one instance, nor of an instance inside; and their last vectors are no two of one round.
///
/// It does nothing: its contract is the law.
pub fn never_apart()
    ensures values { NoTwoValues }
    ensures rows { NoTwoRows }
    ensures identifiers { NoTwoIdentifierLogs }
    ensures outcomes { NoTwoOutcomes }
    ensures decisions { NoTwoDecisions }
    ensures vectors { NoTwoVectors }
{}

/// What the logs of commands have in common where an event stopped the world for want of memory. Let h be the history of a
/// replica before the event. Where the event was a call that stopped the replica, and none is stopped between events, h with
/// the entry that it lost is the history that it was to have after the event. `Replica::log` says of the rows that it shows
/// that they have the log of h as a prefix, and are a prefix of the log of that history. So, where the correct replicas
/// agreed before the event, its rows are those of every other one at each position that the log of h and the other's log
/// have; and where they agree with the event too, of the rows that two of them show the one are a prefix of the others.
///
/// It does nothing: its contract is the law. `World::replica` says how the event left each replica.
pub fn stopped_between()
    ensures took { LostIsTaken }
    ensures same { EqualRows }
    ensures one { OnePrefix }
{}

/// What `agreement_each` says, of every world with this service and this broadcast beside the reliable one, whatever keys
/// and coins its replicas have, for every n of at least 3f + 1, where the audit holds: correct replicas' logs of commands
/// are prefixes of one list, with each command once; each command there was submitted at a correct replica; and no two
/// correct replicas decide differently in any instance. The layers, channel and codec of such a world keep to what
/// `agreement_each` rests on.
///
/// It does nothing: its contract is the law.
pub fn agreement<S: Service, E: Broadcast>()
    ensures { AgreementLaw S.rules E.rules }
{
    keyed_channel::opens_as_sealed();
    keyed_channel::opened_from_peer();
    frame_codec::spelled();
    reliable_bcast::one_value();
    agreement_each();
}

/// In every world with this service and this broadcast beside the reliable one the log of commands of each replica only grows: of more
/// events it has that of fewer as a prefix, whatever the audit says.
///
/// It does nothing: its contract is the law.
pub fn logs_grow<S: Service, E: Broadcast>()
    ensures { LogsGrow S.rules E.rules }
{
    keyed_channel::opened_from_peer();
    frame_codec::spelled();
    core_laws();
}

/// In every world with this service and this broadcast beside the reliable one each row of a correct replica's log is of a command of the
/// session, whatever the audit says, where those of the base are: its origin is one of the n replicas, its number is below 1,000,000, and
/// its payload has at most 4,088 bytes. There are at most 31,000,000 rows above the base.
///
/// It does nothing: its contract is the law.
pub fn rows_fit<S: Service, E: Broadcast>()
    ensures { RowsFit S.rules E.rules }
{
    keyed_channel::opened_from_peer();
    frame_codec::spelled();
    core_laws();
}
