//! The law of every schedule that players make: no event forges.

ghost use Rattle.world_model.specs.Forging.{ForgingLaw, PlayedAudit, ShortLaw};

use crate::laws::core_laws;
use layer_api::{Broadcast, Service};

/// In every schedule that players make, no event forges. So wherever at least n - f replicas are correct, its audit holds, or
/// names an event by which two hashes collide. And each frame that a player made has at most 16,384 bytes, as many as a frame
/// may have.
///
/// - *Players*: correct replicas, and faces. A face runs a replica's code with a faulty replica's keys and coin, and takes
///   what comes to it as that replica would; a faulty replica may have several faces. What a face says may differ from what
///   the code says in INIT alone, whose value may be any other one of the grammar; HASHES, columns and the rest are as the
///   code has them.
/// - *In every schedule*: whatever the players' steps are, and in whatever order. A player gets an input, takes the item at
///   the front of its inbox, or gets a frame that a player of another replica's number made for its own, as often as the
///   schedule says, early, late or never; or garbage is thrown at a correct replica, under the number of a faulty one: a
///   frame whose body begins with a byte that is no kind. What a correct replica gets so is an event, and what a face gets
///   isn't.
/// - *No event forges*: each frame that opens at a correct replica as from a correct one was made by that one for it, and each
///   valid entry of a correct replica, in a column that a correct replica takes, was given by that one.
///
/// It is so of every world with this service and this broadcast beside the reliable one, whatever keys and coins its replicas
/// have, in which none stops between events, however many are faulty.
///
/// It does nothing: its contract is the law. It rests on `Broadcast`'s law of entries: HASHES carry what their sender gave,
/// and a column has the entries of HASHES that its sender took.
pub fn forges_nothing<S: Service, E: Broadcast>()
    ensures law { ForgingLaw S.rules E.rules }
    ensures audit { PlayedAudit S.rules E.rules }
    ensures short { ShortLaw S.rules E.rules }
{
    core_laws();
    keyed_channel::opens_as_sealed();
    keyed_channel::opened_from_peer();
    keyed_channel::sealed_length();
    frame_codec::spelled();
    reliable_bcast::one_value();
}
