//! The laws of faces: those of one letter are a world of their own.

ghost use Rattle.world_model.specs.FaceWorlds.{FaceLaw, ShownLaw, PlainLaw};
ghost use Rattle.world_model.specs.Quiet.{QuietLaw, OthersLaw};

use crate::laws::core_laws;
use layer_api::{Broadcast, Service};
use replica::made_by_entry;

/// The faces of one letter are a world of their own: its correct replicas are the faulty ones, and its events are what comes
/// to these faces.
///
/// - *States*: after any steps of players each face of the letter is in the state of its replica in that world.
/// - *Shown*: of the frames that its replica made there for another, the face shows as many, each of the same number, and
///   of the same message as the face shows it; and each of these messages is in the grammar.
/// - *Plain*: where a face shows each message as it is, its frames are those of its replica.
///
/// It does nothing: its contract is the law.
pub fn faces_are_replicas<S: Service, E: Broadcast>()
    ensures states { FaceLaw }
    ensures shown { ShownLaw S.rules E.rules }
    ensures plain { PlainLaw }
{
    keyed_channel::opened_from_peer();
    frame_codec::spelled();
    core_laws();
}

/// An event adds to the frames of the replica that it comes to alone, and to none where no frame more was made.
///
/// It does nothing: its contract is the law.
pub fn quiet()
    ensures none { QuietLaw }
    ensures others { OthersLaw }
{
    made_by_entry();
}
