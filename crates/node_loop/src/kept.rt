//! Whether too many bytes are kept for the peers of a replica.
ghost use Rattle.std.specs.Prelude.{◌≡◌, ℕ, ◌<◌, Some, None, if◌then◌else◌};
ghost use Rattle.ritas_base.specs.declared.mode.FrameVersion.{FrameVersion as AVersion};
ghost use Rattle.world_model.specs.World.{Setting};
ghost use Rattle.node_loop.specs.Peers.{Peers};
ghost use Rattle.node_loop.specs.PeersStanding.{IsKeeper};
ghost use Rattle.node_loop.specs.Serving.{most_kept_in_all, kept_bytes, is_overfull};

use crate::house::{House, is_less, number_of};
use crate::peers::Keeper;
use layer_api::{Broadcast, Service};
use ritas_base::{Coin, FrameVersion};

// In version 3 serving ends where more bytes are kept for all peers of a replica.
const MOST_KEPT_IN_ALL: u128 = 536_870_912;

// The most bytes that are kept for all peers of a replica in a session of a version, if there is a limit.
fn most_kept_in_all(version: FrameVersion) -> Option<u128>
    ensures { result ≡ most_kept_in_all version }
{
    match version {
        FrameVersion::One | FrameVersion::Two => None,
        FrameVersion::Three => Some(MOST_KEPT_IN_ALL),
    }
}

impl Keeper {
    // How many bytes are kept for all peers, where they are too many. In versions 1 and 2 they never are, and aren't counted.
    fn overfull(&self) -> Option<u128>
        ensures over { (w : Setting) (i : ℕ) (p : Peers) → IsKeeper w.mode.version w.numbers.n i self.now p
            → result ≡ (if is_overfull w p i then Some (kept_bytes w p i) else None) }
    {
        let most = most_kept_in_all(self.version)?;
        let bytes = self.resume.all_bytes();
        if bytes <= most { None } else { Some(bytes) }
    }
}

impl<S: Service, E: Broadcast, C: Coin + Drop> House<S, E, C> {
    ghost use Rattle.std.specs.Prelude.{◌≡◌, ℕ, ◌&&◌, [], ◌∷◌, List, true, MatchOption, Some, None, if◌then◌else◌};
    ghost use Rattle.std.specs.List.{slice_get};
    ghost use Rattle.ritas_base.specs.declared.event.Event.{Event};
    ghost use Rattle.world_model.specs.World.{Setting};
    ghost use Rattle.node_loop.specs.Meanings.{meaning_of};
    ghost use Rattle.node_loop.specs.Waiting.{Waiting};
    ghost use Rattle.node_loop.specs.Peers.{Peers};
    ghost use Rattle.node_loop.specs.Serving.{kept_bytes, is_overfull, overfull};
    ghost use Rattle.node_loop.specs.Standing.{HouseStands, is_before_other};

    // How many bytes are kept for the peers of the replica at a place, where they are too many.
    fn overfull_at(&self, place: usize) -> Option<u128>
        ensures over { let m = meaning_of S.Service E.Broadcast C.Coin in
            (w : Setting) (es : List Event) (numbers : List ℕ) (ws : Waiting) (p : Peers) (at : ℕ)
            → HouseStands m w es numbers self.now ws p → slice_get numbers place ≡ Some at
            → result ≡ (if is_overfull w p at then Some (kept_bytes w p at) else None) }
    {
        self.keepers.get(place)?.overfull()
    }

    // The number of the replica at a place, if too many bytes are kept for its peers and the number is less than the least one; else this.
    fn lesser_overfull(&self, place: usize, number: u8, least: Option<u8>) -> Option<u8>
        ensures least { let m = meaning_of S.Service E.Broadcast C.Coin in
            (w : Setting) (es : List Event) (numbers : List ℕ) (ws : Waiting) (p : Peers) (at : ℕ)
            → HouseStands m w es numbers self.now ws p → slice_get numbers place ≡ Some at
            → result ≡ (if is_overfull w p at && is_before_other number least then Some number else least) }
    {
        if self.overfull_at(place).is_some() && is_less(number, least) {
            Some(number)
        } else {
            least
        }
    }

    // The least number of a replica for whose peers too many bytes are kept.
    fn least_overfull(&self) -> Option<u8>
        ensures least { let m = meaning_of S.Service E.Broadcast C.Coin in
            (w : Setting) (es : List Event) (numbers : List ℕ) (ws : Waiting) (p : Peers)
            → HouseStands m w es numbers self.now ws p
            → MatchOption result (overfull w p ≡ []) (λ i. (more : List ℕ) × (w.is_correct i ≡ true)
            × (is_overfull w p i ≡ true) × (overfull w p ≡ i ∷ more)) }
    {
        let mut least: Option<u8> = None;
        for (place, replica) in self.replicas.iter().enumerate() {
            least = self.lesser_overfull(place, number_of(replica), least);
        }
        least
    }

    /// How many bytes are kept for the peers of the least replica for whose peers too many are.
    pub(crate) fn overflow(&self) -> Option<u128>
        ensures first { let m = meaning_of S.Service E.Broadcast C.Coin in
            (w : Setting) (es : List Event) (numbers : List ℕ) (ws : Waiting) (p : Peers)
            → HouseStands m w es numbers self.now ws p
            → MatchOption result (overfull w p ≡ []) (λ bytes. (i : ℕ) × (more : List ℕ)
            × (overfull w p ≡ i ∷ more) × (bytes ≡ kept_bytes w p i)) }
    {
        let at = self.least_overfull()?;
        self.overfull_at(self.place_of(at)?)
    }
}
