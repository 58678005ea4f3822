//! Whose service it is: the numbers of the session and its version, the replica, and the last attempt of a
//! round.

ghost use Rattle.std.specs.Prelude.{◌≡◌, ◌<◌, if◌then◌else◌};

use layer_api::ROUNDS_KEPT;
use ritas_base::{FrameVersion, Mode, Params, RootService};

/// Whose service it is: the session's numbers and its version, and the replica.
#[derive(Clone, Copy)]
pub(crate) struct Place {
    /// The session's numbers.
    pub(crate) numbers: Params,
    /// Its version.
    pub(crate) version: FrameVersion,
    /// The replica.
    pub(crate) me: u8,
    /// The number of the last attempt of a round's instance.
    pub(crate) last: u8,
    ghost within: { me < numbers.n },
}

impl Place {
    ghost use Rattle.ritas_base.specs.Numbers.{IsSession};
    ghost use Rattle.ritas_base.specs.RootServices.{root_number};
    ghost use Rattle.ritas_base.specs.Slots.{has_tries};
    ghost use Rattle.ordered_rounds.specs.Rounds.{is_kept};

    /// The place of replica `me` in a session of these numbers and this mode, where rounds are those of this root
    /// service.
    pub(crate) fn new(p: &Params, mode: &Mode, me: u8, service: RootService) -> Place
        requires { me < p.now.n }
        ensures last { result.last ≡ (if has_tries (root_number service) then p.now.f else 0) }
        ensures numbers { result.numbers ≡ p.now }
        ensures version { result.version ≡ mode.now.version }
        ensures me { result.me ≡ me }
        ensures session { IsSession p.now }
    {
        let f = p.f();
        Place {
            numbers: *p,
            version: mode.version,
            me,
            last: if service.has_tries() { f } else { 0 },
        }
    }

    /// Whether a round is kept where so many are complete: where there is a past, the current one and the two
    /// before it are, and where there is none, each is.
    pub(crate) fn keeps(&self, completed: u32, round: u32) -> bool
        ensures { result ≡ is_kept self.now.version completed round }
    {
        !self.version.has_past() || completed.saturating_sub(ROUNDS_KEPT) <= round
    }

    /// The replica.
    pub(crate) fn me(&self) -> u8
        ensures { result ≡ self.now.me }
    {
        self.me
    }
}
