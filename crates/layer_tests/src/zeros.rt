//! A tagger and a coin whose answers are all zeros, for what asks neither, or asks for bits alone; and a core with these.

ghost use Rattle.std.specs.Prelude.{◌≡◌, ◌<◌, refl, replicate};

use layer_api::Service;
use reliable_bcast::Rb;
use ritas_base::{Coin, Mem, Mode, Params, Slot, Tagger, Vect};
use ritas_core::Core;
use std::alloc::Global;

/// A tagger whose answers are all zeros.
#[derive(Drop)]
pub(crate) struct ZeroTagger {
    pub(crate) me: u8,
}

impl Tagger for ZeroTagger {
    ghost me = { λ t. t.me };

    ghost tags = { λ t. record { digest = λ m. replicate 32 0; entry = λ s echoer verifier d. replicate 32 0 } };

    ghost digests = { λ t m. refl };

    fn me(&self) -> u8 {
        self.me
    }

    fn entry(&self, _slot: &Slot, _echoer: u8, _verifier: u8, _d: &[u8; 32]) -> [u8; 32] {
        [0; 32]
    }

    fn digest(&self, _bytes: &[u8]) -> [u8; 32] {
        [0; 32]
    }
}

/// A coin each of whose bits is 0.
#[derive(Drop)]
pub(crate) struct ZeroCoin;

impl Coin for ZeroCoin {
    ghost use Rattle.std.specs.Prelude.{false};

    ghost bits = { λ c s. false };

    fn toss(&self, _slot: &Slot) -> bool {
        false
    }
}

/// The core of replica 0 where all goes by reliable broadcast, in a root service that `S` serves and that isn't 2; else `Mem`.
pub(crate) fn new_core<S: Service>(
    alloc: Global,
    p: Params,
    root: u8,
) -> Result<Core<S, Rb, ZeroCoin, ZeroTagger>, Mem>
    requires { 0 < p.n }
{
    if root == 2 || !S::serves(root) {
        return Err(Mem);
    }
    match Mode::new(root, Vect::Reliable) {
        None => Err(Mem),
        Some(mode) => Core::new(alloc, p, mode, 0, ZeroTagger { me: 0 }, ZeroCoin),
    }
}
