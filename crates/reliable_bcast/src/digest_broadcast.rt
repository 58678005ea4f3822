//! Reliable broadcast with digests as a `Broadcast`: it keeps to what that trait says of a broadcast of form 3.

ghost use Rattle.std.specs.Prelude.{◌≡◌, refl};
ghost use Rattle.reliable_bcast.specs.Digests.{by_digest};
ghost use Rattle.reliable_bcast.specs.DigestState.{KeepsDigests, digest_shown};
ghost use Rattle.reliable_bcast.specs.Laws.DigestShown.{shows_cast};
ghost use Rattle.reliable_bcast.specs.Laws.ByDigest.{value_laws_by_digest, entry_laws_by_digest};
ghost use Rattle.reliable_bcast.specs.Laws.DigestOneValue.{one_value_by_digest};

use crate::digest_rb::DigestRb;
use crate::saying::say_init;
use layer_api::{Broadcast, Heard};
use ritas_base::{Item, Mem, Msg, Params, Slot, Tagger};
use std::alloc::Global;

impl Broadcast for DigestRb {
    ghost stands = { λ b at tags h. KeepsDigests b at tags h };

    ghost rules = { by_digest };

    ghost FORM = { 3 };

    ghost live = { λ b. b.live };

    ghost shown = { λ b. digest_shown b };

    ghost shows = { λ b at tags h keeps. (keeps.live, shows_cast b at tags h keeps) };

    ghost form = { refl };

    ghost value_laws = { value_laws_by_digest };

    ghost entry_laws = { entry_laws_by_digest };

    ghost one_value = { one_value_by_digest };

    ghost ready_by_kind = { λ at tags h x y same. refl };

    const FORM: u8 = 3;

    fn new(alloc: Global, p: &Params, me: u8, slot: Slot) -> Result<DigestRb, Mem> {
        Ok(DigestRb::make(alloc, p, me, slot))
    }

    fn start<T: Tagger>(
        &mut self,
        alloc: Global,
        _t: &T,
        value: &[u8],
        out: &mut Vec<Msg>,
    ) -> Result<(), Mem> {
        let said = say_init(alloc, self.slot, value, out);
        if said.is_err() {
            self.live = false;
        }
        said
    }

    fn take<T: Tagger>(
        &mut self,
        alloc: Global,
        t: &T,
        item: &Item,
        out: &mut Vec<Msg>,
    ) -> Result<Heard, Mem> {
        let heard = self.hear(alloc, t, item, out);
        if heard.is_err() {
            self.live = false;
        }
        heard
    }

    fn ready_for(&self, _item: &Item) -> bool {
        true
    }

    fn delivered(&self) -> Option<&[u8]> {
        self.delivered_value()
    }

    fn live(&self) -> bool {
        self.live
    }
}
