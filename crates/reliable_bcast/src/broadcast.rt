//! Reliable broadcast with values as a `Broadcast`: it keeps to what that trait says of a broadcast of form 1.

ghost use Rattle.std.specs.Prelude.{◌≡◌, true, refl};
ghost use Rattle.std.proofs.Common.{ap};
ghost use Rattle.reliable_bcast.specs.declared.rb.Rb.{Rb};
ghost use Rattle.reliable_bcast.specs.Bracha.{bracha};
ghost use Rattle.reliable_bcast.specs.State.{state_of};
ghost use Rattle.reliable_bcast.specs.Laws.Bracha.{value_laws_of_bracha, entry_laws_of_bracha};
ghost use Rattle.reliable_bcast.specs.Laws.OneValue.{one_value_of_bracha};

use crate::rb::Rb;
use crate::saying::say_init;
use layer_api::{Broadcast, Heard};
use ritas_base::{Item, Mem, Msg, Params, Slot, Tagger};
use std::alloc::Global;

impl Broadcast for Rb {
    ghost stands = { λ b at tags h. b ≡ state_of at h };

    ghost rules = { bracha };

    ghost FORM = { 1 };

    ghost live = { λ b. b.live };

    ghost shown = { λ b. record { out = b.delivered; ready = λ i. true } };

    ghost shows = { λ b at tags h e. (ap (λ (x : Rb). x.live) e, record { out = ap (λ (x : Rb). x.delivered) e; ready = λ i. refl }) };

    ghost form = { refl };

    ghost value_laws = { value_laws_of_bracha };

    ghost entry_laws = { entry_laws_of_bracha };

    ghost one_value = { one_value_of_bracha };

    ghost ready_by_kind = { λ at tags h x y same. refl };

    const FORM: u8 = 1;

    fn new(alloc: Global, p: &Params, _me: u8, slot: Slot) -> Result<Rb, Mem> {
        Ok(Rb::make(alloc, p, slot))
    }

    fn start<T: Tagger>(
        &mut self,
        alloc: Global,
        _t: &T,
        value: &[u8],
        out: &mut Vec<Msg>,
    ) -> Result<(), Mem> {
        let said = say_init(alloc, self.slot, value, out);
        if said.is_err() {
            self.live = false;
        }
        said
    }

    fn take<T: Tagger>(
        &mut self,
        alloc: Global,
        _t: &T,
        item: &Item,
        out: &mut Vec<Msg>,
    ) -> Result<Heard, Mem> {
        let heard = self.hear(alloc, item, out);
        if heard.is_err() {
            self.live = false;
        }
        heard
    }

    fn ready_for(&self, _item: &Item) -> bool {
        true
    }

    fn delivered(&self) -> Option<&[u8]> {
        self.value()
    }

    fn live(&self) -> bool {
        self.live
    }
}
