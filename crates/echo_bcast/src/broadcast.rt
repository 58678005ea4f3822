//! Matrix echo broadcast as a `Broadcast`: it keeps to what that trait says of a broadcast of form 2.

ghost use Rattle.std.specs.Prelude.{◌≡◌, refl};
ghost use Rattle.echo_bcast.specs.declared.eb.Eb.{Eb};
ghost use Rattle.echo_bcast.specs.Matrix.{echo};
ghost use Rattle.echo_bcast.specs.State.{KeepsMatrix, matrix_shown};
ghost use Rattle.echo_bcast.specs.Laws.Getters.{shows_cast};
ghost use Rattle.echo_bcast.specs.Laws.Matrix.{value_laws_of_echo};
ghost use Rattle.echo_bcast.specs.Laws.Entries.{entry_laws_of_echo};
ghost use Rattle.echo_bcast.specs.Laws.OneValue.{one_value_of_echo};
ghost use Rattle.echo_bcast.specs.Laws.Opening.{ready_by_kind_of_echo};

use crate::eb::Eb;
use layer_api::{Broadcast, Heard};
use ritas_base::{Item, Kind, Mem, Msg, Params, Slot, Tagger};
use std::alloc::Global;

impl Broadcast for Eb {
    ghost stands = { λ b at tags h. KeepsMatrix b at tags h };

    ghost rules = { echo };

    ghost FORM = { 2 };

    ghost live = { λ b. b.live };

    ghost shown = { λ b. matrix_shown b };

    ghost shows = { λ b at tags h keeps. (keeps.live, shows_cast b at tags h keeps) };

    ghost form = { refl };

    ghost value_laws = { value_laws_of_echo };

    ghost entry_laws = { entry_laws_of_echo };

    ghost one_value = { one_value_of_echo };

    ghost ready_by_kind = { ready_by_kind_of_echo };

    const FORM: u8 = 2;

    fn new(alloc: Global, p: &Params, _me: u8, slot: Slot) -> Result<Eb, Mem> {
        Ok(Eb::make(alloc, p, slot))
    }

    fn start<T: Tagger>(
        &mut self,
        alloc: Global,
        _t: &T,
        value: &[u8],
        out: &mut Vec<Msg>,
    ) -> Result<(), Mem> {
        let said = self.begin(alloc, value, out);
        if said.is_err() {
            self.live = false;
        }
        said
    }

    fn take<T: Tagger>(
        &mut self,
        alloc: Global,
        t: &T,
        item: &Item,
        out: &mut Vec<Msg>,
    ) -> Result<Heard, Mem> {
        // No such tagger comes: it is a replica's.
        if t.me() >= self.params.n() {
            return Ok(Heard::Repeat);
        }
        let heard = self.hear(alloc, t, item, out);
        if heard.is_err() {
            self.live = false;
        }
        heard
    }

    fn ready_for(&self, item: &Item) -> bool {
        item.kind != Kind::Column || self.is_sent()
    }

    fn delivered(&self) -> Option<&[u8]> {
        self.value()
    }

    fn live(&self) -> bool {
        self.live
    }
}
