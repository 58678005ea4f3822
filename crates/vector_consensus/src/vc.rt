//! One instance of vector consensus, over any multi-valued consensus: its attempts, and the first vector that one decides.

ghost use Rattle.std.specs.Prelude.{◌≡◌, IfOk};
ghost use Rattle.std.specs.Option.{option_copied};
ghost use Rattle.vector_consensus.specs.Stands.{HearsSlot, NearSlot, KeepsCopies, VectorEnds, vector_in, as_byte};

use crate::going::Progress;
use crate::hearing::{hear_proposal, hear_try, start};
use crate::opening::is_open;
use crate::part::Part;
use crate::proposals::Proposals;
use layer_api::{Decided, MultiBox, VectorBox, put_out};
use ritas_base::{Coin, Mem, Params, Say, Slot};
use std::alloc::Global;

/// The vector that the attempt there decided, where it decided one.
fn vector_in<M: MultiBox>(at: Option<usize>, tries: &[M]) -> Option<&[u8]>
    ensures { option_copied result ≡ vector_in M.shown at tries.now }
{
    match tries.get(at?)?.decision() {
        Decided::Value(value) => Some(value),
        _ => None,
    }
}

/// An attempt's number, as a byte.
fn as_byte(attempt: Option<usize>) -> Option<u8>
    ensures { result ≡ as_byte attempt }
{
    match attempt {
        Some(k) if k < 256 => Some(k as u8),
        _ => None,
    }
}

/// One replica's part in one instance of vector consensus, over any multi-valued consensus.
///
/// It keeps each proposal once, and the box of each attempt that began; an attempt's box is made in the call in which it
/// is proposed its vector, so mostly there is one. What a slot of an attempt delivered costs what it costs that box. The
/// vector of the proposals is made once for each attempt. Memory is taken for proposals, for boxes, for vectors and for
/// what is said.
#[derive(Drop)]
pub struct Vc<M: MultiBox> {
    part: Part,
    table: Proposals,
    tries: Vec<M>,
    place: Progress,
    live: bool,
}

impl<M: MultiBox> Vc<M> {
    // Hears what a slot delivered, and answers how far the attempts then have come.
    fn hear<C: Coin>(
        &mut self,
        alloc: Global,
        coin: &C,
        slot: &Slot,
        value: &[u8],
        made: &mut Vec<Say>,
    ) -> Result<Progress, Mem>
        ensures ok { IfOk result (λ next. HearsSlot M.stands M.rules (C.bits coin.now) self.old slot.now value.now self.new.table self.new.tries.items next made.old.items made.new.items) }
        ensures near { NearSlot M.stands M.rules M.shown (C.bits coin.now) self.old slot.now value.now self.new.tries.items }
        ensures keeps { KeepsCopies self.old self.new }
        ensures live { self.new.live ≡ self.old.live }
    {
        match slot.class {
            2 => hear_proposal(
                alloc,
                &self.part,
                self.place.own,
                slot.origin,
                value,
                &mut self.table,
                &mut self.tries,
                made,
            ),
            _ => hear_try(
                alloc,
                coin,
                &self.part,
                self.place.own,
                slot,
                value,
                &self.table,
                &mut self.tries,
                made,
            ),
        }
    }

    // Puts out what is said, last. For want of memory nothing is put out, and the box is live no more.
    fn end(
        &mut self,
        next: Result<Progress, Mem>,
        made: &mut Vec<Say>,
        says: &mut Vec<Say>,
    ) -> Result<(), Mem>
        ensures { VectorEnds self.old self.new next made.old.items says.old.items says.new.items result }
    {
        match put_out(next, made, says) {
            Ok(place) => {
                self.place = place;
                Ok(())
            }
            Err(mem) => {
                self.live = false;
                Err(mem)
            }
        }
    }
}

impl<M: MultiBox> VectorBox for Vc<M> {
    ghost use Rattle.vector_consensus.specs.Consensus.{vectors};
    ghost use Rattle.vector_consensus.specs.Laws.Box.{vector_laws_law};
    ghost use Rattle.vector_consensus.specs.Laws.OneVector.{one_vector_law};
    ghost use Rattle.vector_consensus.specs.Laws.Opening.{vector_opens_down};
    ghost use Rattle.vector_consensus.specs.Stands.{VectorStands, vector_shown, shows_vector};

    ghost stands = { VectorStands M.stands M.rules };

    ghost rules = { vectors M.rules };

    ghost live = { λ x. x.live };

    ghost shown = { vector_shown M.shown };

    fn new(alloc: Global, p: &Params, me: u8, a: u32) -> Result<Vc<M>, Mem> {
        Ok(Vc {
            part: Part::new(p, me, a),
            table: Proposals::new(alloc),
            tries: Vec::new(alloc),
            place: Progress {
                own: false,
                begun: 0,
                decided: None,
                spent: false,
            },
            live: true,
        })
    }

    fn propose(&mut self, alloc: Global, value: &[u8], says: &mut Vec<Say>) -> Result<(), Mem> {
        let mut made = Vec::new(alloc);
        let next = start(
            alloc,
            &self.part,
            value,
            &self.table,
            &mut self.tries,
            &mut made,
        );
        self.end(next, &mut made, says)
    }

    fn heard<C: Coin>(
        &mut self,
        alloc: Global,
        coin: &C,
        slot: &Slot,
        value: &[u8],
        says: &mut Vec<Say>,
    ) -> Result<(), Mem> {
        let mut made = Vec::new(alloc);
        let next = self.hear(alloc, coin, slot, value, &mut made);
        self.end(next, &mut made, says)
    }

    fn is_open(&self, slot: &Slot) -> bool {
        is_open(&self.part, &self.place, &self.tries, slot)
    }

    fn decision(&self) -> Option<&[u8]> {
        vector_in(self.place.decided, &self.tries)
    }

    fn decided_try(&self) -> Option<u8> {
        as_byte(self.place.decided)
    }

    fn spent(&self) -> bool {
        self.place.spent
    }

    fn live(&self) -> bool {
        self.live
    }

    ghost shows = { shows_vector M.stands M.rules M.multi_laws M.live M.shown M.shows };

    ghost vector_laws = { vector_laws_law M.rules M.multi_laws };

    ghost one_vector = { one_vector_law M.rules M.multi_laws M.one_decision };

    ghost opens_down = { vector_opens_down M.rules M.opens_down };
}
