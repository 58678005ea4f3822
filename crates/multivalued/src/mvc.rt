//! One instance of multi-valued consensus, over any binary consensus.

ghost use Rattle.multivalued.specs.Stands.{MultiEnds};

use crate::opening::is_open;
use crate::part::Part;
use crate::settling::{Decision, Progress};
use crate::table::Table;
use layer_api::{BinaryBox, Decided, MultiBox, put_out};
use ritas_base::{Coin, Mem, Params, Say, Slot};
use std::alloc::Global;

/// One replica's part in one instance of multi-valued consensus, over any binary consensus.
///
/// It keeps each different value once, with who proposed it and whose VECTs have it. A proposal or a VECT costs a look-up of
/// its value; the VECTs of a value are counted again only where one more replica proposes it. Memory is taken for values,
/// for a few bytes a VECT, and for what is said.
#[derive(Drop)]
pub struct Mvc<B: BinaryBox> {
    pub(crate) part: Part,
    pub(crate) inner: B,
    pub(crate) table: Table,
    pub(crate) place: Progress,
    live: bool,
}

impl<B: BinaryBox> Mvc<B> {
    // Puts out what is said, last. For want of memory nothing is put out, and the box is live no more.
    fn end(
        &mut self,
        next: Result<Progress, Mem>,
        made: &mut Vec<Say>,
        says: &mut Vec<Say>,
    ) -> Result<(), Mem>
        ensures { MultiEnds self.old self.new next made.old.items says.old.items says.new.items result }
    {
        match put_out(next, made, says) {
            Ok(place) => {
                self.place = place;
                Ok(())
            }
            Err(mem) => {
                self.live = false;
                Err(mem)
            }
        }
    }
}

impl<B: BinaryBox> MultiBox for Mvc<B> {
    ghost use Rattle.multivalued.specs.Consensus.{multivalued};
    ghost use Rattle.multivalued.specs.Laws.Box.{multi_laws_law};
    ghost use Rattle.multivalued.specs.Laws.OneDecision.{one_decision_law};
    ghost use Rattle.multivalued.specs.Laws.Opening.{multi_opens_down};
    ghost use Rattle.multivalued.specs.Stands.{MultiStands, multi_shown, shows_multi};

    ghost stands = { MultiStands B.stands B.rules };

    ghost rules = { multivalued B.rules };

    ghost live = { λ x. x.live };

    ghost shown = { multi_shown };

    fn new(alloc: Global, p: &Params, me: u8, a: u32, attempt: u8) -> Result<Mvc<B>, Mem> {
        Ok(Mvc {
            part: Part::new(p, me, a, attempt),
            inner: B::new(alloc, p, me, a, attempt)?,
            table: Table::new(alloc, p.support()),
            place: Progress {
                own: false,
                told: false,
                asked: false,
                round: 0,
                decided: Decision::NotYet,
            },
            live: true,
        })
    }

    fn propose(&mut self, alloc: Global, value: &[u8], says: &mut Vec<Say>) -> Result<(), Mem> {
        let mut made = Vec::new(alloc);
        let next = self.start(alloc, value, &mut made);
        self.end(next, &mut made, says)
    }

    fn heard<C: Coin>(
        &mut self,
        alloc: Global,
        coin: &C,
        slot: &Slot,
        value: &[u8],
        says: &mut Vec<Say>,
    ) -> Result<(), Mem> {
        let mut made = Vec::new(alloc);
        let next = self.hear(alloc, coin, slot, value, &mut made);
        self.end(next, &mut made, says)
    }

    fn is_open(&self, slot: &Slot) -> bool {
        is_open(&self.part, &self.place, slot)
    }

    fn decision(&self) -> Decided<'_> {
        match self.place.decided {
            Decision::NotYet => Decided::NotYet,
            Decision::Nothing => Decided::Nothing,
            Decision::At(at) => match self.table.value(at) {
                Some(value) => Decided::Value(value),
                None => Decided::NotYet,
            },
        }
    }

    fn live(&self) -> bool {
        self.live
    }

    ghost shows = { shows_multi B.stands B.rules };

    ghost multi_laws = { multi_laws_law B.rules B.box_laws };

    ghost one_decision = { one_decision_law B.rules B.box_laws B.one_bit };

    ghost opens_down = { multi_opens_down B.rules };
}
