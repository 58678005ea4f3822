//! One instance of binary consensus: votes are heard, the steps go on by them, and the first bit that a round decides stays.

ghost use Rattle.std.specs.Prelude.{◌≡◌, OnErr, IfOk};
ghost use Rattle.binary_consensus.specs.Stands.{Votes, with_place};

use crate::going::go_on;
use crate::line::Line;
use crate::part::{Part, line_of};
use crate::place::Place;
use layer_api::BinaryBox;
use ritas_base::{Coin, Mem, Params, Say, Slot};
use std::alloc::Global;

/// One replica's part in one instance of binary consensus.
///
/// It keeps a row for each step up to the greatest one with a vote, of which there are at most 600: a byte for each sender,
/// and how many votes of each value are accepted. A vote is one byte written, and then the rows are counted of its step and
/// of those above it up to the first whose accepted votes stay as they were; each step that is left costs a few comparisons
/// more. Once no more can be said, votes cost nothing. Memory is taken for rows and for what is said.
///
/// The protocol is that of G. Bracha, "Asynchronous Byzantine Agreement Protocols" (1987).
#[derive(Drop)]
pub struct Bin {
    part: Part,
    line: Line,
    place: Place,
    live: bool,
}

impl Bin {
    // Hears a vote, says what follows, and answers how far the box then has come. What is said is put out last.
    fn hear<C: Coin>(
        &mut self,
        alloc: Global,
        coin: &C,
        slot: &Slot,
        value: u8,
        says: &mut Vec<Say>,
    ) -> Result<Place, Mem>
        ensures kept { self.new ≡ record self.old { line = self.new.line } }
        ensures ok { IfOk result (λ place. Votes (C.bits coin.now) self.old slot.now value says.old.items says.new.items (with_place self.new place)) }
        ensures err { OnErr result (says.new.items ≡ says.old.items) }
    {
        let Some(t) = line_of(slot) else {
            return Ok(self.place);
        };
        if self.place.ended || self.place.said == 0 {
            return Ok(self.place);
        }
        self.line.hear(t, slot.origin, value)?;
        let mut made = Vec::new(alloc);
        let place = go_on(alloc, &self.part, &self.line, coin, self.place, &mut made)?;
        says.append(&mut made)?;
        Ok(place)
    }
}

impl BinaryBox for Bin {
    ghost use Rattle.binary_consensus.specs.Consensus.{binary};
    ghost use Rattle.binary_consensus.specs.Laws.FirstStep.{one_bit_law};
    ghost use Rattle.binary_consensus.specs.Laws.Box.{box_laws_hold};
    ghost use Rattle.binary_consensus.specs.Stands.{BinaryStands, binary_shown, shows_box};

    ghost stands = { BinaryStands };

    ghost rules = { binary };

    ghost live = { λ b. b.live };

    ghost shown = { binary_shown };

    fn new(alloc: Global, p: &Params, me: u8, a: u32, attempt: u8) -> Result<Bin, Mem> {
        Ok(Bin {
            part: Part { me, a, attempt },
            line: Line::new(alloc, p),
            place: Place {
                said: 0,
                ended: false,
                decided: None,
            },
            live: true,
        })
    }

    fn propose(&mut self, alloc: Global, bit: bool, says: &mut Vec<Say>) -> Result<(), Mem> {
        if self.place.said > 0 {
            return Ok(());
        }
        match self.part.say(alloc, 0, u8::from(bit), says) {
            Ok(()) => {
                self.place = Place {
                    said: 1,
                    ended: false,
                    decided: None,
                };
                Ok(())
            }
            Err(mem) => {
                self.live = false;
                Err(mem)
            }
        }
    }

    fn heard<C: Coin>(
        &mut self,
        alloc: Global,
        coin: &C,
        slot: &Slot,
        value: u8,
        says: &mut Vec<Say>,
    ) -> Result<(), Mem> {
        match self.hear(alloc, coin, slot, value, says) {
            Ok(place) => {
                self.place = place;
                Ok(())
            }
            Err(mem) => {
                self.live = false;
                Err(mem)
            }
        }
    }

    fn round(&self) -> u8 {
        ((self.place.said + 2) / 3) as u8
    }

    fn decision(&self) -> Option<bool> {
        self.place.decided
    }

    fn rounds_over(&self) -> bool {
        self.place.ended && self.place.decided.is_none()
    }

    fn live(&self) -> bool {
        self.live
    }

    ghost shows = { shows_box };

    ghost box_laws = { box_laws_hold };

    ghost one_bit = { one_bit_law };
}
