//! Atomic broadcast over any rounds: commands are broadcast, and rounds append their identifiers to one log.

use crate::boxes::Boxes;
use crate::ledger::Ledger;
use crate::place::Place;
use crate::round_box::RoundBox;
use crate::rounds::{begin_round, learn, note_command};
use crate::saying::say_command;
use layer_api::{Outcome, Service, is_slot_in, put_out};
use ritas_base::{Coin, Id, Mem, Mode, NUMBER_LIMIT, Params, Say, Slot};
use std::alloc::Global;

/// Atomic broadcast over any rounds, for the root service whose rounds they are.
///
/// Each input is broadcast at the command slot of the replica's next number, from 0. Rounds are numbered from 0: a round
/// begins once the rounds before it are complete and a command was delivered that isn't in the identifier log. The
/// replica then proposes the identifiers of such commands, of each origin the least numbers, at most floor(64 / n) of
/// them. The round is complete once it is decided and the command of each identifier is delivered that the decision
/// wants; those that the log hasn't are appended to it in ascending order, by origin and then by number.
///
/// It keeps identifiers and no commands: those that were delivered and aren't in the log, and the log. In
/// versions 1 and 2 of a session it keeps of the rounds the boxes of the current one and of the two before
/// it, and what an older round delivers is past. In version 3 nothing is past: it keeps the box of each round
/// that began, to the end of the session, so that each round takes the memory of one box more. A slot of a
/// round costs what it costs the round's box, whichever round it is, and a command the logarithm of how many
/// identifiers are kept; while the current round waits, either costs that for each identifier that it waits
/// for, up to the first whose command isn't there. There are 1,000,000 rounds at most.
///
/// Memory is taken for identifiers, for boxes, for what is proposed and for what is said. After want of memory the value
/// isn't `live`; its getters then answer as before the word or as after it, and the log lies between.
///
/// Each origin's share and when a round begins are this project's own profile.
#[derive(Drop)]
pub struct Ordered<V: RoundBox> {
    place: Place,
    inputs: u32,
    ledger: Ledger,
    completed: u32,
    boxes: Boxes<V>,
    waits: Option<Vec<Id>>,
    live: bool,
}

impl<V: RoundBox> Ordered<V> {
    ghost use Rattle.std.specs.Prelude.{◌≡◌, OnOk, OnErr};
    ghost use Rattle.ordered_rounds.specs.OrderedGetters.{opens_round};
    ghost use Rattle.ordered_rounds.specs.OrderedStands.{OrderedEnds};
    ghost use Rattle.ordered_rounds.specs.Turning.{Completes, CompletesNot, RoundBegins, RoundSettles, SettlesNot, TakesCommand, LosesCommand, TakesRound, LosesRound, TakesWord, LosesWord};

    // Whether the instance of a slot's round, which began and is kept, takes its items.
    fn is_round_open(&self, slot: &Slot) -> bool
        ensures { result ≡ opens_round V.shown self.now.place.version self.now.place.last self.now.completed self.now.boxes slot.now }
    {
        slot.a < NUMBER_LIMIT
            && slot.a <= self.completed
            && self.place.keeps(self.completed, slot.a)
            && is_slot_in(self.place.last, slot.a, slot)
            && self.boxes.is_open(self.completed - slot.a, slot)
    }

    // Completes the current round, once all that it waits for is there. The memory for its box is taken first.
    fn complete(&mut self) -> Result<(), Mem>
        ensures ok { OnOk result (Completes V.stands V.rules V.shown self.old self.new) }
        ensures err { OnErr result (CompletesNot V.stands V.rules V.shown self.old self.new) }
    {
        let Some(ids) = &self.waits else {
            return Ok(());
        };
        if self.ledger.has_all(ids) {
            self.boxes.reserve(self.place.version)?;
            self.ledger.append_new(ids)?;
            self.boxes.shift(self.place.version);
            self.waits = None;
            self.completed = self.completed.saturating_add(1);
        }
        Ok(())
    }

    // Begins the current round, where it hasn't begun, one is left and something is pending.
    fn begin(&mut self, alloc: Global, made: &mut Vec<Say>) -> Result<(), Mem>
        ensures ok { OnOk result (RoundBegins V.stands V.rules V.shown self.old self.new made.old.items made.new.items) }
        ensures err { OnErr result (self.new ≡ self.old) }
    {
        if self.boxes.current.is_some()
            || self.completed >= NUMBER_LIMIT
            || !self.ledger.has_pending()
        {
            return Ok(());
        }
        let one = begin_round(alloc, &self.place, &self.ledger, self.completed, made)?;
        self.boxes.current = Some(one);
        Ok(())
    }

    // Does what follows from a word: the current round may become complete, and the next may begin.
    fn settle(&mut self, alloc: Global, made: &mut Vec<Say>) -> Result<(), Mem>
        ensures ok { OnOk result (RoundSettles V.stands V.rules V.shown self.old self.new made.old.items made.new.items) }
        ensures err { OnErr result (SettlesNot V.stands V.rules V.shown self.old self.new) }
    {
        learn(alloc, &self.place, &self.boxes.current, &mut self.waits)?;
        self.complete()?;
        self.begin(alloc, made)
    }

    // Takes the identifier of a command that a slot delivered, and says what follows.
    fn take_command(&mut self, alloc: Global, slot: &Slot, made: &mut Vec<Say>) -> Result<(), Mem>
        ensures ok { OnOk result (TakesCommand V.stands V.rules V.shown self.old self.new slot.now made.old.items made.new.items) }
        ensures err { OnErr result (LosesCommand V.stands V.rules V.shown self.old self.new slot.now) }
    {
        note_command(&mut self.ledger, slot)?;
        self.settle(alloc, made)
    }

    // The box of the slot's round hears what the slot delivered, and what follows is said.
    fn take_of_round<C: Coin>(
        &mut self,
        alloc: Global,
        coin: &C,
        slot: &Slot,
        value: &[u8],
        made: &mut Vec<Say>,
    ) -> Result<(), Mem>
        ensures ok { OnOk result (TakesRound V.stands V.rules V.shown (C.bits coin.now) self.old self.new slot.now value.now made.old.items made.new.items) }
        ensures err { OnErr result (LosesRound V.stands V.rules V.shown (C.bits coin.now) self.old self.new slot.now value.now) }
    {
        let before = self.completed.saturating_sub(slot.a);
        self.boxes.heard(alloc, coin, before, slot, value, made)?;
        if before != 0 {
            return Ok(());
        }
        self.settle(alloc, made)
    }

    // Takes what a slot delivered, and says what follows.
    fn take<C: Coin>(
        &mut self,
        alloc: Global,
        coin: &C,
        slot: &Slot,
        value: &[u8],
        made: &mut Vec<Say>,
    ) -> Result<(), Mem>
        ensures ok { OnOk result (TakesWord V.stands V.rules V.shown (C.bits coin.now) self.old self.new slot.now value.now made.old.items made.new.items) }
        ensures err { OnErr result (LosesWord V.stands V.rules V.shown (C.bits coin.now) self.old self.new slot.now value.now) }
    {
        match slot.class {
            1 => self.take_command(alloc, slot, made),
            _ => self.take_of_round(alloc, coin, slot, value, made),
        }
    }

    // Puts out what is said, last. For want of memory nothing is put out, and the value is live no more.
    fn end(
        &mut self,
        taken: Result<(), Mem>,
        made: &mut Vec<Say>,
        says: &mut Vec<Say>,
    ) -> Result<(), Mem>
        ensures { OrderedEnds self.old self.new taken made.old.items says.old.items says.new.items result }
    {
        match put_out(taken, made, says) {
            Ok(()) => Ok(()),
            Err(mem) => {
                self.live = false;
                Err(mem)
            }
        }
    }
}

impl<V: RoundBox> Service for Ordered<V> {
    ghost use Rattle.ordered_rounds.specs.Rounds.{ordered};
    ghost use Rattle.ordered_rounds.specs.OrderedStands.{OrderedStands};
    ghost use Rattle.ordered_rounds.specs.OrderedGetters.{ordered_shown};
    ghost use Rattle.ordered_rounds.specs.Laws.Getters.{shows_rules};
    ghost use Rattle.ordered_rounds.specs.Laws.LogLaw.{one_log_law};
    ghost use Rattle.ordered_rounds.specs.Laws.Opening.{ordered_opens_down};
    ghost use Rattle.ordered_rounds.specs.Laws.OrderedWords.{ordered_word_laws};

    ghost stands = { OrderedStands V.stands V.rules V.shown };

    ghost rules = { ordered V.rules };

    ghost live = { λ s. s.live };

    ghost shown = { ordered_shown V.shown };

    fn serves(root: u8) -> bool {
        root == V::service().number()
    }

    fn new(alloc: Global, p: &Params, mode: &Mode, me: u8) -> Result<Ordered<V>, Mem> {
        Ok(Ordered {
            place: Place::new(p, mode, me, V::service()),
            inputs: 0,
            ledger: Ledger::new(alloc),
            completed: 0,
            boxes: Boxes::none(alloc),
            waits: None,
            live: true,
        })
    }

    fn input(&mut self, alloc: Global, value: &[u8], says: &mut Vec<Say>) -> Result<(), Mem> {
        match say_command(alloc, self.place.me(), self.inputs, value, says) {
            Ok(()) => {
                self.inputs = self.inputs.saturating_add(1);
                Ok(())
            }
            Err(mem) => {
                self.live = false;
                Err(mem)
            }
        }
    }

    fn heard<C: Coin>(
        &mut self,
        alloc: Global,
        coin: &C,
        slot: &Slot,
        value: &[u8],
        says: &mut Vec<Say>,
    ) -> Result<(), Mem> {
        let mut made = Vec::new(alloc);
        let taken = self.take(alloc, coin, slot, value, &mut made);
        self.end(taken, &mut made, says)
    }

    fn is_open(&self, slot: &Slot) -> bool {
        slot.class == 1 || self.is_round_open(slot)
    }

    fn completed(&self) -> u32 {
        self.completed
    }

    fn base(&self, origin: u8) -> u32 {
        self.ledger.base(origin)
    }

    fn next_number(&self) -> u32 {
        self.inputs
    }

    fn given(&self) -> bool {
        false
    }

    fn done(&self) -> &[Id] {
        self.ledger.log()
    }

    fn outcome(&self) -> Outcome<'_> {
        if self.boxes.is_spent() {
            Outcome::Spent
        } else {
            Outcome::Undecided
        }
    }

    fn last_vector(&self) -> Option<(u32, u8, &[u8])> {
        self.boxes.last_vector(self.completed)
    }

    fn live(&self) -> bool {
        self.live
    }

    ghost lives = { λ s seat w stands. stands.seated.live };

    ghost shows = { shows_rules V.stands V.rules V.round_laws V.live V.shown V.shows };

    ghost word_laws = { ordered_word_laws V.rules V.round_laws };

    ghost one_log = { one_log_law V.rules V.round_laws V.one_round };

    ghost opens_down = { ordered_opens_down V.rules V.opens_down };
}
