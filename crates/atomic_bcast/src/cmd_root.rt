//! The service of commands alone: each input is broadcast under the next number, and nothing is put in order.

ghost use Rattle.std.specs.Prelude.{◌≡◌, ℕ, ◌==◌, ◌&&◌, ◌||◌, not, OnOk, OnErr};
ghost use Rattle.ordered_rounds.specs.Early.{Notes};

use layer_api::{Outcome, Service};
use ordered_rounds::{MOST_REPLICAS, advance, put_early, say_command};
use ritas_base::{Coin, Id, Mem, Mode, NUMBER_LIMIT, Params, Say, Slot};
use std::alloc::Global;
use std::collections::BTreeSet;

/// The service of commands alone, for root services 1 and 2.
///
/// Each input is broadcast at the command slot of the replica's next number, from 0. A command that a slot delivers
/// raises the base of its origin: the least number at which none of the origin's commands was delivered. Nothing is
/// decided, so there are no rounds, and the identifier log stays empty.
///
/// It keeps one number for each origin, and those of the commands that were delivered before others of lower numbers:
/// in the window of 64 at most 63 for each origin. What a slot delivers costs the logarithm of their number. Numbers
/// are below 1,000,000, and the replicas at most 31.
///
/// The commands are those of the atomic broadcast of Correia, Neves and Veríssimo, "From Consensus to Atomic
/// Broadcast" (The Computer Journal, 2006), before they are ordered.
#[derive(Drop)]
pub struct CmdRoot {
    numbers: Params,
    me: u8,
    inputs: u32,
    bases: [u32; MOST_REPLICAS],
    early: BTreeSet<Id>,
    live: bool,
}

impl CmdRoot {
    // Notes that a command was delivered.
    fn note(&mut self, origin: u8, num: u32) -> Result<(), Mem>
        ensures kept { self.new ≡ record self.old { bases = self.new.bases; early = self.new.early } }
        ensures noted { OnOk result
            (Notes self.old.numbers.n origin num self.old.bases self.new.bases self.old.early self.new.early) }
        ensures lost { OnErr result (self.new.bases ≡ self.old.bases) }
    {
        if origin >= self.numbers.n() || num >= NUMBER_LIMIT {
            return Ok(());
        }
        let base = self.bases[origin as usize];
        if num == base {
            self.bases[origin as usize] = advance(&mut self.early, origin, num + 1);
        } else if num > base {
            put_early(&mut self.early, origin, num)?;
        }
        Ok(())
    }
}

impl Service for CmdRoot {
    ghost use Rattle.atomic_bcast.specs.Commands.{commands};
    ghost use Rattle.atomic_bcast.specs.Laws.Commands.{command_laws, command_log, commands_open_down};
    ghost use Rattle.atomic_bcast.specs.CmdRoot.{CommandsStand};
    ghost use Rattle.atomic_bcast.specs.CmdRootGetters.{commands_shown, shows_rules};

    ghost stands = { CommandsStand };

    ghost rules = { commands };

    ghost live = { λ s. s.live };

    ghost shown = { commands_shown };

    fn serves(root: u8) -> bool {
        root == 1 || root == 2
    }

    fn new(alloc: Global, p: &Params, _mode: &Mode, me: u8) -> Result<CmdRoot, Mem> {
        Ok(CmdRoot {
            numbers: *p,
            me,
            inputs: 0,
            bases: [0; MOST_REPLICAS],
            early: BTreeSet::new(alloc),
            live: true,
        })
    }

    fn input(&mut self, alloc: Global, value: &[u8], says: &mut Vec<Say>) -> Result<(), Mem> {
        match say_command(alloc, self.me, self.inputs, value, says) {
            Ok(()) => {
                self.inputs = self.inputs.saturating_add(1);
                Ok(())
            }
            Err(mem) => {
                self.live = false;
                Err(mem)
            }
        }
    }

    fn heard<C: Coin>(
        &mut self,
        _alloc: Global,
        _coin: &C,
        slot: &Slot,
        _value: &[u8],
        _says: &mut Vec<Say>,
    ) -> Result<(), Mem> {
        if slot.class != 1 || slot.attempt != 0 || slot.bround != 0 || slot.step != 0 {
            return Ok(());
        }
        match self.note(slot.origin, slot.a) {
            Ok(()) => Ok(()),
            Err(mem) => {
                self.live = false;
                Err(mem)
            }
        }
    }

    fn is_open(&self, slot: &Slot) -> bool {
        slot.class == 1
    }

    fn completed(&self) -> u32 {
        0
    }

    fn base(&self, origin: u8) -> u32 {
        self.bases.get(origin as usize).copied().unwrap_or(0)
    }

    fn next_number(&self) -> u32 {
        self.inputs
    }

    fn given(&self) -> bool {
        false
    }

    fn done(&self) -> &[Id] {
        &[]
    }

    fn outcome(&self) -> Outcome<'_> {
        Outcome::Undecided
    }

    fn last_vector(&self) -> Option<(u32, u8, &[u8])> {
        None
    }

    fn live(&self) -> bool {
        self.live
    }

    ghost lives = { λ s seat w stands. stands.live };

    ghost shows = { shows_rules };

    ghost word_laws = { command_laws };

    ghost one_log = { command_log };

    ghost opens_down = { commands_open_down };
}
