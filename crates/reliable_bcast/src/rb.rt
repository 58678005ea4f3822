//! One replica's part in a reliable broadcast with values: what it counts, and what becomes due by each item.

ghost use Rattle.std.specs.Prelude.{◌≡◌, ◌++◌, IfOk, OnErr, OnOk, None, Some, replicate, true, false};
ghost use Rattle.std.specs.Option.{option_copied};
ghost use Rattle.reliable_bcast.specs.State.{settled_by_value, carried_by_value, ready_message, HearsByValue};

use crate::saying::say;
use crate::votes::Votes;
use layer_api::Heard;
use ritas_base::{Bytes, Item, Kind, Mem, Msg, Params, Slot};
use std::alloc::Global;

/// One replica's part in one reliable broadcast whose ECHO and READY carry the value.
#[derive(Drop)]
pub struct Rb {
    params: Params,
    pub(crate) slot: Slot,
    echoed: bool,
    readied: bool,
    echoes: Votes,
    readies: Votes,
    delivered: Option<Bytes>,
    pub(crate) live: bool,
}

impl Rb {
    /// Before any call.
    pub(crate) fn make(alloc: Global, params: &Params, slot: Slot) -> Rb
        ensures { result ≡ record {
          params = params.now;
          slot = slot;
          echoed = false;
          readied = false;
          echoes = replicate params.now.n None;
          readies = replicate params.now.n None;
          delivered = None;
          live = true;
        } }
    {
        let n = params.n();
        Rb {
            params: *params,
            slot,
            echoed: false,
            readied: false,
            echoes: Votes::new(alloc, n),
            readies: Votes::new(alloc, n),
            delivered: None,
            live: true,
        }
    }

    /// Says READY of a value where it has the votes, once.
    fn settle(&mut self, alloc: Global, value: &Bytes, out: &mut Vec<Msg>) -> Result<(), Mem>
        ensures state { OnOk result (self.new ≡ settled_by_value self.old value.now) }
        ensures said { OnOk result (out.new.items ≡ out.old.items ++ ready_message self.old value.now) }
        ensures err { OnErr result ((self.new ≡ self.old) × (out.new.items ≡ out.old.items)) }
    {
        if self.readied {
            return Ok(());
        }
        if self.echoes.count(value) >= self.params.q()
            || self.readies.count(value) >= self.params.ready()
        {
            say(self.slot, Kind::Ready, value.copy(alloc)?, out)?;
            self.readied = true;
        }
        Ok(())
    }

    /// Delivers a value where it has the votes, once.
    fn carry(&mut self, alloc: Global, value: &Bytes) -> Result<(), Mem>
        ensures ok { OnOk result (self.new ≡ carried_by_value self.old value.now) }
        ensures err { OnErr result (self.new ≡ self.old) }
    {
        if self.delivered.is_some() {
            return Ok(());
        }
        if self.readies.count(value) >= self.params.deliver() {
            self.delivered = Some(value.copy(alloc)?);
        }
        Ok(())
    }

    /// Counts an item, and says what becomes due by it. The message is pushed last, so that `out` is as before for
    /// want of memory.
    pub(crate) fn hear(
        &mut self,
        alloc: Global,
        item: &Item,
        out: &mut Vec<Msg>,
    ) -> Result<Heard, Mem>
        ensures { HearsByValue self.old self.new item.now out.old.items out.new.items result }
    {
        match item.kind {
            Kind::Init => {
                if self.echoed {
                    return Ok(Heard::Repeat);
                }
                say(self.slot, Kind::Echo, item.value.copy(alloc)?, out)?;
                self.echoed = true;
                Ok(Heard::Took)
            }
            Kind::Echo => {
                if !self.echoes.awaits(item.from) {
                    return Ok(Heard::Repeat);
                }
                self.echoes.vote(alloc, item.from, &item.value)?;
                self.settle(alloc, &item.value, out)?;
                Ok(Heard::Took)
            }
            Kind::Ready => {
                if !self.readies.awaits(item.from) {
                    return Ok(Heard::Repeat);
                }
                self.readies.vote(alloc, item.from, &item.value)?;
                self.carry(alloc, &item.value)?;
                self.settle(alloc, &item.value, out)?;
                Ok(Heard::Took)
            }
            Kind::Send | Kind::Hashes | Kind::Column | Kind::Want | Kind::Value => {
                Ok(Heard::Repeat)
            },
        }
    }

    /// What is delivered.
    pub(crate) fn value(&self) -> Option<&[u8]>
        ensures { option_copied result ≡ self.now.delivered }
    {
        match &self.delivered {
            None => None,
            Some(value) => Some(value.as_slice()),
        }
    }
}
