//! The identifiers of delivered commands: the log has each once, in the order in which rounds append them.

ghost use Rattle.std.specs.Prelude.{◌≡◌, ℕ, ◌<◌, ◌≤◌, ◌↔◌, true, false, List, [], ◌∷◌, reverse, slice_index, IsTrue, OnOk, OnErr, IfOk};
ghost use Rattle.std.specs.List.{AllByRecursion};
ghost use Rattle.ritas_base.specs.declared.id.Id.{Id};
ghost use Rattle.ritas_base.specs.Limits.{number_limit};
ghost use Rattle.frame_codec.specs.Ids.{IsBelow};
ghost use Rattle.layer_api.specs.Service.{has_id};
ghost use Rattle.ordered_rounds.specs.Early.{Notes};
ghost use Rattle.ordered_rounds.specs.Identifiers.{passing_ids, is_without, all_pass, append_ids, IsSorted};
ghost use Rattle.ordered_rounds.specs.Rounds.{proposal, least_without};
ghost use Rattle.ordered_rounds.specs.Ledger.{LedgerStands, IsReady, at_bases, Appending, Between};

use crate::early::{advance, put_early};
use crate::limits::MOST_REPLICAS;
use crate::proposal::proposal;
use ritas_base::{Id, Mem, NUMBER_LIMIT};
use std::alloc::Global;
use std::collections::BTreeSet;

/// The identifiers of delivered commands: the log, and those that wait for it.
///
/// Of the log it keeps for each origin the least number that isn't there, and the numbers above that. So to tell whether
/// an identifier is in the log costs the logarithm of how many stand above a gap, whatever the log's length.
#[derive(Drop)]
pub(crate) struct Ledger {
    pending: BTreeSet<Id>,
    bases: [u32; MOST_REPLICAS],
    early: BTreeSet<Id>,
    log: Vec<Id>,
}

// Notes that a number of an origin is in the log.
fn note(bases: &mut [u32; MOST_REPLICAS], early: &mut BTreeSet<Id>, id: Id) -> Result<(), Mem>
    requires origin { id.origin < 31 }
    requires number { id.num < number_limit }
    ensures { OnOk result (Notes 31 id.origin id.num bases.old bases.new early.old early.new) }
{
    let base = bases[id.origin as usize];
    if id.num == base {
        bases[id.origin as usize] = advance(early, id.origin, id.num + 1);
    } else if id.num > base {
        put_early(early, id.origin, id.num)?;
    }
    Ok(())
}

impl Ledger {
    /// The ledger before any command. It takes no memory.
    pub(crate) fn new(alloc: Global) -> Ledger
        ensures { LedgerStands result [] [] }
    {
        Ledger {
            pending: BTreeSet::new(alloc),
            bases: [0; MOST_REPLICAS],
            early: BTreeSet::new(alloc),
            log: Vec::new(alloc),
        }
    }

    /// The identifier log, the oldest first.
    pub(crate) fn log(&self) -> &[Id]
        ensures items { result.now ≡ self.now.log.items }
        ensures log { (delivered log : List Id) → LedgerStands self.now delivered log → result.now ≡ reverse log }
    {
        self.log.as_slice()
    }

    /// An origin's least number that isn't in the log; 0 for origins from 31 on, which there are none of.
    pub(crate) fn base(&self, origin: u8) -> u32
        ensures least { (delivered log : List Id) → LedgerStands self.now delivered log → origin < 31 → result ≡ least_without log origin }
        ensures near { origin < 31 → result ≡ slice_index self.now.bases origin }
        ensures far { 31 ≤ origin → result ≡ 0 }
    {
        self.bases.get(origin as usize).copied().unwrap_or(0)
    }

    /// Whether a command was delivered that isn't in the log.
    pub(crate) fn has_pending(&self) -> bool
        ensures { (delivered log : List Id) → LedgerStands self.now delivered log → IsTrue result ↔ (passing_ids (is_without log) delivered ≡ [] → ⊥) }
    {
        !self.pending.is_empty()
    }

    /// Whether the identifier's command was delivered.
    pub(crate) fn has_command(&self, id: Id) -> bool
        requires { id.origin < 31 }
        ensures { (delivered log : List Id) → LedgerStands self.now delivered log → result ≡ has_id delivered id }
    {
        self.pending.contains(&id) || self.has(&self.bases, id)
    }

    // Whether it is in the log, where these are the bases.
    fn has(&self, bases: &[u32; MOST_REPLICAS], id: Id) -> bool
        requires { id.origin < 31 }
        ensures { (delivered log : List Id) → LedgerStands (at_bases self.now bases.now) delivered log → result ≡ has_id log id }
    {
        id.num < bases[id.origin as usize] || self.early.contains(&id)
    }

    /// Takes the identifier of a command that was delivered. After `Err` the ledger is as before.
    pub(crate) fn deliver(&mut self, id: Id) -> Result<(), Mem>
        requires origin { id.origin < 31 }
        ensures ok { OnOk result ((delivered log : List Id) → has_id delivered id ≡ false → LedgerStands self.old delivered log → LedgerStands self.new (id ∷ delivered) log) }
        ensures err { OnErr result ((delivered log : List Id) → LedgerStands self.old delivered log → LedgerStands self.new delivered log) }
        ensures kept { self.new ≡ record self.old { pending = self.new.pending } }
    {
        self.pending.insert(id)?;
        Ok(())
    }

    // Appends the identifier of a delivered command to the log, and raises these bases. After `Err` the log is as before.
    fn append(&mut self, bases: &mut [u32; MOST_REPLICAS], id: Id) -> Result<(), Mem>
        requires origin { id.origin < 31 }
        requires number { id.num < number_limit }
        ensures ok { OnOk result ((delivered log : List Id) → has_id delivered id ≡ true → LedgerStands (at_bases self.old bases.old) delivered log
            → LedgerStands (at_bases self.new bases.new) delivered (id ∷ log)) }
        ensures err { OnErr result (self.new.log.items ≡ self.old.log.items) }
        ensures bases { self.new.bases ≡ self.old.bases }
    {
        note(bases, &mut self.early, id)?;
        self.log.push(id)?;
        self.pending.remove(&id);
        Ok(())
    }

    // Appends the identifier of a delivered command, where the log doesn't have it.
    fn append_one(&mut self, bases: &mut [u32; MOST_REPLICAS], id: Id) -> Result<(), Mem>
        ensures ok { OnOk result ((delivered log rest : List Id) → IsReady delivered id → AllByRecursion (IsBelow id) rest
            → LedgerStands (at_bases self.old bases.old) delivered log → Appending (at_bases self.new bases.new) delivered log (id ∷ rest) rest) }
        ensures err { OnErr result (self.new.log.items ≡ self.old.log.items) }
        ensures bases { self.new.bases ≡ self.old.bases }
    {
        if (id.origin as usize) < MOST_REPLICAS && id.num < NUMBER_LIMIT && !self.has(bases, id) {
            self.append(bases, id)?;
        }
        Ok(())
    }

    /// Appends those that the log doesn't have, of ascending identifiers of delivered commands.
    ///
    /// After `Err` some of them may be appended, in their order; the bases are as before.
    pub(crate) fn append_new(&mut self, wanted: &[Id]) -> Result<(), Mem>
        ensures ok { OnOk result ((delivered log : List Id) → AllByRecursion (IsReady delivered) wanted.now → IsSorted wanted.now
            → LedgerStands self.old delivered log → LedgerStands self.new delivered (append_ids (passing_ids (is_without log) wanted.now) log)) }
        ensures err { OnErr result ((delivered log : List Id) → AllByRecursion (IsReady delivered) wanted.now → IsSorted wanted.now
            → LedgerStands self.old delivered log → Between self.old self.new wanted.now log) }
    {
        let mut bases = self.bases;
        for id in wanted {
            self.append_one(&mut bases, *id)?;
        }
        self.bases = bases;
        Ok(())
    }

    /// Whether the commands of all these were delivered.
    pub(crate) fn has_all(&self, wanted: &[Id]) -> bool
        ensures { (delivered log : List Id) → LedgerStands self.now delivered log → result ≡ all_pass (has_id delivered) wanted.now }
    {
        for id in wanted {
            if id.origin as usize >= MOST_REPLICAS || !self.has_command(*id) {
                return false;
            }
        }
        true
    }

    /// What a round is proposed.
    pub(crate) fn proposal(&self, alloc: Global, n: u8) -> Result<Vec<Id>, Mem>
        requires { 1 ≤ n }
        ensures { IfOk result (λ taken. (delivered log : List Id) → LedgerStands self.now delivered log → taken.items ≡ proposal n (passing_ids (is_without log) delivered)) }
    {
        let taken = proposal(alloc, n, &self.pending)?;
        Ok(taken)
    }
}
