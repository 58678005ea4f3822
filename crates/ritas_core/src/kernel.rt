//! One replica without its channels: each item, input and turn is checked, taken or held, and what becomes due goes out in order.

ghost use Rattle.std.specs.Prelude.{◌≡◌, ◌<◌, ◌^◌, if◌then◌else◌};
ghost use Rattle.ritas_base.specs.Versions.{has_past};
ghost use Rattle.instance_tree.specs.declared.span.Span.TheVariants.{Window, Session};
ghost use Rattle.ritas_core.specs.Checks.{body_length};
ghost use Rattle.ritas_core.specs.CoreCalls.{is_mem};

use crate::answer::Answer;
use crate::fault::CoreFault;
use crate::judge::judge;
use crate::layers::Layers;
use crate::steps::take_front;
use crate::verdict::Verdict;
use frame_codec::spelled;
use instance_tree::{Span, Tree};
use layer_api::{Broadcast, Service};
use ooc_buffers::{Held, HoldFault};
use ritas_base::{Coin, FrameVersion, Item, Mem, Mode, Msg, Params, Tagger};
use std::alloc::Global;
use std::collections::{BTreeMap, VecDeque};

/// One replica without its channels: its layers, the items that wait for it, and those that it holds.
#[derive(Drop)]
pub struct Core<S: Service, E: Broadcast, C: Coin + Drop, T: Tagger + Drop> {
    pub(crate) layers: Layers<S, E, C, T>,
    pub(crate) inbox: VecDeque<Item>,
    pub(crate) held: Held,
    pub(crate) stopped: bool,
}

/// How many bytes an item is spelled with, where a `u32` holds that.
fn length_of(item: &Item) -> u32
    ensures { body_length item.now < 2 ^ 32 → result ≡ body_length item.now }
{
    let len = item.value.as_slice().len() as u64;
    u32::try_from(10 + len).unwrap_or(u32::MAX)
}

/// How far apart the slots are of which broadcasts are kept: where nothing is past, those of the whole session are.
fn span_of(version: FrameVersion) -> Span
    ensures { result ≡ (if has_past version then Window else Session) }
{
    if version.has_past() {
        Span::Window
    } else {
        Span::Session
    }
}

/// Whether there was not enough memory.
fn is_mem(answer: &Result<Answer, CoreFault>) -> bool
    ensures { result ≡ is_mem answer.now }
{
    matches!(answer, Err(CoreFault::Mem))
}

impl<S: Service, E: Broadcast, C: Coin + Drop, T: Tagger + Drop> Core<S, E, C, T> {
    ghost use Rattle.std.specs.Prelude.{◌≡◌, ◌<◌, true, false, List, [], ◌∷◌, IfOk, replicate};
    ghost use Rattle.ritas_base.specs.declared.item.Item.{Item};
    ghost use Rattle.ritas_base.specs.declared.item.Msg.{Msg};
    ghost use Rattle.ooc_buffers.specs.Lists.{is_held};
    ghost use Rattle.ritas_core.specs.declared.verdict.Verdict.TheVariants as verdicts;
    ghost use Rattle.ritas_core.specs.Rules.{casts_by, other_form};
    ghost use Rattle.ritas_core.specs.Machine.{Frame, Input, Turn, first_state};
    ghost use Rattle.ritas_core.specs.Stands.{meaning, CoreStands};
    ghost use Rattle.ritas_core.specs.Calls.{DoesAll};
    ghost use Rattle.ritas_core.specs.Shown.{tagger_of};
    ghost use Rattle.ritas_core.specs.CoreCalls.{DoesHere, DoesJudged, GivesFront, CopiesToHold, IsVerdictTold, FrontIsTold};

    /// The core of replica `me`, with no history: nothing waits, and nothing is held. The one error is want of memory.
    ///
    /// The tagger is the replica's, the service serves the mode's root service, and the form of the other broadcast, by
    /// which VECTs go and the commands of root service 2, is 2 in root service 2 or where VECT goes by echo broadcast, and
    /// otherwise that of the reliable broadcast of VECTs in the mode's version of frames: 1 in version 1, 3 in versions 2
    /// and 3.
    pub fn new(alloc: Global, p: Params, mode: Mode, me: u8, t: T, coin: C) -> Result<Self, Mem>
        requires below { me < p.n }
        requires own { T.me t ≡ me }
        requires form { E.FORM ≡ other_form mode }
        requires serves { S.rules.serves mode.root ≡ true }
        ensures stands { let m = meaning S.stands S.rules S.shown E.stands E.rules E.shown C.bits T.me T.tags in
            IfOk result (λ core. CoreStands m core (record {
              mode = mode;
              casts = casts_by mode p me (T.tags t) E.rules;
              coin = C.bits coin;
              service = S.rules;
            }) (first_state (replicate p.n []))) }
        ensures tagger { IfOk result (λ core. tagger_of core ≡ t) }
    {
        let held = Held::new(alloc, p.n())?;
        let service = S::new(alloc, &p, &mode, me)?;
        Ok(Core {
            layers: Layers {
                params: p,
                mode,
                me,
                tagger: t,
                coin,
                service,
                casts: Tree::new(alloc, span_of(mode.version)),
                outputs: BTreeMap::new(alloc),
            },
            inbox: VecDeque::new(alloc),
            held,
            stopped: false,
        })
    }

    // Holds an item, if there is room for it.
    fn hold(&mut self, alloc: Global, item: Item) -> Result<Answer, CoreFault>
        requires { is_held self.old.held item ≡ false }
        ensures does { let m = meaning S.stands S.rules S.shown E.stands E.rules E.shown C.bits T.me T.tags in
            (sent : List Msg) → DoesJudged m self.old self.new verdicts.Hold item sent sent result }
        ensures tagger { tagger_of self.new ≡ tagger_of self.old }
    {
        // No such item comes: an item is from a replica.
        if usize::from(item.from) >= self.held.peers() {
            return Ok(Answer::Repeat);
        }
        // The law that an item's spelling is short.
        spelled();
        let len = length_of(&item);
        match self.held.hold(alloc, item, len) {
            Ok(()) => Ok(Answer::Held),
            Err(HoldFault::HeldFull(bytes)) => Err(CoreFault::HeldFull(bytes)),
            Err(HoldFault::Mem) => Err(CoreFault::Mem),
        }
    }

    // A copy of the item at the front of the inbox, which is to be held, if there is room for it.
    fn copy_front(&self, alloc: Global) -> Result<Item, CoreFault>
        ensures { let m = meaning S.stands S.rules S.shown E.stands E.rules E.shown C.bits T.me T.tags in
            (item : Item) (rest : List Item) → self.now.inbox.items ≡ item ∷ rest → CopiesToHold m self.now item result }
    {
        let Some(item) = self.inbox.front() else {
            // No such inbox comes.
            return Err(CoreFault::Mem);
        };
        // The law that an item's spelling is short.
        spelled();
        if let Some(bytes) = self.held.full_for(item.from, length_of(item)) {
            return Err(CoreFault::HeldFull(bytes));
        }
        match item.copy(alloc) {
            Ok(copy) => Ok(copy),
            Err(_) => Err(CoreFault::Mem),
        }
    }

    // What is done with an item.
    fn judged(&self, item: &Item) -> Verdict
        ensures { let m = meaning S.stands S.rules S.shown E.stands E.rules E.shown C.bits T.me T.tags in
            IsVerdictTold m self.now item.now result }
    {
        judge(&self.layers, self.held.has(item), item)
    }

    // What is done with the item at the front of the inbox.
    fn judged_front(&self) -> Option<Verdict>
        ensures { let m = meaning S.stands S.rules S.shown E.stands E.rules E.shown C.bits T.me T.tags in
            FrontIsTold m self.now result }
    {
        match self.inbox.front() {
            Some(item) => Some(self.judged(item)),
            None => None,
        }
    }

    // Takes, holds or refuses an item. The core isn't stopped.
    fn step(&mut self, alloc: Global, item: Item, out: &mut Vec<Msg>) -> Result<Answer, CoreFault>
        ensures does { let m = meaning S.stands S.rules S.shown E.stands E.rules E.shown C.bits T.me T.tags in
            DoesHere m self.old self.new (Frame item) out.old.items out.new.items result }
        ensures tagger { tagger_of self.new ≡ tagger_of self.old }
    {
        match self.judged(&item) {
            Verdict::Refuse(fault) => Err(fault),
            Verdict::Again => Ok(Answer::Repeat),
            Verdict::Hold => self.hold(alloc, item),
            Verdict::Take => {
                let mut made = Vec::new(alloc);
                let heard = self.layers.take(alloc, &item, &mut made);
                self.pass_on(alloc, heard, made, out)
            }
        }
    }

    // Takes an input that passed the checks. For want of memory the core stops.
    fn give(&mut self, alloc: Global, value: &[u8], out: &mut Vec<Msg>) -> Result<Answer, CoreFault>
        ensures does { let m = meaning S.stands S.rules S.shown E.stands E.rules E.shown C.bits T.me T.tags in
            DoesHere m self.old self.new (Input value.now) out.old.items out.new.items result }
        ensures tagger { tagger_of self.new ≡ tagger_of self.old }
    {
        if let Some(fault) = self.layers.input_fault(value) {
            return Err(fault);
        }
        match self.try_input(alloc, value, out) {
            Ok(()) => Ok(Answer::Took),
            Err(_) => {
                self.stopped = true;
                Err(CoreFault::Mem)
            }
        }
    }

    // Takes, holds or refuses the item at the front of the inbox, which stays there.
    fn give_front(&mut self, alloc: Global, out: &mut Vec<Msg>) -> Result<Answer, CoreFault>
        ensures does { let m = meaning S.stands S.rules S.shown E.stands E.rules E.shown C.bits T.me T.tags in
            GivesFront m self.old self.new out.old.items out.new.items result }
        ensures tagger { tagger_of self.new ≡ tagger_of self.old }
    {
        match self.judged_front() {
            None => Ok(Answer::Idle),
            Some(Verdict::Refuse(fault)) => Err(fault),
            Some(Verdict::Again) => Ok(Answer::Repeat),
            Some(Verdict::Hold) => match self.copy_front(alloc) {
                Ok(copy) => self.hold(alloc, copy),
                Err(fault) => Err(fault),
            },
            Some(Verdict::Take) => {
                let mut made = Vec::new(alloc);
                let heard = take_front(alloc, &mut self.layers, &self.inbox, &mut made);
                self.pass_on(alloc, heard, made, out)
            }
        }
    }

    // Gives the item at the front of the inbox, which leaves it, but for want of memory.
    fn step_front(&mut self, alloc: Global, out: &mut Vec<Msg>) -> Result<Answer, CoreFault>
        ensures does { let m = meaning S.stands S.rules S.shown E.stands E.rules E.shown C.bits T.me T.tags in
            DoesHere m self.old self.new Turn out.old.items out.new.items result }
        ensures tagger { tagger_of self.new ≡ tagger_of self.old }
    {
        let answer = self.give_front(alloc, out);
        if is_mem(&answer) {
            return answer;
        }
        self.inbox.pop_front();
        answer
    }

    /// Takes an item, holds it, or refuses it, and appends to `out` the messages that become due by it, by slot, kind and
    /// receiver.
    ///
    /// The item is in the grammar and from a replica of the session. It passes these checks in this order:
    ///
    /// - `Stopped`: a step before was without memory.
    /// - `NotOrigin` and `NotForMe`: the kind's sender, or its receiver, is the slot's origin alone.
    /// - `Past`, in versions 1 and 2 alone, and `Ahead`, with what the window is counted from. `Past`: a command number more
    ///   than 64 below the least of its origin that isn't finished, or a round more than 2 below the number of complete
    ///   rounds. `Ahead`: a command number at least 64 above that, or a round more than 4 above that.
    /// - `Repeat`, an answer: one of its sender, slot and kind was taken or is held; a column that isn't open, where it is
    ///   held; an open column, where it brings nothing new.
    /// - Where it isn't open, `HeldFull`, with the sender's held bytes, if these and its own are more than 1,048,576, and
    ///   else the answer `Held`.
    ///
    /// Otherwise the answer is `Took`: the messages for all and for oneself join the inbox, then the held items that are
    /// open now do, by peer and in their order, and held items that are past are dropped, which none is in version 3.
    ///
    /// `Mem` comes only while an item is held or taken. `out` is then as before. Where the item was to be held, the core
    /// is as before too; otherwise it is stopped, and keeps what waits and what is held.
    pub fn take(
        &mut self,
        alloc: Global,
        item: Item,
        out: &mut Vec<Msg>,
    ) -> Result<Answer, CoreFault>
        ensures does { let m = meaning S.stands S.rules S.shown E.stands E.rules E.shown C.bits T.me T.tags in
            DoesAll m self.old self.new (Frame item) out.old.items out.new.items result }
        ensures tagger { tagger_of self.new ≡ tagger_of self.old }
    {
        if self.stopped {
            return Err(CoreFault::Stopped);
        }
        self.step(alloc, item, out)
    }

    /// Takes an input of the root service, or refuses it, and appends to `out` the messages that become due by it.
    ///
    /// The checks, in this order: `Stopped`; `Input`, with the offset of the first byte that is wrong, missing or too
    /// much; `InputTaken`, where the root service has one instance and has its input; `WindowFull`, with the next number,
    /// where that is at least 64 above the least that isn't finished, or is 1,000,000. Otherwise the answer is `Took`.
    ///
    /// For want of memory `out` is as before, and the core is stopped, and keeps what waits and what is held.
    pub fn input(
        &mut self,
        alloc: Global,
        bytes: &[u8],
        out: &mut Vec<Msg>,
    ) -> Result<Answer, CoreFault>
        ensures does { let m = meaning S.stands S.rules S.shown E.stands E.rules E.shown C.bits T.me T.tags in
            DoesAll m self.old self.new (Input bytes.now) out.old.items out.new.items result }
        ensures tagger { tagger_of self.new ≡ tagger_of self.old }
    {
        if self.stopped {
            return Err(CoreFault::Stopped);
        }
        self.give(alloc, bytes, out)
    }

    /// Takes the item at the front out of the inbox, and gives it as `take` does. The answer is `Idle` where none waits. For
    /// want of memory the item stays at the front.
    pub fn turn(&mut self, alloc: Global, out: &mut Vec<Msg>) -> Result<Answer, CoreFault>
        ensures does { let m = meaning S.stands S.rules S.shown E.stands E.rules E.shown C.bits T.me T.tags in
            DoesAll m self.old self.new Turn out.old.items out.new.items result }
        ensures tagger { tagger_of self.new ≡ tagger_of self.old }
    {
        if self.stopped {
            return Err(CoreFault::Stopped);
        }
        self.step_front(alloc, out)
    }
}
