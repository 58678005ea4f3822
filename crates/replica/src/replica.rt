//! One replica with its channels and its log: frames of bytes come, and frames of bytes go out.

use crate::following::follow;
use crate::frame::OutFrame;
use crate::refusal::Refusal;
use crate::sending::{append_bytes, send};
use command_log::{Log, Rows};
use frame_codec::read_body;
use keyed_channel::{Channel, Keys, LazyFrame};
use layer_api::{Broadcast, Service};
use ritas_base::{Coin, Item, Mem, Mode, Msg, Params};
use ritas_core::{Answer, Core, CoreFault, history_laws};
use std::alloc::Global;

/// One replica: it opens frames and reads their bodies, gives its core what they say, and seals what that puts out.
///
/// Its log of commands follows the identifier log of the service in the very call that appends to that. For want of memory
/// to feed the log, or to seal a frame, it is stopped, whatever its core has done.
#[derive(Drop)]
pub struct Replica<S: Service, E: Broadcast, C: Coin + Drop> {
    core: Core<S, E, C, Channel>,
    log: Log,
    // How many of the service's identifiers were entered into the log.
    fed: usize,
    counts: [u64; 31],
    sent: u64,
    stopped: bool,
}

impl<S: Service, E: Broadcast, C: Coin + Drop> Replica<S, E, C> {
    ghost use Rattle.std.specs.Prelude.{◌≡◌, ◌≢◌, ℕ, ◌≤◌, [], length, IfOk, replicate, ◌%◌, ◌^◌, true, OnOk, OnErr, ◌⊎◌};
    ghost use Rattle.keyed_channel.specs.Keyed.{tags_of};
    ghost use Rattle.keyed_channel.specs.KeyRow.{KeyRow};
    ghost use Rattle.ritas_core.specs.Rules.{Rules, other_form, casts_by};
    ghost use Rattle.ritas_core.specs.Machine.{CoreState, first_state, with_lost};
    ghost use Rattle.ritas_core.specs.Stands.{CoreStands};
    ghost use Rattle.replica.specs.Handling.{Frame, Input, Turn};
    ghost use Rattle.replica.specs.Stands.{ReplicaDoesAll, DoesOpened, frames_made};
    ghost use Rattle.replica.specs.Replica.{ReplicaStands, StandsAhead, with_keys};
    ghost use Rattle.replica.specs.Isolation.{IsIsolated, IsOpenedIsolated};
    ghost use Rattle.replica.specs.Steps.{ReadsOpened, PutsOut, SameRest, SameCore, FeedsOnly, FeedsSome, FeedsLog, HasUnfed, MayWant, ReplicaFinishes, Seals};
    ghost use Rattle.layer_api.specs.Service.{IsPart};
    ghost use Rattle.command_log.specs.Rows.{Start, alone, chained_on};
    ghost use Rattle.command_log.specs.Standing.{StandsFor};
    ghost use Rattle.replica.specs.CommandRows.{history_rows, most_base};

    // The replica that has these keys and this log, before any call.
    fn begin(
        alloc: Global,
        p: Params,
        mode: Mode,
        keys: Keys,
        coin: C,
        log: Log,
    ) -> Result<Self, Mem>
        requires made_for { keys.n ≡ p.n }
        requires version { keys.version ≡ mode.version }
        requires form { E.FORM ≡ other_form mode }
        requires served { S.rules.serves mode.root ≡ true }
        requires origins { log.f ≡ p.f }
        requires fresh { StandsFor log [] }
        requires room { length log.start.base ≤ most_base }
        ensures { IfOk result (λ replica. ReplicaStands log.start (with_keys S.stands S.rules S.shown E.stands E.rules E.shown C.bits) replica
            (record { mode = mode; casts = casts_by mode p keys.me (tags_of keys) E.rules; coin = C.bits coin; service = S.rules })
            keys (first_state (replicate p.n []))) }
    {
        let channel = Channel::new(alloc, keys)?;
        let core = Core::new(alloc, p, mode, keys.me(), channel, coin)?;
        Ok(Replica {
            core,
            log,
            fed: 0,
            counts: [0; 31],
            sent: 0,
            stopped: false,
        })
    }

    /// The replica that has these keys, before any call. The one error is want of memory.
    ///
    /// The service serves the mode's root service, and the form of the other broadcast is 2 in root service 2 or where VECT
    /// goes by echo broadcast, and otherwise that of the reliable broadcast of VECTs in the mode's version of frames: 1 in
    /// version 1, 3 in versions 2 and 3. The keys are of that version too.
    ///
    /// Its log of commands is that of a session by itself.
    pub fn new(alloc: Global, p: Params, mode: Mode, keys: Keys, coin: C) -> Result<Self, Mem>
        requires made_for { keys.n ≡ p.n }
        requires version { keys.version ≡ mode.version }
        requires form { E.FORM ≡ other_form mode }
        requires served { S.rules.serves mode.root ≡ true }
        ensures { IfOk result (λ replica. ReplicaStands alone (with_keys S.stands S.rules S.shown E.stands E.rules E.shown C.bits) replica
            (record { mode = mode; casts = casts_by mode p keys.me (tags_of keys) E.rules; coin = C.bits coin; service = S.rules })
            keys (first_state (replicate p.n []))) }
    {
        Replica::begin(alloc, p, mode, keys, coin, Log::new(alloc, p.f()))
    }

    /// The replica of an epoch of a chain, before any call. It is as that of [`Replica::new`], but that its log of commands
    /// begins with the rows of the epochs before, at most 4,200,000,000. A client and a request that have a row among these get no
    /// other, and once a row closes the epoch the log enters nothing more. The one error is want of memory.
    pub fn over(
        alloc: Global,
        p: Params,
        mode: Mode,
        keys: Keys,
        coin: C,
        rows: Rows,
    ) -> Result<Self, Mem>
        requires made_for { keys.n ≡ p.n }
        requires version { keys.version ≡ mode.version }
        requires form { E.FORM ≡ other_form mode }
        requires served { S.rules.serves mode.root ≡ true }
        requires room { length rows ≤ most_base }
        ensures { IfOk result (λ replica. ReplicaStands (chained_on rows) (with_keys S.stands S.rules S.shown E.stands E.rules E.shown C.bits) replica
            (record { mode = mode; casts = casts_by mode p keys.me (tags_of keys) E.rules; coin = C.bits coin; service = S.rules })
            keys (first_state (replicate p.n []))) }
    {
        Replica::begin(alloc, p, mode, keys, coin, Log::over(alloc, p.f(), rows))
    }

    // Seals these messages, and appends the frames.
    fn put_out(
        &mut self,
        alloc: Global,
        msgs: Vec<Msg>,
        out: &mut Vec<OutFrame<LazyFrame>>,
    ) -> Result<(), Mem>
        ensures ok { OnOk result (PutsOut self.old self.new msgs.items out.old.items out.new.items) }
        ensures err { OnErr result ((out.new.items ≡ out.old.items) × (self.new.sent ≡ self.old.sent)) }
        ensures memory { OnErr result (msgs.items ≢ []) }
        ensures same { SameRest self.old self.new }
    {
        let sent = self.sent;
        if msgs.is_empty() {
            return Ok(());
        }
        let mut made = Vec::new(alloc);
        send(alloc, self.core.tagger(), &mut self.counts, msgs, &mut made)?;
        let number = made.len() as u64;
        out.append(&mut made)?;
        self.sent = sent.wrapping_add(number);
        Ok(())
    }

    // Gives the log what the service appended to its identifiers.
    fn feed(&mut self, alloc: Global) -> Result<(), Mem>
        ensures ok { OnOk result (FeedsLog (with_keys S.stands S.rules S.shown E.stands E.rules E.shown C.bits) self.old self.new) }
        ensures err { OnErr result (FeedsSome (with_keys S.stands S.rules S.shown E.stands E.rules E.shown C.bits) self.old self.new) }
        ensures memory { let m = with_keys S.stands S.rules S.shown E.stands E.rules E.shown C.bits in
            OnErr result (HasUnfed m self.old) }
        ensures only { FeedsOnly self.old self.new }
    {
        history_laws();
        let done = self.core.service().done();
        let Some(ids) = done.get(self.fed..) else {
            // No such number comes.
            return Ok(());
        };
        follow(alloc, &self.core, &mut self.log, ids)?;
        self.fed = done.len();
        Ok(())
    }

    // Feeds the log, and seals these messages.
    fn pass_on(
        &mut self,
        alloc: Global,
        msgs: Vec<Msg>,
        out: &mut Vec<OutFrame<LazyFrame>>,
    ) -> Result<(), Mem>
        ensures ok { OnOk result (PutsOut self.old self.new msgs.items out.old.items out.new.items
            × FeedsLog (with_keys S.stands S.rules S.shown E.stands E.rules E.shown C.bits) self.old self.new) }
        ensures err { OnErr result ((out.new.items ≡ out.old.items) × (self.new.sent ≡ self.old.sent)
            × FeedsSome (with_keys S.stands S.rules S.shown E.stands E.rules E.shown C.bits) self.old self.new) }
        ensures memory { let m = with_keys S.stands S.rules S.shown E.stands E.rules E.shown C.bits in
            OnErr result (MayWant m self.old msgs.items) }
        ensures same { SameCore self.old self.new }
    {
        self.feed(alloc)?;
        self.put_out(alloc, msgs, out)
    }

    // Passes on what the core answered and put out.
    fn finish(
        &mut self,
        alloc: Global,
        answer: Result<Answer, CoreFault>,
        msgs: Vec<Msg>,
        out: &mut Vec<OutFrame<LazyFrame>>,
    ) -> Result<Answer, Refusal>
        ensures { ReplicaFinishes (with_keys S.stands S.rules S.shown E.stands E.rules E.shown C.bits)
            self.old self.new answer msgs.items out.old.items out.new.items result }
    {
        match answer {
            Ok(Answer::Took) => {
                if self.pass_on(alloc, msgs, out).is_err() {
                    self.stopped = true;
                    return Err(Refusal::Core(CoreFault::Mem));
                }
                Ok(Answer::Took)
            }
            Ok(answer) => Ok(answer),
            Err(fault) => Err(Refusal::Core(fault)),
        }
    }

    // The item that a frame from this sender with this body brings.
    fn read(&self, alloc: Global, from: u8, body: &[u8]) -> Result<Item, Refusal>
        ensures { (s : Start) (r : Rules) (k : KeyRow) (st : CoreState)
            → ReplicaStands s (with_keys S.stands S.rules S.shown E.stands E.rules E.shown C.bits) self.now r k st
            → ReadsOpened r k from body.now result }
    {
        let p = self.core.params();
        let mode = self.core.mode();
        match read_body(alloc, p, mode, from, body) {
            Ok(item) => Ok(item),
            Err(fault) => Err(Refusal::Body(fault)),
        }
    }

    /// Takes bytes that came as a frame: opens it, reads its body, and gives the core the item. The frames that become due
    /// by it are appended to `out`, in the order of the messages and for each by receiver.
    ///
    /// `Open` and `Body` are answered exactly where the frame doesn't open or its body spells no item, also once the
    /// replica is stopped, and `Core` where the core refuses the item: each leaves the replica and `out` as they were.
    /// `Body(Mem)` does too. After `Core(Mem)` `out` is as before, and so is the replica where the item was to be held;
    /// where it was to be taken, its log fed or a frame sealed, the replica is stopped, and refuses every later item as
    /// `Stopped`.
    ///
    /// Want of memory aside, what is answered and put out, and which items the replica sends itself, goes by its history, by
    /// what is held for the frame's sender and by whether the replica is stopped. It is the same in each state that has these
    /// three, whatever others sent and whatever is held for them. Held items that the frame opens, of whatever peers, come
    /// into the inbox only behind the items to itself.
    pub fn on_frame(
        &mut self,
        alloc: Global,
        bytes: &[u8],
        out: &mut Vec<OutFrame>,
    ) -> Result<Answer, Refusal>
        ensures does { (s : Start) → ReplicaDoesAll (ReplicaStands s (with_keys S.stands S.rules S.shown E.stands E.rules E.shown C.bits))
            self.old self.new (Frame bytes.now) out.old.items out.new.items result }
        ensures isolated { (s : Start) → IsIsolated (ReplicaStands s (with_keys S.stands S.rules S.shown E.stands E.rules E.shown C.bits))
            self.old self.new bytes.now out.old.items out.new.items result }
    {
        let sent = self.sent;
        let mut made = Vec::new(alloc);
        let answer = self.on_frame_lazily(alloc, bytes, &mut made);
        self.seal(alloc, sent, answer, made, out)
    }

    /// Gives the core an input. The frames that become due by it are appended to `out`, in the order of the messages and
    /// for each by receiver.
    ///
    /// The one error is `Core`, which leaves the replica and `out` as they were; but `Core(Mem)` stops the replica.
    pub fn on_input(
        &mut self,
        alloc: Global,
        bytes: &[u8],
        out: &mut Vec<OutFrame>,
    ) -> Result<Answer, Refusal>
        ensures { (s : Start) → ReplicaDoesAll (ReplicaStands s (with_keys S.stands S.rules S.shown E.stands E.rules E.shown C.bits))
            self.old self.new (Input bytes.now) out.old.items out.new.items result }
    {
        let sent = self.sent;
        let mut made = Vec::new(alloc);
        let answer = self.on_input_lazily(alloc, bytes, &mut made);
        self.seal(alloc, sent, answer, made, out)
    }

    /// Takes the item at the front of the inbox out of it, and gives it to the core; `Idle` where none waits. The frames
    /// that become due by it are appended to `out`, in the order of the messages and for each by receiver.
    ///
    /// The one error is `Core`, which leaves `out` as it was, and the replica but that the item has left the inbox.
    /// `Core(Mem)` leaves all as it was where the item was to be held; where it was to be taken, the replica is stopped.
    pub fn on_turn(&mut self, alloc: Global, out: &mut Vec<OutFrame>) -> Result<Answer, Refusal>
        ensures { (s : Start) → ReplicaDoesAll (ReplicaStands s (with_keys S.stands S.rules S.shown E.stands E.rules E.shown C.bits))
            self.old self.new Turn out.old.items out.new.items result }
    {
        let sent = self.sent;
        let mut made = Vec::new(alloc);
        let answer = self.on_turn_lazily(alloc, &mut made);
        self.seal(alloc, sent, answer, made, out)
    }

    // Answers what a call did, and appends the frames that it made, with their tags. For want of memory none is appended and the
    // replica is stopped: then it made as many frames as it had before the call.
    fn seal(
        &mut self,
        alloc: Global,
        sent: u64,
        answer: Result<Answer, Refusal>,
        made: Vec<OutFrame<LazyFrame>>,
        out: &mut Vec<OutFrame>,
    ) -> Result<Answer, Refusal>
        ensures { Seals (with_keys S.stands S.rules S.shown E.stands E.rules E.shown C.bits)
            sent self.old self.new answer made.items out.old.items out.new.items result }
    {
        history_laws();
        if append_bytes(alloc, made.as_slice(), out).is_err() {
            self.sent = sent;
            self.stopped = true;
            return Err(Refusal::Core(CoreFault::Mem));
        }
        answer
    }

    /// Does all that `on_frame` does, but that a frame's tag is computed once its bytes are asked for.
    pub fn on_frame_lazily(
        &mut self,
        alloc: Global,
        bytes: &[u8],
        out: &mut Vec<OutFrame<LazyFrame>>,
    ) -> Result<Answer, Refusal>
        ensures does { (s : Start) → ReplicaDoesAll (ReplicaStands s (with_keys S.stands S.rules S.shown E.stands E.rules E.shown C.bits))
            self.old self.new (Frame bytes.now) out.old.items out.new.items result }
        ensures isolated { (s : Start) → IsIsolated (ReplicaStands s (with_keys S.stands S.rules S.shown E.stands E.rules E.shown C.bits))
            self.old self.new bytes.now out.old.items out.new.items result }
    {
        match self.core.tagger().open(bytes) {
            Ok(opened) => self.on_opened(alloc, opened.from, opened.body, out),
            Err(fault) => Err(Refusal::Open(fault)),
        }
    }

    /// Takes a frame that a channel made, and does all that `on_frame_lazily` does with its bytes. The code computes no tag where that
    /// channel shares its key with this replica; no clause says so.
    pub fn on_lazy_frame(
        &mut self,
        alloc: Global,
        frame: &LazyFrame,
        out: &mut Vec<OutFrame<LazyFrame>>,
    ) -> Result<Answer, Refusal>
        ensures does { (s : Start) → ReplicaDoesAll (ReplicaStands s (with_keys S.stands S.rules S.shown E.stands E.rules E.shown C.bits))
            self.old self.new (Frame frame.now) out.old.items out.new.items result }
        ensures isolated { (s : Start) → IsIsolated (ReplicaStands s (with_keys S.stands S.rules S.shown E.stands E.rules E.shown C.bits))
            self.old self.new frame.now out.old.items out.new.items result }
    {
        match self.core.tagger().open_lazily(frame) {
            Ok(opened) => self.on_opened(alloc, opened.from, opened.body, out),
            Err(fault) => Err(Refusal::Open(fault)),
        }
    }

    // Takes what a frame that came opens to, its sender and its body.
    fn on_opened(
        &mut self,
        alloc: Global,
        from: u8,
        body: &[u8],
        out: &mut Vec<OutFrame<LazyFrame>>,
    ) -> Result<Answer, Refusal>
        ensures does { (s : Start) → DoesOpened (ReplicaStands s (with_keys S.stands S.rules S.shown E.stands E.rules E.shown C.bits))
            self.old self.new from body.now out.old.items out.new.items result }
        ensures isolated { (s : Start) → IsOpenedIsolated (ReplicaStands s (with_keys S.stands S.rules S.shown E.stands E.rules E.shown C.bits))
            self.old self.new from body.now out.old.items out.new.items result }
    {
        let item = self.read(alloc, from, body)?;
        if self.stopped {
            return Err(Refusal::Core(CoreFault::Stopped));
        }
        let mut msgs = Vec::new(alloc);
        let answer = self.core.take(alloc, item, &mut msgs);
        self.finish(alloc, answer, msgs, out)
    }

    /// Does all that `on_input` does, but that a frame's tag is computed once its bytes are asked for.
    pub fn on_input_lazily(
        &mut self,
        alloc: Global,
        bytes: &[u8],
        out: &mut Vec<OutFrame<LazyFrame>>,
    ) -> Result<Answer, Refusal>
        ensures { (s : Start) → ReplicaDoesAll (ReplicaStands s (with_keys S.stands S.rules S.shown E.stands E.rules E.shown C.bits))
            self.old self.new (Input bytes.now) out.old.items out.new.items result }
    {
        if self.stopped {
            return Err(Refusal::Core(CoreFault::Stopped));
        }
        let mut msgs = Vec::new(alloc);
        let answer = self.core.input(alloc, bytes, &mut msgs);
        self.finish(alloc, answer, msgs, out)
    }

    /// Does all that `on_turn` does, but that a frame's tag is computed once its bytes are asked for.
    pub fn on_turn_lazily(
        &mut self,
        alloc: Global,
        out: &mut Vec<OutFrame<LazyFrame>>,
    ) -> Result<Answer, Refusal>
        ensures { (s : Start) → ReplicaDoesAll (ReplicaStands s (with_keys S.stands S.rules S.shown E.stands E.rules E.shown C.bits))
            self.old self.new Turn out.old.items out.new.items result }
    {
        if self.stopped {
            return Err(Refusal::Core(CoreFault::Stopped));
        }
        let mut msgs = Vec::new(alloc);
        let answer = self.core.turn(alloc, &mut msgs);
        self.finish(alloc, answer, msgs, out)
    }

    /// Whether no call was without memory, but for one that only was to read a body or to hold an item.
    pub fn live(&self) -> bool
        ensures { (s : Start) (r : Rules) (k : KeyRow) (st : CoreState)
            → ReplicaStands s (with_keys S.stands S.rules S.shown E.stands E.rules E.shown C.bits) self.now r k st
            → result ≡ st.live }
    {
        !self.stopped && self.core.live()
    }

    /// The keys of the replica.
    pub fn keys(&self) -> &Keys
        ensures { (s : Start) (r : Rules) (k : KeyRow) (st : CoreState)
            → ReplicaStands s (with_keys S.stands S.rules S.shown E.stands E.rules E.shown C.bits) self.now r k st
            → result.now ≡ k }
    {
        self.core.tagger().keys()
    }

    /// The channel to the other replicas: the keys of the replica, made ready to tag with.
    pub fn channel(&self) -> &Channel
        ensures { (s : Start) (r : Rules) (k : KeyRow) (st : CoreState)
            → ReplicaStands s (with_keys S.stands S.rules S.shown E.stands E.rules E.shown C.bits) self.now r k st
            → result.now ≡ k }
    {
        self.core.tagger()
    }

    /// The core. It stands for the replica's state; but where the replica is stopped it may be ahead of it, by what the call
    /// that stopped the replica was to take.
    pub fn core(&self) -> &Core<S, E, C, Channel>
        ensures live { (s : Start) (r : Rules) (k : KeyRow) (st : CoreState)
            → ReplicaStands s (with_keys S.stands S.rules S.shown E.stands E.rules E.shown C.bits) self.now r k st
            → st.live ≡ true
            → CoreStands (with_keys S.stands S.rules S.shown E.stands E.rules E.shown C.bits) result.now r st }
        ensures near { (s : Start) (r : Rules) (k : KeyRow) (st : CoreState)
            → ReplicaStands s (with_keys S.stands S.rules S.shown E.stands E.rules E.shown C.bits) self.now r k st
            → CoreStands (with_keys S.stands S.rules S.shown E.stands E.rules E.shown C.bits) result.now r st
            ⊎ StandsAhead (with_keys S.stands S.rules S.shown E.stands E.rules E.shown C.bits) result.now r st }
    {
        &self.core
    }

    /// The log of commands: it begins where that of the replica does, and has the rows of the service's identifier log, as of the last
    /// call, above those of its base. Of a replica that was stopped it has the rows of its history, and may have some of those that
    /// the stop lost.
    pub fn log(&self) -> &Log
        ensures live { (s : Start) (r : Rules) (k : KeyRow) (st : CoreState)
            → ReplicaStands s (with_keys S.stands S.rules S.shown E.stands E.rules E.shown C.bits) self.now r k st
            → st.live ≡ true → result.now.rows ≡ history_rows s r st.history }
        ensures near { (s : Start) (r : Rules) (k : KeyRow) (st : CoreState)
            → ReplicaStands s (with_keys S.stands S.rules S.shown E.stands E.rules E.shown C.bits) self.now r k st
            → IsPart (history_rows s r st.history) result.now.rows × IsPart result.now.rows (history_rows s r (with_lost st)) }
        ensures start { (s : Start) (r : Rules) (k : KeyRow) (st : CoreState)
            → ReplicaStands s (with_keys S.stands S.rules S.shown E.stands E.rules E.shown C.bits) self.now r k st
            → result.now.start ≡ s }
    {
        history_laws();
        &self.log
    }

    /// The rows of its log of commands, with those of the base: the base of the log of the next epoch. Of a replica that was stopped
    /// they are those of its history, and maybe some of those that the stop lost.
    pub fn into_rows(self) -> Rows
        ensures live { (s : Start) (r : Rules) (k : KeyRow) (st : CoreState)
            → ReplicaStands s (with_keys S.stands S.rules S.shown E.stands E.rules E.shown C.bits) self r k st
            → st.live ≡ true → result ≡ history_rows s r st.history }
        ensures near { (s : Start) (r : Rules) (k : KeyRow) (st : CoreState)
            → ReplicaStands s (with_keys S.stands S.rules S.shown E.stands E.rules E.shown C.bits) self r k st
            → IsPart (history_rows s r st.history) result × IsPart result (history_rows s r (with_lost st)) }
    {
        history_laws();
        self.log.into_rows()
    }

    /// How many frames the replica made, modulo 2^64.
    pub fn sent(&self) -> u64
        ensures { (s : Start) (r : Rules) (k : KeyRow) (st : CoreState)
            → ReplicaStands s (with_keys S.stands S.rules S.shown E.stands E.rules E.shown C.bits) self.now r k st
            → result ≡ frames_made r k st.history % 2 ^ 64 }
    {
        self.sent
    }
}
