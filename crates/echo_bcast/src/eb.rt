//! One replica's part in an echo broadcast: what it keeps of SEND, HASHES and COLUMN, and what becomes due by each.

ghost use Rattle.std.specs.Prelude.{◌≡◌, ◌<◌, ◌++◌, OnErr, OnOk, None, Some, List, ℕ, Option, replicate, is_some, true, false};
ghost use Rattle.std.specs.Option.{option_copied};
ghost use Rattle.ritas_base.specs.declared.item.Kind.TheVariants.{Send};
ghost use Rattle.ritas_base.specs.Messages.{to_all};
ghost use Rattle.ritas_base.specs.Numbers.{IsSession};
ghost use Rattle.ritas_base.specs.Members.{has_member};
ghost use Rattle.echo_bcast.specs.State.{matrix_delivered, HearsMatrix, HearsSend, HearsHashes, HearsColumn};

use crate::columns::columns_of;
use crate::entries::{hashes_of, is_column, judged};
use crate::gathered::Gathered;
use layer_api::Heard;
use ritas_base::{Bytes, Item, Kind, Mem, Msg, Params, SenderSet, Slot, Tagger, To};
use std::alloc::Global;

/// The message that the origin sent, and its digest.
#[derive(Drop)]
pub(crate) struct Sent {
    value: Bytes,
    digest: [u8; 32],
}

/// One replica's part in one echo broadcast.
#[derive(Drop)]
pub struct Eb {
    pub(crate) params: Params,
    slot: Slot,
    sent: Option<Sent>,
    // The first HASHES of each replica. The origin alone gets any.
    hashes: Gathered,
    // The echoers of which a column had a valid entry.
    good: SenderSet,
    pub(crate) live: bool,
}

impl Eb {
    /// Before any call.
    pub(crate) fn make(alloc: Global, params: &Params, slot: Slot) -> Eb
        ensures same { (result.params ≡ params.now) × (result.slot ≡ slot) × (result.sent ≡ None)
            × (result.live ≡ true) }
        ensures nobody { (result.hashes ≡ replicate params.now.n None)
            × ((k : ℕ) → has_member result.good k ≡ false) }
        ensures session { IsSession params.now }
    {
        Eb {
            params: *params,
            slot,
            sent: None,
            hashes: Gathered::new(alloc, params.n()),
            good: SenderSet::empty(),
            live: true,
        }
    }

    /// Says SEND.
    pub(crate) fn begin(&self, alloc: Global, value: &[u8], out: &mut Vec<Msg>) -> Result<(), Mem>
        ensures ok { OnOk result (out.new.items ≡ out.old.items ++ to_all self.now.slot Send (Some value.now)) }
        ensures err { OnErr result (out.new.items ≡ out.old.items) }
    {
        out.push(Msg {
            to: To::All,
            kind: Kind::Send,
            slot: self.slot,
            value: Bytes::from_slice(alloc, value)?,
        })?;
        Ok(())
    }

    /// Keeps the first SEND, and says HASHES of it to the origin.
    fn echo<T: Tagger>(
        &mut self,
        alloc: Global,
        t: &T,
        item: &Item,
        out: &mut Vec<Msg>,
    ) -> Result<Heard, Mem>
        requires { T.me t.now < 31 }
        ensures { HearsSend (record { me = T.me t.now; tags = T.tags t.now }) self.old self.new item.now out.old.items out.new.items result }
    {
        if self.sent.is_some() {
            return Ok(Heard::Repeat);
        }
        let value = item.value.copy(alloc)?;
        let digest = t.digest(item.value.as_slice());
        let hashes = hashes_of(alloc, t, &self.slot, self.params.n(), &digest)?;
        out.push(Msg {
            to: To::One(self.slot.origin),
            kind: Kind::Hashes,
            slot: self.slot,
            value: hashes,
        })?;
        self.sent = Some(Sent { value, digest });
        Ok(Heard::Took)
    }

    /// Keeps the first HASHES of a replica, and says a column to each replica where enough are there.
    fn gather(&mut self, alloc: Global, item: &Item, out: &mut Vec<Msg>) -> Result<Heard, Mem>
        ensures { HearsHashes self.old self.new item.now out.old.items out.new.items result }
    {
        if !self.hashes.awaits(item.from) {
            return Ok(Heard::Repeat);
        }
        self.hashes.add(alloc, item.from, &item.value)?;
        let mut columns = columns_of(alloc, &self.params, &self.slot, self.hashes.places())?;
        out.append(&mut columns)?;
        Ok(Heard::Took)
    }

    /// Counts the echoers of which a column has a valid entry.
    fn judge<T: Tagger>(&mut self, t: &T, item: &Item) -> Heard
        requires { T.me t.now < 31 }
        ensures { (out : List Msg) → HearsColumn (record { me = T.me t.now; tags = T.tags t.now }) self.old self.new item.now out out result }
    {
        let Some(sent) = &self.sent else {
            return Heard::Repeat;
        };
        let value = item.value.as_slice();
        if !is_column(value) {
            return Heard::Repeat;
        }
        let (good, news) = judged(
            t,
            &self.slot,
            self.params.n(),
            &sent.digest,
            value,
            self.good,
        );
        if !news {
            return Heard::Repeat;
        }
        self.good = good;
        Heard::Took
    }

    /// Takes an item, and says what becomes due by it. Messages are put out last, so that `out` is as before for want of
    /// memory.
    pub(crate) fn hear<T: Tagger>(
        &mut self,
        alloc: Global,
        t: &T,
        item: &Item,
        out: &mut Vec<Msg>,
    ) -> Result<Heard, Mem>
        requires { T.me t.now < 31 }
        ensures { HearsMatrix item.now.kind (record { me = T.me t.now; tags = T.tags t.now }) self.old self.new item.now out.old.items out.new.items result }
    {
        match item.kind {
            Kind::Send => self.echo(alloc, t, item, out),
            Kind::Hashes => self.gather(alloc, item, out),
            Kind::Column => Ok(self.judge(t, item)),
            Kind::Init | Kind::Echo | Kind::Ready | Kind::Want | Kind::Value => Ok(Heard::Repeat),
        }
    }

    /// What is delivered.
    pub(crate) fn value(&self) -> Option<&[u8]>
        ensures { option_copied result ≡ matrix_delivered self.now }
    {
        if self.good.len() < self.params.q() {
            return None;
        }
        match &self.sent {
            None => None,
            Some(sent) => Some(sent.value.as_slice()),
        }
    }

    /// Whether the message that the origin sent is there.
    pub(crate) fn is_sent(&self) -> bool
        ensures { result ≡ is_some self.now.sent }
    {
        self.sent.is_some()
    }
}
