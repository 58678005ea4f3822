//! One replica's part in a reliable broadcast with digests: votes are for a digest, whose value is asked for where it isn't known.

ghost use Rattle.std.specs.Prelude.{◌≡◌, ◌++◌, length, MatchOption, OnErr, OnOk, None, Some, position, true, false};
ghost use Rattle.std.specs.Str.{bytes_eq};
ghost use Rattle.std.specs.Option.{option_copied};
ghost use Rattle.reliable_bcast.specs.Digests.{to_one};
ghost use Rattle.reliable_bcast.specs.DigestState.{value_with_digest, answer_in, answers_to, IsNew, IsSameState, LearnsValue, DigestSettles, Carries, HearsInit, HearsEcho, HearsReady, HearsWant, HearsValue, HearsByDigest, delivered_of};

use crate::digest_votes::DigestVotes;
use crate::saying::{say_digest, say_value};
use layer_api::Heard;
use ritas_base::{Bytes, Item, Kind, Mem, Msg, Params, SenderSet, Slot, Tagger};
use std::alloc::Global;

/// A value that is known, and its digest.
#[derive(Drop)]
pub(crate) struct Known {
    digest: [u8; 32],
    value: Bytes,
}

/// One replica's part in one reliable broadcast whose ECHO and READY carry the value's digest.
#[derive(Drop)]
pub struct DigestRb {
    params: Params,
    me: u8,
    pub(crate) slot: Slot,
    inited: bool,
    readied: bool,
    // The first digest of each replica. Those of ECHO and READY are dropped once a digest is carried.
    echoes: DigestVotes,
    readies: DigestVotes,
    wants: DigestVotes,
    // Those whose VALUE was taken.
    given: SenderSet,
    // The first value of each digest.
    values: Vec<Known>,
    // The digest that is carried.
    full: Option<[u8; 32]>,
    pub(crate) live: bool,
}

/// Where the value with this digest stands.
fn place_of(values: &[Known], digest: &[u8; 32]) -> Option<usize>
    ensures { result ≡ position (λ k. bytes_eq k.digest digest.now) values.now }
{
    values.iter().position(|known| known.digest == *digest)
}

/// The value with this digest, if it is known.
fn value_of<'a>(values: &'a [Known], digest: &[u8; 32]) -> Option<&'a Bytes>
    ensures { option_copied result ≡ value_with_digest values.now digest.now }
{
    match place_of(values, digest) {
        None => None,
        Some(i) => Some(&values[i].value),
    }
}

/// The digest that an item brings; `None` where its value is none.
fn digest_in(item: &Item) -> Option<&[u8; 32]>
    ensures { MatchOption result (length item.now.value ≡ 32 → ⊥) (λ d. d.now ≡ item.now.value) }
{
    item.value.as_slice().as_array()
}

impl DigestRb {
    /// Before any call.
    pub(crate) fn make(alloc: Global, params: &Params, me: u8, slot: Slot) -> DigestRb
        ensures { IsNew params.now me slot result }
    {
        let n = params.n();
        DigestRb {
            params: *params,
            me,
            slot,
            inited: false,
            readied: false,
            echoes: DigestVotes::new(alloc, n),
            readies: DigestVotes::new(alloc, n),
            wants: DigestVotes::new(alloc, n),
            given: SenderSet::empty(),
            values: Vec::new(alloc),
            full: None,
            live: true,
        }
    }

    /// Says VALUE to a replica, where it is another one and asked.
    fn answer_one(
        &self,
        alloc: Global,
        asked: SenderSet,
        k: u8,
        value: &Bytes,
        out: &mut Vec<Msg>,
    ) -> Result<(), Mem>
        ensures { OnOk result (out.new.items ≡ out.old.items ++ to_one self.now.slot k (answer_in self.now.me asked value.now k)) }
    {
        if k != self.me && asked.has(k) {
            say_value(alloc, self.slot, k, value, out)?;
        }
        Ok(())
    }

    /// Says VALUE to each other replica that asked for this digest.
    fn answer(
        &self,
        alloc: Global,
        digest: &[u8; 32],
        value: &Bytes,
        out: &mut Vec<Msg>,
    ) -> Result<(), Mem>
        ensures { OnOk result (out.new.items ≡ out.old.items ++ answers_to self.now digest.now value.now) }
    {
        let asked = self.wants.voters(digest);
        for k in 0..self.params.n() {
            self.answer_one(alloc, asked, k, value, out)?;
        }
        Ok(())
    }

    /// Keeps a value, where none with its digest is known, and answers those who asked for it. For want of memory nothing
    /// changes but `out`.
    fn learn(
        &mut self,
        alloc: Global,
        digest: &[u8; 32],
        value: &Bytes,
        out: &mut Vec<Msg>,
    ) -> Result<(), Mem>
        ensures ok { OnOk result (LearnsValue self.old self.new digest.now value.now out.old.items out.new.items) }
        ensures err { OnErr result (IsSameState self.old self.new) }
    {
        if value_of(&self.values, digest).is_some() {
            return Ok(());
        }
        self.answer(alloc, digest, value, out)?;
        let value = value.copy(alloc)?;
        // Mostly there is one value, and a session keeps all of its broadcasts.
        self.values.reserve_exact(1)?;
        self.values.push(Known {
            digest: *digest,
            value,
        })?;
        Ok(())
    }

    /// Says ECHO of the digest of the first INIT, and answers those who asked for its value.
    fn init<T: Tagger>(
        &mut self,
        alloc: Global,
        t: &T,
        item: &Item,
        out: &mut Vec<Msg>,
    ) -> Result<Heard, Mem>
        ensures { HearsInit (record { me = T.me t.now; tags = T.tags t.now }) self.old self.new item.now out.old.items out.new.items result }
    {
        if self.inited {
            return Ok(Heard::Repeat);
        }
        let digest = t.digest(item.value.as_slice());
        let mut said = Vec::new(alloc);
        say_digest(alloc, self.slot, Kind::Echo, &digest, &mut said)?;
        self.learn(alloc, &digest, &item.value, &mut said)?;
        self.inited = true;
        out.append(&mut said)?;
        Ok(Heard::Took)
    }

    /// Keeps the first VALUE of a replica, and answers those who asked for it.
    fn value<T: Tagger>(
        &mut self,
        alloc: Global,
        t: &T,
        item: &Item,
        out: &mut Vec<Msg>,
    ) -> Result<Heard, Mem>
        ensures { HearsValue (record { me = T.me t.now; tags = T.tags t.now }) self.old self.new item.now out.old.items out.new.items result }
    {
        // No such sender comes: it is a replica.
        if item.from >= 32 || self.given.has(item.from) {
            return Ok(Heard::Repeat);
        }
        let digest = t.digest(item.value.as_slice());
        let mut said = Vec::new(alloc);
        self.learn(alloc, &digest, &item.value, &mut said)?;
        self.given = self.given.with(item.from);
        out.append(&mut said)?;
        Ok(Heard::Took)
    }

    /// Says READY of a digest where it has the votes, once.
    fn settle(&mut self, alloc: Global, digest: &[u8; 32], out: &mut Vec<Msg>) -> Result<(), Mem>
        ensures ok { OnOk result (DigestSettles self.old self.new digest.now out.old.items out.new.items) }
        ensures err { OnErr result ((self.new ≡ self.old) × (out.new.items ≡ out.old.items)) }
    {
        if self.readied {
            return Ok(());
        }
        if self.echoes.count(digest) >= self.params.q()
            || self.readies.count(digest) >= self.params.ready()
        {
            say_digest(alloc, self.slot, Kind::Ready, digest, out)?;
            self.readied = true;
        }
        Ok(())
    }

    /// Keeps the digest that is carried, once, and says WANT of it where its value isn't known. ECHO and READY aren't
    /// counted after that, so their digests are dropped.
    fn carry(&mut self, alloc: Global, digest: &[u8; 32], out: &mut Vec<Msg>) -> Result<(), Mem>
        ensures ok { OnOk result (Carries self.old self.new digest.now out.old.items out.new.items) }
        ensures err { OnErr result (self.new ≡ self.old) }
    {
        if self.full.is_some() {
            return Ok(());
        }
        if self.readies.count(digest) >= self.params.deliver() {
            if value_of(&self.values, digest).is_none() {
                say_digest(alloc, self.slot, Kind::Want, digest, out)?;
            }
            self.full = Some(*digest);
            self.echoes.forget(alloc);
            self.readies.forget(alloc);
        }
        Ok(())
    }

    /// Counts the first ECHO of a replica.
    fn echo(&mut self, alloc: Global, item: &Item, out: &mut Vec<Msg>) -> Result<Heard, Mem>
        ensures { HearsEcho self.old self.new item.now out.old.items out.new.items result }
    {
        let Some(digest) = digest_in(item) else {
            return Ok(Heard::Repeat);
        };
        if !self.echoes.awaits(item.from) {
            return Ok(Heard::Repeat);
        }
        self.echoes
            .add(alloc, item.from, digest, self.full.is_none())?;
        self.settle(alloc, digest, out)?;
        Ok(Heard::Took)
    }

    /// Counts the first READY of a replica.
    fn ready(&mut self, alloc: Global, item: &Item, out: &mut Vec<Msg>) -> Result<Heard, Mem>
        ensures { HearsReady self.old self.new item.now out.old.items out.new.items result }
    {
        let Some(digest) = digest_in(item) else {
            return Ok(Heard::Repeat);
        };
        if !self.readies.awaits(item.from) {
            return Ok(Heard::Repeat);
        }
        self.readies
            .add(alloc, item.from, digest, self.full.is_none())?;
        let mut said = Vec::new(alloc);
        self.settle(alloc, digest, &mut said)?;
        self.carry(alloc, digest, &mut said)?;
        out.append(&mut said)?;
        Ok(Heard::Took)
    }

    /// Keeps the first WANT of a replica, and answers it where its value is known.
    fn want(&mut self, alloc: Global, item: &Item, out: &mut Vec<Msg>) -> Result<Heard, Mem>
        ensures { HearsWant self.old self.new item.now out.old.items out.new.items result }
    {
        let Some(digest) = digest_in(item) else {
            return Ok(Heard::Repeat);
        };
        if !self.wants.awaits(item.from) {
            return Ok(Heard::Repeat);
        }
        self.wants.add(alloc, item.from, digest, true)?;
        if item.from == self.me {
            return Ok(Heard::Took);
        }
        if let Some(value) = value_of(&self.values, digest) {
            say_value(alloc, self.slot, item.from, value, out)?;
        }
        Ok(Heard::Took)
    }

    /// Takes an item, and says what becomes due by it.
    pub(crate) fn hear<T: Tagger>(
        &mut self,
        alloc: Global,
        t: &T,
        item: &Item,
        out: &mut Vec<Msg>,
    ) -> Result<Heard, Mem>
        ensures { HearsByDigest item.now.kind (record { me = T.me t.now; tags = T.tags t.now }) self.old self.new item.now out.old.items out.new.items result }
    {
        match item.kind {
            Kind::Init => self.init(alloc, t, item, out),
            Kind::Echo => self.echo(alloc, item, out),
            Kind::Ready => self.ready(alloc, item, out),
            Kind::Want => self.want(alloc, item, out),
            Kind::Value => self.value(alloc, t, item, out),
            Kind::Send | Kind::Hashes | Kind::Column => Ok(Heard::Repeat),
        }
    }

    /// What is delivered.
    pub(crate) fn delivered_value(&self) -> Option<&[u8]>
        ensures { option_copied result ≡ delivered_of self.now }
    {
        let Some(full) = &self.full else {
            return None;
        };
        match value_of(&self.values, full) {
            None => None,
            Some(value) => Some(value.as_slice()),
        }
    }
}
