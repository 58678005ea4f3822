//! A link in memory: it gives the items that it was made with, tells what it was told, and fails where it is to.

ghost use Rattle.std.specs.Prelude.{◌≡◌, ◌≢◌, ◌<◌, ◌∷◌, ◌++◌, [], ◌^◌, true, reverse, length, IfOk, IfSome, OnOk, OnErr, Err, None, All, Contains};
ghost use Rattle.outside.specs.Faults.{HasCause, count_after};
ghost use Rattle.outside.specs.Memory.{no_calls};
ghost use Rattle.outside.specs.Links.{Starts, Gives, Sends, Replies, bytes_of, plans_in, items_in, frames_in, replies_in, now_given, faults_after};
ghost use Rattle.outside.specs.MemoryLink.{IsShort, LinksMemory, LinksTelling, faults_of, first_of, rest_of, now_of};

use crate::course::Course;
use crate::link::{Link, LinkFault, LinkItem, LinkPlan, Sent};
use crate::memory::{CallList, raised};
use ritas_base::Mem;
use std::alloc::Global;
use std::marker::Model;
use std::net::Net;
use std::sync::Wait;

/// A link in memory, which gives the items that it was made with, in order, up to the first `End`, and then only `End`.
/// All that are left before the first `End` are there at once.
/// Contracts see the items that are left, the calls that answered Ok, the newest first, its calls: those that fail, the
/// number of the next one, and how many failed, and how many were without memory. Such a call has a number too.
#[derive(Drop)]
pub struct MemLink {
    course: Course,
    calls: CallList,
    short: u64,
}

impl Model for MemLink {
    ghost use Rattle.outside.specs.MemoryLink.{LinkState};

    ghost Value = { LinkState };

    ghost view = { λ s. record { left = s.course.left; told = s.course.told; calls = s.calls; short = s.short } };
}

// A copy of these items.
fn copied(alloc: Global, items: &[LinkItem]) -> Result<Vec<LinkItem>, Mem>
    ensures { IfOk result (λ v. v.items ≡ items.now) }
{
    let mut copies = Vec::with_capacity(alloc, items.len())?;
    for item in items {
        copies.push(item.copy(alloc)?)?;
    }
    Ok(copies)
}

impl MemLink {
    /// A link that gives a copy of these items, each of at most 65,535 bytes. `fails` lists the numbers of the calls of
    /// `start`, `next`, `next_now`, `send` and `reply` that answer `Failed`. Calls are numbered from 0, and each call after number
    /// 2^64 - 1 has that number too. The one error is want of memory.
    pub fn new(alloc: Global, items: &[LinkItem], fails: &[u64]) -> Result<MemLink, Mem>
        requires { All IsShort items.now }
        ensures { IfOk result (λ s. s ≡ record { left = items.now; told = []; calls = no_calls fails.now; short = 0 }) }
    {
        let items = copied(alloc, items)?;
        Ok(MemLink {
            course: Course::new(alloc, items),
            calls: CallList::new(alloc, fails)?,
            short: 0,
        })
    }

    // What a call that is without memory answers. One more is counted.
    fn fall_short(&mut self) -> LinkFault
        ensures fault { result ≡ LinkFault.Mem }
        ensures counts { self.new ≡ record self.old { short = count_after self.old.short } }
    {
        self.short = raised(self.short);
        LinkFault::Mem
    }

    /// The plans that were started, in order. It takes no memory.
    pub fn plans(&self) -> &[LinkPlan]
        ensures { reverse result.now ≡ plans_in self.now.told }
    {
        self.course.plans()
    }

    /// The frames that were sent, in order. It takes no memory.
    pub fn frames(&self) -> &[Sent]
        ensures { reverse result.now ≡ frames_in self.now.told }
    {
        self.course.frames()
    }

    /// The replies that were sent, in order. It takes no memory.
    pub fn replies(&self) -> &[Sent]
        ensures { reverse result.now ≡ replies_in self.now.told }
    {
        self.course.replies()
    }
}

impl Link for MemLink {
    ghost tells = { true };

    ghost told = { λ s. s.told };

    ghost faults = { λ s. faults_of s };

    fn start<R: Net + Wait>(
        &mut self,
        _rt: &R,
        alloc: Global,
        plan: &LinkPlan,
    ) -> Result<(), LinkFault>
        ensures exact { LinksMemory (λ _. Starts plan.now) self.old.left self.old self.new result }
        ensures ok { OnOk result (self.new.told ≡ Starts plan.now ∷ self.old.told) }
        ensures err { OnErr result (self.new.told ≡ self.old.told) }
        ensures cause { HasCause self.old.calls.faults self.new.calls.faults (result ≡ Err LinkFault.Failed) }
        ensures count { faults_of self.new ≡ faults_after (faults_of self.old) result }
    {
        self.calls.begin()?;
        match self.course.started(alloc, plan) {
            Ok(()) => Ok(()),
            Err(Mem) => Err(self.fall_short()),
        }
    }

    fn next<R: Net + Wait>(&mut self, _rt: &R, alloc: Global) -> Result<LinkItem, LinkFault>
        ensures exact { LinksMemory Gives (rest_of self.old.left) self.old self.new result }
        ensures item { IfOk result (λ item. item ≡ first_of self.old.left) }
        ensures size { IfOk result (λ item. length (bytes_of item) < 2 ^ 16) }
        ensures end { Contains (items_in self.old.told) LinkItem.End → IfOk result (λ item. item ≡ LinkItem.End) }
        ensures ok { IfOk result (λ item. self.new.told ≡ Gives item ∷ self.old.told) }
        ensures err { OnErr result (self.new.told ≡ self.old.told) }
        ensures cause { HasCause self.old.calls.faults self.new.calls.faults (result ≡ Err LinkFault.Failed) }
        ensures count { faults_of self.new ≡ faults_after (faults_of self.old) result }
    {
        self.calls.begin()?;
        match self.course.gave(alloc) {
            Ok(item) => Ok(item),
            Err(Mem) => Err(self.fall_short()),
        }
    }

    fn next_now(&mut self, alloc: Global) -> Result<Option<LinkItem>, LinkFault>
        ensures exact { LinksTelling now_given (rest_of self.old.left) self.old self.new result }
        ensures item { IfOk result (λ given. given ≡ now_of self.old.left) }
        ensures size { IfOk result (λ given. IfSome given (λ item. length (bytes_of item) < 2 ^ 16)) }
        ensures open { IfOk result (λ given. IfSome given (λ item. item ≢ LinkItem.End)) }
        ensures end { Contains (items_in self.old.told) LinkItem.End → IfOk result (λ given. given ≡ None) }
        ensures ok { IfOk result (λ given. self.new.told ≡ now_given given ++ self.old.told) }
        ensures err { OnErr result (self.new.told ≡ self.old.told) }
        ensures cause { HasCause self.old.calls.faults self.new.calls.faults (result ≡ Err LinkFault.Failed) }
        ensures count { faults_of self.new ≡ faults_after (faults_of self.old) result }
    {
        self.calls.begin()?;
        match self.course.gave_now(alloc) {
            Ok(given) => Ok(given),
            Err(Mem) => Err(self.fall_short()),
        }
    }

    fn send<R: Net + Wait>(
        &mut self,
        _rt: &R,
        alloc: Global,
        at: u8,
        peer: u8,
        frame: &[u8],
    ) -> Result<(), LinkFault>
        ensures exact { LinksMemory (λ _. Sends (record { at = at; to = peer; bytes = frame.now })) self.old.left self.old self.new result }
        ensures ok { OnOk result (self.new.told ≡ Sends (record { at = at; to = peer; bytes = frame.now }) ∷ self.old.told) }
        ensures err { OnErr result (self.new.told ≡ self.old.told) }
        ensures cause { HasCause self.old.calls.faults self.new.calls.faults (result ≡ Err LinkFault.Failed) }
        ensures count { faults_of self.new ≡ faults_after (faults_of self.old) result }
    {
        self.calls.begin()?;
        match self.course.sent(alloc, at, u32::from(peer), frame) {
            Ok(()) => Ok(()),
            Err(Mem) => Err(self.fall_short()),
        }
    }

    fn reply<R: Net + Wait>(
        &mut self,
        _rt: &R,
        alloc: Global,
        at: u8,
        conn: u32,
        bytes: &[u8],
    ) -> Result<(), LinkFault>
        ensures exact { LinksMemory (λ _. Replies (record { at = at; to = conn; bytes = bytes.now })) self.old.left self.old self.new result }
        ensures ok { OnOk result (self.new.told ≡ Replies (record { at = at; to = conn; bytes = bytes.now }) ∷ self.old.told) }
        ensures err { OnErr result (self.new.told ≡ self.old.told) }
        ensures cause { HasCause self.old.calls.faults self.new.calls.faults (result ≡ Err LinkFault.Failed) }
        ensures count { faults_of self.new ≡ faults_after (faults_of self.old) result }
    {
        self.calls.begin()?;
        match self.course.replied(alloc, at, conn, bytes) {
            Ok(()) => Ok(()),
            Err(Mem) => Err(self.fall_short()),
        }
    }
}
