//! What a link in memory was told, and the items that it has left.

ghost use Rattle.std.specs.Prelude.{◌≡◌, ◌≢◌, ◌<◌, ◌∷◌, ◌++◌, [], ◌^◌, reverse, drop, length, IfOk, IfSome, OnOk, OnErr, All, Contains, None};
ghost use Rattle.outside.specs.Links.{Starts, Gives, Sends, Replies, bytes_of, plans_in, items_in, frames_in, replies_in, now_given};
ghost use Rattle.outside.specs.MemoryLink.{IsShort, first_of, rest_of, now_of};

use crate::link::{LinkItem, LinkPlan, Sent};
use ritas_base::{Bytes, Mem};
use std::alloc::Global;
use std::marker::Model;

// What a call did: for `Next` and `Now`, the place of the item that it gave. At the place after the last item it gave `End`.
#[derive(Clone, Copy)]
pub(crate) enum Did {
    Start,
    Next(usize),
    Now(usize),
    Send,
    Reply,
}

/// What was told, and the items that are left. Contracts see what was told with the newest first. After want of memory
/// all is as before.
#[derive(Drop)]
pub(crate) struct Course {
    items: Vec<LinkItem>,
    at: usize,
    dids: Vec<Did>,
    plans: Vec<LinkPlan>,
    frames: Vec<Sent>,
    replies: Vec<Sent>,
}

impl Model for Course {
    ghost use Rattle.std.specs.Prelude.{drop};
    ghost use Rattle.outside.specs.Courses.{CourseState, told_of, Fits};

    ghost Value = { CourseState };

    ghost view = { λ s. record {
      left = drop s.at s.items.items;
      told = told_of s.items.items s.dids.items s.plans.items s.frames.items s.replies.items;
    } };

    ghost invariant = { λ s. Fits s.items.items s.at s.dids.items s.plans.items s.frames.items s.replies.items };
}

// A copy of the item that is given at this place.
fn item_at(alloc: Global, items: &[LinkItem], at: usize) -> Result<LinkItem, Mem>
    ensures { IfOk result (λ item. item ≡ first_of (drop at items.now)) }
{
    match items.get(at) {
        Some(item) => item.copy(alloc),
        None => Ok(LinkItem::End),
    }
}

// The place of the item that is given after the one at this place.
fn place_after(items: &[LinkItem], at: usize) -> usize
    ensures { drop result items.now ≡ rest_of (drop at items.now) }
{
    match items.get(at) {
        None | Some(LinkItem::End) => at,
        Some(_) => at + 1,
    }
}

impl Course {
    /// Nothing was told, and these items are left.
    pub(crate) fn new(alloc: Global, items: Vec<LinkItem>) -> Course
        requires { All IsShort items.items }
        ensures { result ≡ record { left = items.items; told = [] } }
    {
        Course {
            items,
            at: 0,
            dids: Vec::new(alloc),
            plans: Vec::new(alloc),
            frames: Vec::new(alloc),
            replies: Vec::new(alloc),
        }
    }

    /// A plan was started.
    pub(crate) fn started(&mut self, alloc: Global, plan: &LinkPlan) -> Result<(), Mem>
        ensures ok { OnOk result (self.new ≡ record self.old { told = Starts plan.now ∷ self.old.told }) }
        ensures err { OnErr result (self.new ≡ self.old) }
    {
        let plan = plan.copy(alloc)?;
        self.dids.reserve(1)?;
        self.plans.push(plan)?;
        self.dids.push_reserved(Did::Start);
        Ok(())
    }

    /// A frame was sent.
    pub(crate) fn sent(&mut self, alloc: Global, at: u8, to: u32, bytes: &[u8]) -> Result<(), Mem>
        ensures ok { OnOk result (self.new ≡ record self.old { told = Sends (record { at = at; to = to; bytes = bytes.now }) ∷ self.old.told }) }
        ensures err { OnErr result (self.new ≡ self.old) }
    {
        let bytes = Bytes::from_slice(alloc, bytes)?;
        self.dids.reserve(1)?;
        self.frames.push(Sent { at, to, bytes })?;
        self.dids.push_reserved(Did::Send);
        Ok(())
    }

    /// A reply was sent.
    pub(crate) fn replied(
        &mut self,
        alloc: Global,
        at: u8,
        to: u32,
        bytes: &[u8],
    ) -> Result<(), Mem>
        ensures ok { OnOk result (self.new ≡ record self.old { told = Replies (record { at = at; to = to; bytes = bytes.now }) ∷ self.old.told }) }
        ensures err { OnErr result (self.new ≡ self.old) }
    {
        let bytes = Bytes::from_slice(alloc, bytes)?;
        self.dids.reserve(1)?;
        self.replies.push(Sent { at, to, bytes })?;
        self.dids.push_reserved(Did::Reply);
        Ok(())
    }

    /// The next item is given.
    pub(crate) fn gave(&mut self, alloc: Global) -> Result<LinkItem, Mem>
        ensures item { IfOk result (λ item. item ≡ first_of self.old.left) }
        ensures ok { IfOk result (λ item. self.new ≡ record { left = rest_of self.old.left; told = Gives item ∷ self.old.told }) }
        ensures size { IfOk result (λ item. length (bytes_of item) < 2 ^ 16) }
        ensures end { Contains (items_in self.old.told) LinkItem.End → first_of self.old.left ≡ LinkItem.End }
        ensures err { OnErr result (self.new ≡ self.old) }
    {
        let item = item_at(alloc, &self.items, self.at)?;
        self.dids.push(Did::Next(self.at))?;
        self.at = place_after(&self.items, self.at);
        Ok(item)
    }

    /// The next item is given if it is left and isn't `End`, and else none.
    pub(crate) fn gave_now(&mut self, alloc: Global) -> Result<Option<LinkItem>, Mem>
        ensures item { IfOk result (λ given. given ≡ now_of self.old.left) }
        ensures ok { IfOk result (λ given. self.new ≡ record { left = rest_of self.old.left; told = now_given given ++ self.old.told }) }
        ensures size { IfOk result (λ given. IfSome given (λ item. length (bytes_of item) < 2 ^ 16)) }
        ensures open { IfOk result (λ given. IfSome given (λ item. item ≢ LinkItem.End)) }
        ensures end { Contains (items_in self.old.told) LinkItem.End → now_of self.old.left ≡ None }
        ensures err { OnErr result (self.new ≡ self.old) }
    {
        let given = item_at(alloc, &self.items, self.at)?;
        if given.is_end() {
            return Ok(None);
        }
        self.dids.push(Did::Now(self.at))?;
        self.at = place_after(&self.items, self.at);
        Ok(Some(given))
    }

    /// The plans that were started, in order.
    pub(crate) fn plans(&self) -> &[LinkPlan]
        ensures { reverse result.now ≡ plans_in self.now.told }
    {
        &self.plans
    }

    /// The frames that were sent, in order.
    pub(crate) fn frames(&self) -> &[Sent]
        ensures { reverse result.now ≡ frames_in self.now.told }
    {
        &self.frames
    }

    /// The replies that were sent, in order.
    pub(crate) fn replies(&self) -> &[Sent]
        ensures { reverse result.now ≡ replies_in self.now.told }
    {
        &self.replies
    }
}
