//! What a text says, as parts of the text, before memory is taken for it.
ghost use Rattle.std.specs.Prelude.{◌≡◌, ◌<◌, ◌≤◌, ◌∷◌, ◌++◌, [], IfOk, length};
ghost use Rattle.cluster_config.specs.Cluster.{most_requests};
ghost use Rattle.cluster_config.specs.Views.{payload_of, viewed_request};

use crate::requests::{Request, Requests};
use ritas_base::{Bytes, Mem, Texts};
use std::alloc::Global;
use std::marker::Model;

/// At most 31 addresses of a text. Contracts see them as a list.
#[derive(Drop)]
pub(crate) struct Addresses<'a> {
    texts: [&'a [u8]; 31],
    len: usize,
}

impl<'a> Model for Addresses<'a> {
    ghost use Rattle.std.specs.Prelude.{ℕ, ◌≤◌, List, map, take};

    ghost Value = { List (List ℕ) };

    ghost view = { λ a. map (λ t. t.now) (take a.len a.texts) };

    ghost invariant = { λ a. a.len ≤ 31 };
}

impl<'a> Addresses<'a> {
    /// No address.
    pub(crate) fn new() -> Addresses<'a>
        ensures { result ≡ [] }
    {
        Addresses {
            texts: [&[]; 31],
            len: 0,
        }
    }

    /// How many there are.
    pub(crate) fn len(&self) -> usize
        ensures { result ≡ length self.now }
    {
        self.len
    }

    /// Appends an address.
    pub(crate) fn push(&mut self, text: &'a [u8])
        requires { length self.old < 31 }
        ensures { self.new ≡ self.old ++ text.entry.now ∷ [] }
    {
        self.texts[self.len] = text;
        self.len += 1;
    }

    /// A copy. The one error is want of memory.
    pub(crate) fn copy(&self, alloc: Global) -> Result<Texts, Mem>
        ensures { IfOk result (λ t. t ≡ self.now) }
    {
        let mut texts = Texts::new(alloc);
        for text in &self.texts[..self.len] {
            texts.push(Bytes::from_slice(alloc, text)?)?;
        }
        Ok(texts)
    }
}

/// A request of a text, whose bytes are still its digits.
#[derive(Clone, Copy)]
pub(crate) struct RequestView<'a> {
    pub(crate) at: u8,
    pub(crate) client: u32,
    pub(crate) request: u32,
    pub(crate) digits: &'a [u8],
}

// The bytes that digits stand for. The one error is want of memory, where they stand for any.
fn payload(alloc: Global, digits: &[u8]) -> Result<Bytes, Mem>
    ensures { IfOk result (λ bytes. bytes ≡ payload_of digits.now) }
{
    if digits == b"-".as_slice() {
        return Ok(Bytes::from_vec(Vec::new(alloc)));
    }
    match hex::decode(alloc, digits) {
        Ok(bytes) => Ok(Bytes::from_vec(bytes)),
        Err(_) => Err(Mem),
    }
}

impl<'a> RequestView<'a> {
    /// A copy. The one error is want of memory.
    pub(crate) fn copy(&self, alloc: Global) -> Result<Request, Mem>
        ensures { IfOk result (λ r. r ≡ viewed_request self.now) }
    {
        Ok(Request {
            at: self.at,
            client: self.client,
            request: self.request,
            payload: payload(alloc, self.digits)?,
        })
    }
}

/// A configuration of all replicas has at most so many requests (`most_requests`).
pub(crate) const MOST_REQUESTS: usize = 64;

/// At most `MOST_REQUESTS` (64) requests of a text. Contracts see them as a list.
#[derive(Drop)]
pub(crate) struct RequestViews<'a> {
    views: [RequestView<'a>; MOST_REQUESTS],
    len: usize,
}

impl<'a> Model for RequestViews<'a> {
    ghost use Rattle.std.specs.Prelude.{◌≡◌, ◌≤◌, List, length, map, take};
    ghost use Rattle.cluster_config.specs.declared.requests.Request.{Request};
    ghost use Rattle.cluster_config.specs.Cluster.{most_requests};
    ghost use Rattle.cluster_config.specs.Views.{viewed_request};

    ghost Value = { List Request };

    ghost view = { λ r. map viewed_request (take r.len r.views) };

    ghost invariant = { λ r. (r.len ≤ most_requests) × (length r.views ≡ most_requests) };
}

impl<'a> RequestViews<'a> {
    /// No request.
    pub(crate) fn new() -> RequestViews<'a>
        ensures { result ≡ [] }
    {
        let none = RequestView {
            at: 0,
            client: 0,
            request: 0,
            digits: &[],
        };
        RequestViews {
            views: [none; MOST_REQUESTS],
            len: 0,
        }
    }

    /// How many there are.
    pub(crate) fn len(&self) -> usize
        ensures { result ≡ length self.now }
    {
        self.len
    }

    /// Appends a request.
    pub(crate) fn push(&mut self, view: RequestView<'a>)
        requires { length self.old < most_requests }
        ensures { self.new ≡ self.old ++ viewed_request view.entry ∷ [] }
    {
        self.views[self.len] = view;
        self.len += 1;
    }

    /// A copy. The one error is want of memory.
    pub(crate) fn copy(&self, alloc: Global) -> Result<Requests, Mem>
        ensures { IfOk result (λ r. r ≡ self.now) }
    {
        let mut requests = Requests::new(alloc);
        for view in &self.views[..self.len] {
            requests.push(view.copy(alloc)?)?;
        }
        Ok(requests)
    }
}
