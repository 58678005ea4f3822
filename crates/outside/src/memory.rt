//! A source and a sink in memory, of which the listed calls fail.

ghost use Rattle.std.specs.Prelude.{◌≡◌, ◌<◌, ◌≤◌, ◌++◌, ◌↔◌, [], true, length, take, min, IsTrue, IfOk, OnErr, IsErr, Contains, ⊤};
ghost use Rattle.outside.specs.Faults.{HasCause, count_after, counted};
ghost use Rattle.outside.specs.Memory.{no_calls, calls_after, IsFault, ReadsMemory, WritesMemory};

use crate::sink::Sink;
use crate::source::{Failed, Source};
use ritas_base::Mem;
use std::alloc::Global;
use std::marker::Model;

/// A count after one more, which stands at its last value.
pub(crate) fn raised(count: u64) -> u64
    ensures value { result ≡ count_after count }
    ensures cause { HasCause count result ⊤ }
{
    count.saturating_add(1)
}

/// The calls of a source, a sink or a link: the numbers of those that fail, the next number, and how many failed.
#[derive(Drop)]
pub(crate) struct CallList {
    fails: Vec<u64>,
    number: u64,
    faults: u64,
}

impl Model for CallList {
    ghost use Rattle.outside.specs.Memory.{FailingCalls};

    ghost Value = { FailingCalls };

    ghost view = { λ c. record { fails = c.fails.items; number = c.number; faults = c.faults } };
}

impl CallList {
    /// No call was made yet.
    pub(crate) fn new(alloc: Global, fails: &[u64]) -> Result<CallList, Mem>
        ensures { IfOk result (λ c. c ≡ no_calls fails.now) }
    {
        Ok(CallList {
            fails: Vec::from_slice(alloc, fails)?,
            number: 0,
            faults: 0,
        })
    }

    /// Whether the next call is one that fails.
    pub(crate) fn is_fault(&self) -> bool
        ensures { IsTrue result ↔ Contains self.now.fails self.now.number }
    {
        self.fails.contains(&self.number)
    }

    /// The number of the next call.
    pub(crate) fn number(&self) -> u64
        ensures { result ≡ self.now.number }
    {
        self.number
    }

    /// A call, which fails where it is listed.
    pub(crate) fn begin(&mut self) -> Result<(), Failed>
        ensures fails { IsErr result ↔ IsFault self.old }
        ensures calls { self.new ≡ calls_after self.old result }
        ensures cause { HasCause self.old.faults self.new.faults (IsErr result) }
    {
        if self.is_fault() {
            self.fail();
            return Err(Failed);
        }
        self.pass();
        Ok(())
    }

    /// A call that didn't fail.
    pub(crate) fn pass(&mut self)
        ensures { self.new ≡ record self.old { number = count_after self.old.number } }
    {
        self.number = raised(self.number);
    }

    /// A call that failed.
    pub(crate) fn fail(&mut self)
        ensures calls { self.new ≡ record self.old {
          number = count_after self.old.number;
          faults = count_after self.old.faults;
        } }
        ensures cause { HasCause self.old.faults self.new.faults ⊤ }
    {
        self.number = raised(self.number);
        self.faults = raised(self.faults);
    }
}

/// A source in memory. Contracts see what is left, and its calls: those that fail, the number of the next one, and
/// how many failed.
#[derive(Drop)]
pub struct MemSource {
    bytes: Vec<u8>,
    at: usize,
    calls: CallList,
}

impl Model for MemSource {
    ghost use Rattle.std.specs.Prelude.{drop};
    ghost use Rattle.outside.specs.Memory.{SourceState};

    ghost Value = { SourceState };

    ghost view = { λ s. record { left = drop s.at s.bytes.items; calls = s.calls } };
}

impl MemSource {
    /// A source of a copy of these bytes. `fails` lists the numbers of the calls of `read` that fail. Calls are
    /// numbered from 0, and each call after number 2^64 - 1 has that number too. The one error is want of memory.
    pub fn new(alloc: Global, bytes: &[u8], fails: &[u64]) -> Result<MemSource, Mem>
        ensures { IfOk result (λ s. s ≡ record { left = bytes.now; calls = no_calls fails.now }) }
    {
        Ok(MemSource {
            bytes: Vec::from_slice(alloc, bytes)?,
            at: 0,
            calls: CallList::new(alloc, fails)?,
        })
    }
}

impl Source for MemSource {
    ghost tells = { true };

    ghost left = { λ s. s.left };

    ghost faults = { λ s. s.calls.faults };

    /// Fails exactly where the call's number is listed. Else it takes all that the buffer holds of what is left.
    fn read(&mut self, buf: &mut [u8]) -> Result<usize, Failed>
        requires { 0 < length buf.old }
        ensures exact { ReadsMemory self.old self.new buf.old buf.new result }
        ensures count { IfOk result (λ k. k ≤ length buf.old) }
        ensures bytes { IfOk result (λ k. self.old.left ≡ take k buf.new ++ self.new.left) }
        ensures end { IfOk result (λ k. k ≡ 0 → self.old.left ≡ []) }
        ensures err { OnErr result (self.new.left ≡ self.old.left) }
        ensures cause { HasCause self.old.calls.faults self.new.calls.faults (IsErr result) }
        ensures counts { self.new.calls.faults ≡ counted self.old.calls.faults result }
    {
        self.calls.begin()?;
        if self.at >= self.bytes.len() {
            return Ok(0);
        }
        let left = &self.bytes[self.at..];
        let count = buf.len().min(left.len());
        buf[..count].copy_from_slice(&left[..count]);
        self.at += count;
        Ok(count)
    }
}

/// A sink in memory, which takes as many bytes as it has room for. Contracts see what was taken, the room that was
/// reserved, and its calls: those that fail, the number of the next one, and how many failed.
#[derive(Drop)]
pub struct MemSink {
    bytes: Vec<u8>,
    room: usize,
    calls: CallList,
}

impl Model for MemSink {
    ghost use Rattle.std.specs.Prelude.{◌≤◌};
    ghost use Rattle.std.specs.Vec.{vec_len, vec_capacity};
    ghost use Rattle.outside.specs.Memory.{SinkState};

    ghost Value = { SinkState };

    ghost view = { λ s. record { taken = s.bytes.items; room = s.room; calls = s.calls } };

    ghost invariant = { λ s. (vec_len s.bytes ≤ s.room) × (s.room ≤ vec_capacity s.bytes) };
}

impl MemSink {
    /// A sink that took nothing and has room for so many bytes, which are reserved here, so that no write takes
    /// memory. `fails` lists the numbers of the calls of `write` that fail. Calls are numbered from 0, and each call
    /// after number 2^64 - 1 has that number too. The one error is want of memory.
    pub fn new(alloc: Global, room: usize, fails: &[u64]) -> Result<MemSink, Mem>
        ensures { IfOk result (λ s. s ≡ record { taken = []; room = room; calls = no_calls fails.now }) }
    {
        Ok(MemSink {
            bytes: Vec::with_capacity(alloc, room)?,
            room,
            calls: CallList::new(alloc, fails)?,
        })
    }

    /// The bytes that were taken, in order. It takes no memory.
    pub fn taken(&self) -> &[u8]
        ensures { result.now ≡ self.now.taken }
    {
        &self.bytes
    }
}

impl Sink for MemSink {
    ghost tells = { true };

    ghost taken = { λ s. s.taken };

    ghost faults = { λ s. s.calls.faults };

    /// Fails exactly where the call's number is listed, or where it has bytes and no room is left. Else it takes as
    /// many of its bytes as there is room for. It takes no memory.
    fn write(&mut self, buf: &[u8]) -> Result<usize, Failed>
        ensures exact { WritesMemory self.old self.new buf.now result }
        ensures some { 0 < length buf.now → IfOk result (λ k. 0 < k) }
        ensures count { IfOk result (λ k. k ≤ length buf.now) }
        ensures bytes { IfOk result (λ k. self.new.taken ≡ self.old.taken ++ take k buf.now) }
        ensures err { OnErr result (self.new.taken ≡ self.old.taken) }
        ensures cause { HasCause self.old.calls.faults self.new.calls.faults (IsErr result) }
        ensures counts { self.new.calls.faults ≡ counted self.old.calls.faults result }
    {
        let count = buf.len().min(self.room - self.bytes.len());
        if self.calls.is_fault() || count == 0 && !buf.is_empty() {
            self.calls.fail();
            return Err(Failed);
        }
        self.calls.pass();
        self.bytes.extend_from_slice(&buf[..count]).unwrap();
        Ok(count)
    }
}
