//! Sources and sinks over the readers and writers of the system: an error is a fault, which is counted.

ghost use Rattle.std.specs.Prelude.{◌≡◌, ◌<◌, ◌≤◌, ℕ, [], length, Bool, false, IfOk, IsErr};
ghost use Rattle.outside.specs.Adapters.{comes_of, ComesOf};
ghost use Rattle.outside.specs.Faults.{HasCause, counted};

use crate::calls::{ReadCall, WriteCall};
use crate::sink::Sink;
use crate::source::{Failed, Source};
use std::io;
use std::marker::Model;

/// What a call of the system comes to: its own answer, or a fault where it was an error, or took fewer bytes than it has to or
/// more than it may. A fault raises the count by one up to its last value.
fn counted(
    faults: &mut u64,
    answer: io::Result<usize>,
    least: usize,
    most: usize,
) -> Result<usize, Failed>
    ensures value { result ≡ comes_of least most answer }
    ensures within { IfOk result (λ k. (least ≤ k) × (k ≤ most)) }
    ensures counts { faults.new ≡ counted faults.old result }
    ensures cause { HasCause faults.old faults.new (IsErr result) }
{
    match answer {
        Ok(count) if least <= count && count <= most => Ok(count),
        _ => {
            *faults = faults.saturating_add(1);
            Err(Failed)
        }
    }
}

/// A source over a reader, as one of the system. What it has left isn't told. Contracts see the reader, and how many
/// of its calls failed.
#[derive(Drop)]
pub struct FromRead<R> {
    inner: R,
    faults: u64,
}

impl<R> Model for FromRead<R> {
    ghost use Rattle.outside.specs.Adapters.{Adapter};

    ghost Value = { Adapter R };

    ghost view = { λ s. record { inner = s.inner; faults = s.faults } };
}

impl<R: ReadCall> FromRead<R> {
    /// A source over this reader, of which no call failed yet.
    pub fn new(inner: R) -> FromRead<R>
        ensures { result ≡ record { inner = inner; faults = 0 } }
    {
        FromRead { inner, faults: 0 }
    }
}

impl<R: ReadCall> Source for FromRead<R> {
    ghost tells = { false };

    ghost left = { λ _. [] };

    ghost faults = { λ s. s.faults };

    /// Makes one call of the reader, with this buffer. An error of that is a fault, and raises the count by one up to its last
    /// value.
    fn read(&mut self, buf: &mut [u8]) -> Result<usize, Failed>
        requires { 0 < length buf.old }
        ensures one { ComesOf (λ answer. R.reads self.old.inner buf.old answer buf.new self.new.inner) 0 (length buf.old) result }
        ensures count { IfOk result (λ k. k ≤ length buf.old) }
        ensures counts { self.new.faults ≡ counted self.old.faults result }
        ensures cause { HasCause self.old.faults self.new.faults (IsErr result) }
    {
        let most = buf.len();
        let answer = self.inner.read_once(buf);
        counted(&mut self.faults, answer, 0, most)
    }
}

/// A sink over a writer, as one of the system. What it took isn't told. Contracts see the writer, and how many of its
/// calls failed.
#[derive(Drop)]
pub struct ToWrite<W> {
    inner: W,
    faults: u64,
}

impl<W> Model for ToWrite<W> {
    ghost use Rattle.outside.specs.Adapters.{Adapter};

    ghost Value = { Adapter W };

    ghost view = { λ s. record { inner = s.inner; faults = s.faults } };
}

impl<W: WriteCall> ToWrite<W> {
    /// A sink over this writer, of which no call failed yet.
    pub fn new(inner: W) -> ToWrite<W>
        ensures { result ≡ record { inner = inner; faults = 0 } }
    {
        ToWrite { inner, faults: 0 }
    }
}

impl<W: WriteCall> Sink for ToWrite<W> {
    ghost tells = { false };

    ghost taken = { λ _. [] };

    ghost faults = { λ s. s.faults };

    /// Makes one call of the writer, with these bytes. An error of that is a fault, and so is a write that takes nothing: each
    /// raises the count by one up to its last value.
    fn write(&mut self, buf: &[u8]) -> Result<usize, Failed>
        ensures one { ComesOf (λ answer. W.writes self.old.inner buf.now answer self.new.inner) 1 (length buf.now) result }
        ensures some { IfOk result (λ k. 0 < k) }
        ensures count { IfOk result (λ k. k ≤ length buf.now) }
        ensures cause { HasCause self.old.faults self.new.faults (IsErr result) }
        ensures counts { self.new.faults ≡ counted self.old.faults result }
    {
        let answer = self.inner.write_once(buf);
        counted(&mut self.faults, answer, 1, buf.len())
    }
}
