//! A sink in memory that grows with what it takes.

ghost use Rattle.std.specs.Prelude.{◌≡◌, ◌<◌, ◌≤◌, ◌++◌, [], true, length, take, IfOk, OnErr, IsOk, IsErr};
ghost use Rattle.outside.specs.Faults.{HasCause, count_after, counted};

use crate::sink::Sink;
use crate::source::Failed;
use std::alloc::Global;
use std::marker::Model;

/// A sink in memory that grows with what it takes. Contracts see what was taken, and how many of its calls failed.
#[derive(Drop)]
pub struct Buffer {
    bytes: Vec<u8>,
    faults: u64,
}

impl Model for Buffer {
    ghost use Rattle.outside.specs.Memory.{BufferState};

    ghost Value = { BufferState };

    ghost view = { λ b. record { taken = b.bytes.items; faults = b.faults } };
}

impl Buffer {
    /// A sink that took nothing, and of which no call failed yet. It takes no memory.
    pub fn new(alloc: Global) -> Self
        ensures { result ≡ record { taken = []; faults = 0 } }
    {
        Buffer {
            bytes: Vec::new(alloc),
            faults: 0,
        }
    }

    /// The bytes that were taken, in order. It takes no memory.
    pub fn taken(&self) -> &[u8]
        ensures { result.now ≡ self.now.taken }
    {
        &self.bytes
    }

    /// It took nothing any more. Its memory stays with it, for what comes, and so does its count of faults.
    pub fn clear(&mut self)
        ensures { self.new ≡ record self.old { taken = [] } }
    {
        self.bytes.clear()
    }

    /// How many bytes were taken.
    pub fn len(&self) -> usize
        ensures { result ≡ length self.now.taken }
    {
        self.bytes.len()
    }
}

impl Sink for Buffer {
    ghost tells = { true };

    ghost taken = { λ b. b.taken };

    ghost faults = { λ b. b.faults };

    /// Takes all of its bytes, or fails for want of memory. Then it took nothing, and its count of faults rose by one up
    /// to its last value.
    fn write(&mut self, buf: &[u8]) -> Result<usize, Failed>
        ensures ok { IfOk result (λ k. (k ≡ length buf.now) × (self.new ≡ record self.old { taken = self.old.taken ++ buf.now })) }
        ensures fault { OnErr result (self.new ≡ record self.old { faults = count_after self.old.faults }) }
        ensures empty { buf.now ≡ [] → IsOk result }
        ensures some { 0 < length buf.now → IfOk result (λ k. 0 < k) }
        ensures count { IfOk result (λ k. k ≤ length buf.now) }
        ensures bytes { IfOk result (λ k. self.new.taken ≡ self.old.taken ++ take k buf.now) }
        ensures err { OnErr result (self.new.taken ≡ self.old.taken) }
        ensures cause { HasCause self.old.faults self.new.faults (IsErr result) }
        ensures counts { self.new.faults ≡ counted self.old.faults result }
    {
        match self.bytes.extend_from_slice(buf) {
            Ok(()) => Ok(buf.len()),
            Err(_) => {
                self.faults = self.faults.saturating_add(1);
                Err(Failed)
            }
        }
    }
}
