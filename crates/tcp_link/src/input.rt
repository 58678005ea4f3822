//! The bytes that came by a connection and weren't given yet.

ghost use Rattle.std.specs.Prelude.{◌≡◌, ◌≤◌, ◌++◌, [], OnOk, length, drop};

use ritas_base::Mem;
use std::alloc::Global;
use std::marker::Model;

/// Bytes in the order in which they came. Contracts see those that weren't taken yet.
#[derive(Drop)]
pub(crate) struct Input {
    bytes: Vec<u8>,
    taken: usize,
}

impl Model for Input {
    ghost use Rattle.std.specs.Prelude.{ℕ, List, ◌≤◌, drop, vec_len};

    ghost Value = { List ℕ };

    ghost view = { λ s. drop s.taken s.bytes.items };

    ghost invariant = { λ s. s.taken ≤ vec_len s.bytes };
}

impl Input {
    /// No byte.
    pub(crate) fn new(alloc: Global) -> Input
        ensures { result ≡ [] }
    {
        Input {
            bytes: Vec::new(alloc),
            taken: 0,
        }
    }

    /// The bytes that weren't taken yet.
    pub(crate) fn rest(&self) -> &[u8]
        ensures { result.now ≡ self.now }
    {
        &self.bytes[self.taken..]
    }

    /// Appends bytes. Those that were taken are let go of, so each byte is moved once at most for each call.
    pub(crate) fn append(&mut self, bytes: &[u8]) -> Result<(), Mem>
        ensures { OnOk result (self.new ≡ self.old ++ bytes.now) }
    {
        let taken = self.taken;
        self.taken = 0;
        self.bytes.drain(..taken);
        self.bytes.extend_from_slice(bytes)?;
        Ok(())
    }

    /// Takes so many bytes from the front.
    pub(crate) fn take(&mut self, count: usize)
        requires { count ≤ length self.old }
        ensures { self.new ≡ drop count self.old }
    {
        self.taken += count;
    }
}
