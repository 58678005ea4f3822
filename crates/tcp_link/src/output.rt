//! The bytes that are to go out by a connection.

ghost use Rattle.std.specs.Prelude.{◌≡◌, ◌≤◌, ◌<◌, ◌∷◌, ◌++◌, ◌^◌, [], OnOk, length, drop};
ghost use Rattle.tcp_link.specs.Pieces.{piece};

use ritas_base::Mem;
use std::alloc::Global;
use std::marker::Model;

/// Bytes in the order in which they are to go out. Contracts see those that weren't written yet.
#[derive(Drop)]
pub(crate) struct Output {
    bytes: Vec<u8>,
    written: usize,
}

impl Model for Output {
    ghost use Rattle.std.specs.Prelude.{ℕ, List, ◌≤◌, drop, vec_len};

    ghost Value = { List ℕ };

    ghost view = { λ s. drop s.written s.bytes.items };

    ghost invariant = { λ s. s.written ≤ vec_len s.bytes };
}

impl Output {
    /// No byte.
    pub(crate) fn new(alloc: Global) -> Output
        ensures { result ≡ [] }
    {
        Output {
            bytes: Vec::new(alloc),
            written: 0,
        }
    }

    /// The bytes that weren't written yet.
    pub(crate) fn rest(&self) -> &[u8]
        ensures { result.now ≡ self.now }
    {
        &self.bytes[self.written..]
    }

    // Lets go of what was written, once it is half of all, so that each byte is moved once at most.
    fn compact(&mut self)
        ensures { self.new ≡ self.old }
    {
        let written = self.written;
        if written > self.bytes.len() / 2 {
            self.written = 0;
            self.bytes.drain(..written);
        }
    }

    /// Appends one byte.
    pub(crate) fn push(&mut self, byte: u8) -> Result<(), Mem>
        ensures { OnOk result (self.new ≡ self.old ++ byte ∷ []) }
    {
        self.bytes.push(byte)?;
        Ok(())
    }

    /// Appends a piece.
    pub(crate) fn append(&mut self, bytes: &[u8]) -> Result<(), Mem>
        requires { length bytes.now < 2 ^ 16 }
        ensures { OnOk result (self.new ≡ self.old ++ piece bytes.now) }
    {
        self.compact();
        let told = (bytes.len() as u16).to_be_bytes();
        self.bytes.extend_from_slice(&told)?;
        self.bytes.extend_from_slice(bytes)?;
        Ok(())
    }

    /// Lets go of all.
    pub(crate) fn let_go(&mut self)
        ensures { self.new ≡ [] }
    {
        self.written = 0;
        self.bytes.clear();
    }

    /// So many bytes from the front were written.
    pub(crate) fn wrote(&mut self, count: usize)
        requires { count ≤ length self.old }
        ensures { self.new ≡ drop count self.old }
    {
        self.written += count;
        if self.written == self.bytes.len() {
            self.written = 0;
            self.bytes.clear();
        }
    }
}
