//! Single calls of readers and writers, for contracts to name.

ghost use Rattle.std.specs.Prelude.{ℕ, List, Result};
ghost use Rattle.std.specs.Io.KnownBytes.{ReadConsumes, WriteAppends};
ghost use Rattle.std.specs.declared.io.Error.{Error};

use std::io;
use std::io::{Read, Write};

/// A reader of which contracts can name a call. Each reader of std is one.
pub trait ReadCall {
    /// Whether a call with this buffer may answer so, and leave the buffer and the reader so.
    ghost reads: { Self → List ℕ → Result ℕ Error → List ℕ → Self → Type 0 };

    /// Reads once.
    fn read_once(&mut self, buf: &mut [u8]) -> io::Result<usize>
        ensures { reads self.old buf.old result buf.new self.new };
}

/// A writer of which contracts can name a call. Each writer of std is one.
pub trait WriteCall {
    /// Whether a call with these bytes may answer so, and leave the writer so.
    ghost writes: { Self → List ℕ → Result ℕ Error → Self → Type 0 };

    /// Writes once.
    fn write_once(&mut self, bytes: &[u8]) -> io::Result<usize>
        ensures { writes self.old bytes.now result self.new };
}

impl<R: Read> ReadCall for R {
    ghost reads = { λ old before answer after new. ReadConsumes (R.remaining old) (R.remaining new) answer after };

    fn read_once(&mut self, buf: &mut [u8]) -> io::Result<usize>
        ensures { ReadConsumes (R.remaining self.old) (R.remaining self.new) result buf.new }
    {
        self.read(buf)
    }
}

impl<W: Write> WriteCall for W {
    ghost writes = { λ old bytes answer new. WriteAppends (W.contents old) (W.contents new) answer bytes };

    fn write_once(&mut self, bytes: &[u8]) -> io::Result<usize>
        ensures { WriteAppends (W.contents self.old) (W.contents self.new) result bytes.now }
    {
        self.write(bytes)
    }
}
