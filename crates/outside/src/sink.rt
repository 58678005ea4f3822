//! The trait of a sink, and writing all of some bytes to one.

ghost use Rattle.std.specs.Prelude.{◌≡◌, ◌<◌, ◌≤◌, ◌++◌, List, ℕ, Bool, true, length, take, IfOk, OnErr, IsErr};
ghost use Rattle.outside.specs.Faults.{HasCause, counted};
ghost use Rattle.outside.specs.Writing.{Writes};

use crate::source::Failed;

/// What bytes are written to, in pieces.
pub trait Sink {
    /// Whether it is told what was taken. It isn't of sockets, files and standard output.
    ghost tells: { Bool };

    /// The bytes that were taken, where they are told.
    ghost taken: { Self → List ℕ };

    /// How many of its calls failed, 0 to 2^64 - 1.
    ghost faults: { Self → ℕ };

    /// Takes bytes from the front of the buffer, and says how many: at least one, if the buffer has any.
    ///
    /// `Failed` is answered only where the count of faults rose, or stands at its last value. Nothing was taken then. At Ok the
    /// count stands.
    fn write(&mut self, buf: &[u8]) -> Result<usize, Failed>
        ensures some { 0 < length buf.now → IfOk result (λ k. 0 < k) }
        ensures count { IfOk result (λ k. k ≤ length buf.now) }
        ensures bytes { tells ≡ true → IfOk result (λ k. taken self.new ≡ taken self.old ++ take k buf.now) }
        ensures err { tells ≡ true → OnErr result (taken self.new ≡ taken self.old) }
        ensures cause { HasCause (faults self.old) (faults self.new) (IsErr result) }
        ensures counts { faults self.new ≡ counted (faults self.old) result };
}

/// Writes all the bytes, and stops at the first call of the sink that fails. On `Failed`, which comes only where the sink's
/// count of faults rose or stands at its last value, the sink took a front of them. It takes no memory.
pub fn write_all<K: Sink>(sink: &mut K, bytes: &[u8]) -> Result<(), Failed>
    ensures { Writes bytes.now K.tells (K.taken sink.old) (K.taken sink.new) (K.faults sink.old) (K.faults sink.new)
        result (IsErr result) }
{
    let mut at = 0;
    while at < bytes.len() {
        at += sink.write(&bytes[at..])?;
    }
    Ok(())
}
