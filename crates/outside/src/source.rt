//! The trait of a source, and the fault of a call.

ghost use Rattle.std.specs.Prelude.{◌≡◌, ◌<◌, ◌≤◌, ◌++◌, List, [], ℕ, Bool, true, length, take, IfOk, OnErr, IsErr};
ghost use Rattle.outside.specs.Faults.{HasCause, counted};

/// The one fault of a source and of a sink.
#[derive(Clone, Copy, Debug, PartialEq, Eq)]
pub struct Failed;

/// What bytes are read from, in pieces.
pub trait Source {
    /// Whether it is told what is left. It isn't of sockets, files and standard input.
    ghost tells: { Bool };

    /// The bytes that are left, where they are told.
    ghost left: { Self → List ℕ };

    /// How many of its calls failed, 0 to 2^64 - 1.
    ghost faults: { Self → ℕ };

    /// Takes bytes from the front of what is left, at most as many as the buffer holds, and says how many. It takes
    /// none only at the end. The buffer may not be empty.
    ///
    /// `Failed` is answered only where the count of faults rose, or stands at its last value. Nothing was taken then. At Ok the
    /// count stands.
    fn read(&mut self, buf: &mut [u8]) -> Result<usize, Failed>
        requires { 0 < length buf.old }
        ensures count { IfOk result (λ k. k ≤ length buf.old) }
        ensures bytes { tells ≡ true → IfOk result (λ k. left self.old ≡ take k buf.new ++ left self.new) }
        ensures end { tells ≡ true → IfOk result (λ k. k ≡ 0 → left self.old ≡ []) }
        ensures err { tells ≡ true → OnErr result (left self.new ≡ left self.old) }
        ensures cause { HasCause (faults self.old) (faults self.new) (IsErr result) }
        ensures counts { faults self.new ≡ counted (faults self.old) result };
}
