//! Reading a source to its end, where it has at most so many bytes.

ghost use Rattle.std.specs.Prelude.{◌≡◌, ◌≢◌, ◌<◌, ◌≤◌, ◌+◌, ◌^◌, ◌↔◌, [], true, length, Err, IfOk};
ghost use Rattle.outside.specs.Faults.{HasCause};
ghost use Rattle.outside.specs.Wholes.{read_faults_after};
ghost use Rattle.outside.specs.declared.whole.ReadFault.TheVariants as faults;

use crate::source::{Failed, Source};
use std::alloc::{AllocError, Global};

// So many bytes are read at once.
const PIECE: usize = 16_384;

/// Why what a source has left wasn't read to its end.
#[derive(Clone, Copy, Debug, PartialEq, Eq)]
pub enum ReadFault {
    /// More bytes are left than may be.
    TooLong,
    /// The source failed.
    Failed,
    /// There was not enough memory.
    Mem,
}

impl From<Failed> for ReadFault {
    ghost from_gives = { λ _ e. e ≡ faults.Failed };

    fn from(_: Failed) -> ReadFault {
        ReadFault::Failed
    }
}

impl From<AllocError> for ReadFault {
    ghost from_gives = { λ _ e. e ≡ faults.Mem };

    fn from(_: AllocError) -> ReadFault {
        ReadFault::Mem
    }
}

/// Reads all that a source has left, where these are at most `most` bytes. At most one byte more is asked for, and memory
/// is taken as the bytes come.
///
/// `TooLong` says that more than `most` are left. `Failed` is answered only where the source's count of faults rose, or
/// stands at its last value, and every other answer leaves that count as it was. After a fault the bytes that came before it
/// are lost.
pub fn read_whole<S: Source>(
    alloc: Global,
    source: &mut S,
    most: usize,
) -> Result<Vec<u8>, ReadFault>
    requires { most < 2 ^ 32 }
    ensures whole { S.tells ≡ true → IfOk result (λ v. v.items ≡ S.left source.old) }
    ensures end { S.tells ≡ true → IfOk result (λ _. S.left source.new ≡ []) }
    ensures within { IfOk result (λ v. length v.items ≤ most) }

    // Unless the source failed or memory ran out, this is answered exactly where more are left.
    ensures too_long { S.tells ≡ true → result ≢ Err ReadFault.Failed → result ≢ Err ReadFault.Mem
        → (result ≡ Err ReadFault.TooLong) ↔ (most < length (S.left source.old)) }

    // In any case at most one byte more was taken.
    ensures taken { S.tells ≡ true → length (S.left source.old) ≤ length (S.left source.new) + most + 1 }
    ensures cause { HasCause (S.faults source.old) (S.faults source.new) (result ≡ Err ReadFault.Failed) }
    ensures counts { S.faults source.new ≡ read_faults_after (S.faults source.old) result }
{
    let mut bytes = Vec::new(alloc);
    let mut piece = [0; PIECE];
    while bytes.len() <= most {
        let wanted = (most + 1 - bytes.len()).min(PIECE);
        let count = source.read(&mut piece[..wanted])?;
        if count == 0 {
            return Ok(bytes);
        }
        bytes.extend_from_slice(&piece[..count])?;
    }
    Err(ReadFault::TooLong)
}
