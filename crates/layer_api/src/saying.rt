//! What a layer says is put out at its end: all of it, or none for want of memory.

ghost use Rattle.std.specs.Prelude.{◌≡◌, ◌++◌, [], Ok, IfOk, OnErr};

use ritas_base::{Mem, Say};

/// Puts out what was said on the way to this value: it is appended to `says`, and `made` is left empty.
///
/// For want of memory, on the way or here, nothing is put out.
pub fn put_out<T: Drop>(
    reached: Result<T, Mem>,
    made: &mut Vec<Say>,
    says: &mut Vec<Say>,
) -> Result<T, Mem>
    ensures ok { IfOk result (λ x. (reached ≡ Ok x) × (says.new.items ≡ says.old.items ++ made.old.items)) }
    ensures emptied { IfOk result (λ x. made.new.items ≡ []) }
    ensures err { OnErr result (says.new.items ≡ says.old.items) }
{
    let x = reached?;
    says.append(made)?;
    Ok(x)
}
