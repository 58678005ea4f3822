//! What a session ends with.
ghost use Rattle.std.specs.Prelude.{◌≡◌, true, false};
ghost use Rattle.node_session.specs.Opening.{Closes, is_reason};

use node_loop::ServeEnd;
use outside::Sink;
use schedule_file::Writer;

// Whether serving ended by its rules.
fn is_reason(end: ServeEnd) -> bool
    ensures is { result ≡ is_reason end }
{
    match end {
        ServeEnd::Over | ServeEnd::Done | ServeEnd::Limit | ServeEnd::End | ServeEnd::KeptFull(_) =>
            true,
        ServeEnd::LinkFault
        | ServeEnd::TapeFault
        | ServeEnd::Mem
        | ServeEnd::DiskFault
        | ServeEnd::JournalFull(_) => false,
    }
}

/// Writes the end mark, where serving ended by its rules.
pub(crate) fn close<K: Sink>(output: &mut K, end: ServeEnd) -> ServeEnd
    ensures reason { is_reason end ≡ true → Closes K.tells (K.taken output.old) (K.taken output.new) (K.faults output.old) (K.faults output.new) end result }
    ensures fault { is_reason end ≡ false → (result ≡ end) × (output.new ≡ output.old) }
{
    if !is_reason(end) {
        return end;
    }
    match Writer::end(output) {
        Ok(()) => end,
        Err(_) => ServeEnd::TapeFault,
    }
}
