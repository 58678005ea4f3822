//! What a replica puts out: a frame for another.

use ritas_base::Bytes;

/// A frame that a replica made, and which replica it is for. The calls named `lazily` put out `OutFrame<LazyFrame>`, whose tag is
/// computed once its bytes are asked for; the others put out the bytes. Contracts see either frame as its bytes.
#[derive(Drop)]
pub struct OutFrame<F = Bytes> {
    /// The receiver: a replica below n, and not the one that made the frame.
    pub to: u8,
    /// The sealed frame.
    pub bytes: F,
}
