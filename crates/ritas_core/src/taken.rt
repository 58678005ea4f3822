//! What became of an item that its broadcast was given.

use ritas_base::Bytes;

/// What became of an item: it repeats one, or was taken, with what its slot newly delivers.
#[derive(Drop)]
pub(crate) enum Taken {
    Repeat,
    Took(Option<Bytes>),
}
