//! What a run is given of the machine that it runs on.

use std::alloc::Global;

/// The runtime, whose sockets the link uses and on which it waits, and where memory is taken.
#[derive(Drop)]
pub(crate) struct Host<'a, R> {
    pub(crate) rt: &'a R,
    pub(crate) alloc: Global,
}
