//! A frame that was made, and where it stands.

use keyed_channel::LazyFrame;

/// A frame that a correct replica made: in which event, by whom, for whom, and the frame.
#[derive(Clone, Copy)]
pub struct Made<'a> {
    /// The number of the event, from 0.
    pub event: u64,
    /// The sender.
    pub from: u8,
    /// The receiver.
    pub to: u8,
    /// The sealed frame: its tag is computed once its bytes are asked for.
    pub frame: &'a LazyFrame,
}

/// Where a frame that was made stands: in which event it was made, by whom and for whom, and its place in their list.
#[derive(Clone, Copy)]
pub(crate) struct Place {
    pub(crate) event: u64,
    pub(crate) from: u8,
    pub(crate) to: u8,
    pub(crate) at: u32,
}
