//! What may become of an item, an input or a turn that isn't refused.

/// What became of an item, an input or a turn.
#[derive(Clone, Copy, Debug, PartialEq, Eq)]
pub enum Answer {
    /// It was taken.
    Took,
    /// The item isn't open yet, and is held.
    Held,
    /// The item repeats one that was taken or is held.
    Repeat,
    /// No item waits.
    Idle,
}
