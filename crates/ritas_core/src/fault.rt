//! Why a core refuses an item, an input or a turn, in the order of its checks.

/// Why an item, an input or a turn was refused.
#[derive(Clone, Copy, Debug, PartialEq, Eq)]
pub enum CoreFault {
    /// The kind is the origin's alone, and the sender isn't the origin.
    NotOrigin,
    /// The kind is for the origin alone, which this replica isn't.
    NotForMe,
    /// The slot lies too far behind this command number or count of complete rounds. In version 3 no item is refused so.
    Past(u32),
    /// The slot lies too far ahead of this command number or count of complete rounds.
    Ahead(u32),
    /// So many bytes are held for the sender, and the item's would be too many.
    HeldFull(u32),
    /// The one input of the root service is there.
    InputTaken,
    /// There is no room for a command of this number.
    WindowFull(u32),
    /// The bytes aren't an input of the root service: the offset of the first that is wrong, missing or too much.
    Input(u32),
    /// There was not enough memory.
    Mem,
    /// There was not enough memory in an earlier step.
    Stopped,
}
