//! The identifiers of commands.

/// A command: its origin, and its number among the origin's commands. Ordered by origin, then number.
#[derive(Clone, Copy, Debug, PartialEq, Eq, PartialOrd, Ord)]
pub struct Id {
    pub origin: u8,
    pub num: u32,
}
