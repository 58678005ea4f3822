//! What an audit finds: the premises of agreement held, or which event broke one first.

/// Whether a world's premises held over its events.
#[derive(Clone, Copy, Debug, PartialEq, Eq)]
pub enum Audit {
    /// They held.
    Holds,
    /// More than f replicas are faulty.
    TooManyFaulty,
    /// The event of this number, from 0, is the first that forged: it gave a correct replica a frame which opens as from a
    /// correct replica that hadn't made it, or made one take a column with a valid entry of a correct replica that hadn't
    /// given it.
    Forged(u64),
    /// The event of this number, from 0, is the first after which, among the SENDs, and the INITs and VALUEs at slots that go by
    /// digests, that correct replicas took so far, two different values have one digest, or among their SENDs two different entry inputs
    /// have one entry.
    Collision(u64),
}
