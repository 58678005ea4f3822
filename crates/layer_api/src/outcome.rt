//! What may become of the one instance of a root service.

/// What became of the one instance of a root service.
#[derive(Clone, Copy, Debug, PartialEq, Eq)]
pub enum Outcome<'a> {
    /// Nothing is decided.
    Undecided,
    /// The rounds of a binary consensus are over without a decision.
    Over,
    /// A bit is decided.
    Bit(bool),
    /// It is decided that no value is.
    Nothing,
    /// A value is decided.
    Value(&'a [u8]),
    /// Each attempt of a vector consensus decided no value.
    Spent,
}
