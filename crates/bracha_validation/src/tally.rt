//! The votes of one step, as counts of their values.

/// How many votes of one step are 0, 1 and unmarked.
#[derive(Clone, Copy, Debug, PartialEq, Eq)]
pub struct Tally {
    pub zeros: u8,
    pub ones: u8,
    pub nones: u8,
}
