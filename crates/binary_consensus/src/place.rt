//! How far a box has come: what it said last, and what it decided.

ghost use Rattle.std.specs.Prelude.{◌≤◌};

/// How far a box has come.
#[derive(Clone, Copy)]
pub(crate) struct Place {
    /// How many steps were said, of the line of all rounds.
    pub(crate) said: u16,
    /// Whether the step that was said last is left, and none follows it.
    pub(crate) ended: bool,
    /// What is decided.
    pub(crate) decided: Option<bool>,
    ghost within: { said ≤ 600 },
}
