//! How far a connection is.

ghost use Rattle.std.specs.Prelude.{◌≡◌};
ghost use Rattle.tcp_link.specs.Stages.{first_stage, stage_after, is_up, is_begun, is_half, is_draining, is_read, is_written, is_over};

/// How far a connection is.
#[derive(Clone, Copy)]
pub(crate) enum Stage {
    /// It was begun, and doesn't stand yet.
    Begun,
    /// It stands.
    Up,
    /// The other side, a client, sends no more, and takes what goes out.
    Half,
    /// It takes no more bytes. What comes is read to its end.
    Broken,
    /// A newer one of the same peer stands in its place. What comes is read to its end.
    Older,
    /// It never stood.
    Refused,
    /// It ended or failed. What came before is still given.
    Over,
    /// It ended, and a newer one of the same peer stands in its place. What came before is still given.
    Replaced,
}

/// What happens to a connection.
#[derive(Clone, Copy)]
pub(crate) enum Change {
    /// It is seen to stand.
    Stands,
    /// The other side sends no more.
    Closes,
    /// It takes no more bytes.
    Breaks,
    /// It ends or fails.
    Ends,
    /// A newer one of the same peer tells its number.
    IsReplaced,
}

impl Stage {
    /// The stage of a new connection, which was begun here or came in.
    pub(crate) fn first(is_begun: bool) -> Stage
        ensures { result ≡ first_stage is_begun }
    {
        if is_begun { Stage::Begun } else { Stage::Up }
    }

    /// The stage after a change.
    pub(crate) fn after(self, change: Change) -> Stage
        ensures { result ≡ stage_after self change }
    {
        match (change, self) {
            (Change::IsReplaced, Stage::Up | Stage::Broken | Stage::Older) => Stage::Older,
            (Change::IsReplaced, _) => Stage::Replaced,
            (Change::Stands, Stage::Begun) => Stage::Up,
            (Change::Stands, stage) => stage,
            (_, Stage::Begun) => Stage::Refused,
            (Change::Closes, Stage::Up) => Stage::Half,
            (Change::Breaks, Stage::Up) => Stage::Broken,
            (Change::Breaks, Stage::Half) => Stage::Over,
            (Change::Closes, Stage::Broken) => Stage::Over,
            (Change::Ends, Stage::Up | Stage::Half | Stage::Broken) => Stage::Over,
            (Change::Closes | Change::Ends, Stage::Older) => Stage::Replaced,
            (_, stage) => stage,
        }
    }

    /// Whether it was begun, and doesn't stand yet.
    pub(crate) fn is_begun(self) -> bool
        ensures { result ≡ is_begun self }
    {
        match self {
            Stage::Begun => true,
            _ => false,
        }
    }

    /// Whether it stands, both ways.
    pub(crate) fn is_up(self) -> bool
        ensures { result ≡ is_up self }
    {
        match self {
            Stage::Up => true,
            _ => false,
        }
    }

    /// Whether the other side sends no more, and takes bytes.
    pub(crate) fn is_half(self) -> bool
        ensures { result ≡ is_half self }
    {
        match self {
            Stage::Half => true,
            _ => false,
        }
    }

    /// Whether it takes no bytes, and is read to its end.
    pub(crate) fn is_draining(self) -> bool
        ensures { result ≡ is_draining self }
    {
        match self {
            Stage::Broken | Stage::Older => true,
            _ => false,
        }
    }

    /// Whether what comes is read.
    pub(crate) fn is_read(self) -> bool
        ensures { result ≡ is_read self }
    {
        match self {
            Stage::Up | Stage::Broken | Stage::Older => true,
            _ => false,
        }
    }

    /// Whether it takes bytes.
    pub(crate) fn is_written(self) -> bool
        ensures { result ≡ is_written self }
    {
        match self {
            Stage::Up | Stage::Half => true,
            _ => false,
        }
    }

    /// Whether nothing more is read or written.
    pub(crate) fn is_over(self) -> bool
        ensures { result ≡ is_over self }
    {
        match self {
            Stage::Refused | Stage::Over | Stage::Replaced => true,
            _ => false,
        }
    }
}
