//! For how long is served.

/// Which epoch of a chain is closed, and when.
#[derive(Clone, Copy)]
pub struct Closing {
    /// The epoch's number.
    pub epoch: u32,
    /// A replica closes it once it completed so many rounds.
    pub rounds: u32,
}

/// For how long is served.
#[derive(Clone, Copy)]
pub struct Limits {
    /// To so many items of the link.
    pub items: u64,
    /// To so many rows in each log, if that isn't 0.
    pub rows: u32,
    /// In a session that is an epoch of a chain, when the replicas here close it; `None` where they don't.
    pub closing: Option<Closing>,
}
