//! How many replicas there are at most.

/// There are at most so many replicas.
pub const MOST_REPLICAS: usize = 31;
