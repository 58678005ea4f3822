//! Counting votes and comparing hashes, sixteen bytes at a time.
//!
//! ```rust
//! use vote_lanes::{count_equal, rows_equal};
//!
//! assert!(count_equal(&[0, 1, 255, 1], 1) == 2);
//! // of the rows 0 and 2, which the mask names, those of zeros
//! assert!(rows_equal(&[[0; 32], [0; 32], [0; 32]], 5, &[0; 32]) == 5);
//! ```
//!
//! A step of a consensus keeps one byte for each sender, and a broadcast one hash for each: at most 31 of either. Both calls
//! are as plain as they look (`specs/Plain.antt`): the lanes are how they are computed, and nothing of them shows.
//!
//! Neither takes memory.
#![tactic(auto)]

mod count;
mod rows;

pub use count::count_equal;
pub use rows::rows_equal;
