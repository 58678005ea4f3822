//! Tests of `cluster_config`: cases of each call. `cases/configs` has the tables of texts and words.

mod keys;
mod lines;
mod requests;
mod submit;
mod words;

use cluster_config::{config_laws, config_ranges, config_versions, number_law, words_law};
use std::test::*;

// The laws are functions that do nothing.
#[test]
fn laws_can_be_called(_rt: HostRuntime) {
    config_laws();
    config_ranges();
    config_versions();
    number_law();
    words_law();
}
