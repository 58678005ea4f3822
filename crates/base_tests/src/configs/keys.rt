//! Tests of the configuration of keys: each field.

use crate::configs::lines::{key, master, text_of};
use cluster_config::{Config, Job, KeysConfig, read_config};
use std::test::*;

// Whether it has what the lines say.
fn has_fields(keys: &KeysConfig) -> bool {
    keys.session == 7 && keys.p.n() == 4 && keys.p.f() == 1 && keys.master == key()
}

#[test]
fn every_field(rt: HostRuntime) -> Result<(), Fail> {
    let text = text_of(
        rt.alloc(),
        &["ritas 1", "session 7", "n 4", "f 1", master()],
    )?;
    match &read_config(rt.alloc(), Job::Keys, text.as_bytes()) {
        Ok(Config::Keys(keys)) => assert!(rt; has_fields(keys)),
        _ => assert!(rt; false),
    }
    Ok(())
}
