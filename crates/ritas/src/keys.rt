//! Dealing keys.
ghost use Rattle.std.specs.Prelude.{◌≡◌, ◌≢◌};
ghost use Rattle.key_rows.specs.KeyRows.{key_rows};
ghost use Rattle.ritas.specs.Run.{Ends, Replies};

use crate::run::finish;
use cluster_config::KeysConfig;
use key_rows::write_key_rows;
use outside::Sink;
use std::alloc::Global;

/// Writes the keys of all replicas of a configuration.
pub(crate) fn run_keys<K: Sink>(alloc: Global, config: &KeysConfig, output: &mut K) -> u8
    ensures ends { Ends K.faults output.old output.new result }
    ensures replies { Replies K.tells K.taken output.old output.new result 0 (key_rows config.now.master config.now.session config.now.p.n) }
    ensures others { (result ≢ 2) × (result ≢ 4) × (result ≢ 6) }
    ensures nine { result ≢ 9 }
{
    match write_key_rows(alloc, config.session, &config.p, &config.master) {
        Ok(text) => finish(output, text.as_slice(), 0),
        Err(_) => 8,
    }
}
