//! The keys and the coins of the replicas of a header.
ghost use Rattle.std.specs.Prelude.{◌≡◌, ◌<◌, map, IfOk};
ghost use Rattle.std.specs.List.{range_with_len};
ghost use Rattle.schedule_replay.specs.Layers.{dealt_to, coin_to};

use keyed_channel::{Keys, SeedCoin, coin_key};
use ritas_base::Mem;
use schedule_file::{Header, HeaderKeys};
use std::alloc::Global;

// The keys of replica i, for frames of the header's version.
fn keys_of(header: &Header, i: u8) -> Keys
    requires { i < header.now.p.n }
    ensures { result ≡ dealt_to header.now i }
{
    let n = header.p.n() as usize;
    let keys = match &header.keys {
        HeaderKeys::Master(master) => Keys::deal(master, header.session, &header.p, i),
        HeaderKeys::Row { row, .. } => Keys::from_row(header.session, &header.p, i, &row[..n]),
    };
    keys.with_version(header.mode.version)
}

// Its coin.
fn coin_of(header: &Header, i: u8) -> SeedCoin
    ensures { result ≡ coin_to header.now i }
{
    let key = match &header.keys {
        HeaderKeys::Master(master) => coin_key(master, header.session, i),
        HeaderKeys::Row { coin, .. } => *coin,
    };
    SeedCoin::new(header.session, key)
}

/// The keys of each replica, in their order. The one error is want of memory.
pub fn deal_keys(alloc: Global, header: &Header) -> Result<Vec<Keys>, Mem>
    ensures { IfOk result (λ keys. keys.items ≡ map (dealt_to header.now) (range_with_len 0 header.now.p.n)) }
{
    let mut keys = Vec::new(alloc);
    for i in 0..header.p.n() {
        keys.push(keys_of(header, i))?;
    }
    Ok(keys)
}

/// The coin of each replica, in their order. The one error is want of memory.
pub fn deal_coins(alloc: Global, header: &Header) -> Result<Vec<SeedCoin>, Mem>
    ensures { IfOk result (λ coins. coins.items ≡ map (coin_to header.now) (range_with_len 0 header.now.p.n)) }
{
    let mut coins = Vec::new(alloc);
    for i in 0..header.p.n() {
        coins.push(coin_of(header, i))?;
    }
    Ok(coins)
}
