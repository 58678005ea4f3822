//! The replicas of a world before any event.

ghost use Rattle.std.specs.Prelude.{◌≡◌, ◌≤◌, true, length, IfOk};
ghost use Rattle.keyed_channel.specs.Keyed.{tags_of};
ghost use Rattle.ritas_core.specs.Rules.{other_form};
ghost use Rattle.ritas_core.specs.Stands.{meaning};
ghost use Rattle.world_model.specs.Stands.{AreKeys, AreOfVersion};
ghost use Rattle.world_model.specs.Steps.{IsFirstReplica, AreFirstReplicas};

use keyed_channel::Keys;
use layer_api::{Broadcast, Service};
use replica::Replica;
use ritas_base::{Coin, Mem, Mode, Params, SenderSet};
use std::alloc::Global;

// The replica with these keys and this coin, where it is correct.
fn first_replica<S: Service, E: Broadcast, C: Coin + Drop>(
    alloc: Global,
    p: Params,
    mode: Mode,
    correct: SenderSet,
    keys: Keys,
    coin: C,
) -> Result<Option<Replica<S, E, C>>, Mem>
    requires made_for { keys.n ≡ p.n }
    requires version { keys.version ≡ mode.version }
    requires form { E.FORM ≡ other_form mode }
    requires served { S.rules.serves mode.root ≡ true }
    ensures { IfOk result (λ place.
        IsFirstReplica (meaning S.stands S.rules S.shown E.stands E.rules E.shown C.bits (λ k. k.me) tags_of) p mode correct keys coin place) }
{
    if correct.has(keys.me()) {
        Ok(Some(Replica::new(alloc, p, mode, keys, coin)?))
    } else {
        Ok(None)
    }
}

/// A place for each coin, with the replica of its number where that is correct.
pub(crate) fn first_replicas<S: Service, E: Broadcast, C: Coin + Drop>(
    alloc: Global,
    p: Params,
    mode: Mode,
    correct: SenderSet,
    keys: &[Keys],
    coins: Vec<C>,
) -> Result<Vec<Option<Replica<S, E, C>>>, Mem>
    requires few { length keys.now ≤ 31 }
    requires rows { length keys.now ≡ length coins.items }
    requires own { AreKeys p.n keys.now }
    requires version { AreOfVersion mode.version keys.now }
    requires form { E.FORM ≡ other_form mode }
    requires served { S.rules.serves mode.root ≡ true }
    ensures { IfOk result (λ places.
        AreFirstReplicas (meaning S.stands S.rules S.shown E.stands E.rules E.shown C.bits (λ k. k.me) tags_of)
        p mode correct keys.now coins.items places.items) }
{
    let mut places = Vec::new(alloc);
    for coin in coins {
        let keys = keys[places.len()];
        places.push(first_replica(alloc, p, mode, correct, keys, coin)?)?;
    }
    Ok(places)
}
