//! The worlds that a schedule begins with: that of its correct replicas, and that of the faces of the others.
ghost use Rattle.std.specs.Prelude.{◌≡◌, ◌≤◌, ◌<◌, ◌&&◌, ℕ, Bool, [], true, not, nat_lt, IfOk};
ghost use Rattle.ritas_base.specs.Members.{has_member};
ghost use Rattle.ritas_core.specs.Rules.{other_form};
ghost use Rattle.schedule_file.specs.ReadHeader.{heading};
ghost use Rattle.schedule_file.specs.Spelling.{IsHeading};
ghost use Rattle.schedule_replay.specs.Layers.{layers_by, setting_by, setting_with};
ghost use Rattle.world_model.specs.FaceWorlds.{faces_world};
ghost use Rattle.world_model.specs.Stands.{WorldStands};

use crate::deal::{deal_coins, deal_keys};
use keyed_channel::SeedCoin;
use layer_api::{Broadcast, Service};
use ritas_base::{Mem, SenderSet};
use schedule_file::Header;
use std::alloc::Global;
use world_model::World;

// The replicas below n that aren't in the set.
fn others(n: u8, set: SenderSet) -> SenderSet
    requires { n ≤ 32 }
    ensures { (j : ℕ) → has_member result j ≡ (nat_lt j n && not (has_member set j)) }
{
    let mut others = SenderSet::empty();
    for k in 0..n {
        if !set.has(k) {
            others = others.with(k);
        }
    }
    others
}

// The world of a header in which the replicas of this set are the correct ones, before any event.
fn world_with<S: Service, E: Broadcast>(
    alloc: Global,
    header: &Header,
    correct: SenderSet,
) -> Result<World<S, E, SeedCoin>, Mem>
    requires within { (i : ℕ) → has_member correct i ≡ true → i < header.now.p.n }
    requires serves { S.rules.serves header.now.mode.root ≡ true }
    requires form { E.FORM ≡ other_form header.now.mode }
    ensures { let m = layers_by S.stands S.rules S.shown E.stands E.rules E.shown in
        (is_correct : ℕ → Bool) → ((i : ℕ) → is_correct i ≡ has_member correct i)
        → IfOk result (λ world. WorldStands m world (setting_with is_correct S.rules E.rules header.now) []) }
{
    let keys = deal_keys(alloc, header)?;
    let coins = deal_coins(alloc, header)?;
    World::new(alloc, header.p, header.mode, correct, keys, coins)
}

/// The world of a header before any event, with the header's keys and coins. The one error is want of memory.
pub fn first_world<S: Service, E: Broadcast>(
    alloc: Global,
    header: &Header,
) -> Result<World<S, E, SeedCoin>, Mem>
    requires heading { IsHeading (heading header.now) }
    requires serves { S.rules.serves header.now.mode.root ≡ true }
    requires form { E.FORM ≡ other_form header.now.mode }
    ensures { let m = layers_by S.stands S.rules S.shown E.stands E.rules E.shown in
        IfOk result (λ world. WorldStands m world (setting_by S.rules E.rules header.now) []) }
{
    world_with(alloc, header, header.correct)
}

/// The same for faces of the faulty replicas, one of each: these stand in it in the place of the correct ones.
pub fn first_faces<S: Service, E: Broadcast>(
    alloc: Global,
    header: &Header,
) -> Result<World<S, E, SeedCoin>, Mem>
    requires serves { S.rules.serves header.now.mode.root ≡ true }
    requires form { E.FORM ≡ other_form header.now.mode }
    ensures { let m = layers_by S.stands S.rules S.shown E.stands E.rules E.shown in
        IfOk result (λ world. WorldStands m world (faces_world (setting_by S.rules E.rules header.now)) []) }
{
    world_with(alloc, header, others(header.p.n(), header.correct))
}
