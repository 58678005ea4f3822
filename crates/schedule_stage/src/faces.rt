//! The faces of the faulty replicas.
use crate::flip::flip_frame;
use keyed_channel::{Keys, SeedCoin};
use layer_api::{Broadcast, Service};
use ritas_base::{Attack, Bytes, Event, Mem, Plan};
use schedule_plan::header_of;
use schedule_replay::{deal_keys, first_faces};
use std::alloc::Global;
use world_model::{World, faces_are_replicas};

/// The faces of the faulty replicas: those of each letter are a world, in which they stand in the place of their replicas.
#[derive(Drop)]
pub(crate) struct Faces<S: Service, E: Broadcast> {
    attack: Attack,
    keys: Vec<Keys>,
    a: World<S, E, SeedCoin>,
    b: World<S, E, SeedCoin>,
}

impl<S: Service, E: Broadcast> Faces<S, E> {
    ghost use Rattle.std.specs.Prelude.{◌≡◌, ◌≢◌, ◌<◌, ◌/◌, ℕ, List, [], ◌∷◌, true, false, length, Some, IfOk, OnOk};
    ghost use Rattle.std.specs.List.{slice_get};
    ghost use Rattle.ritas_base.specs.declared.plan.Plan.{Plan};
    ghost use Rattle.keyed_channel.specs.Frames.{sealed};
    ghost use Rattle.keyed_channel.specs.KeyRow.{KeyRow};
    ghost use Rattle.ritas_core.specs.Rules.{other_form};
    ghost use Rattle.schedule_replay.specs.Layers.{layers_by};
    ghost use Rattle.world_model.specs.FaceWorlds.{IsShownAs};
    ghost use Rattle.world_model.specs.Forging.{IsPlay};
    ghost use Rattle.world_model.specs.declared.player.Player.TheVariants.{Face};
    ghost use Rattle.world_model.specs.Players.{Step, player_frames, scene_of};
    ghost use Rattle.schedule_plan.specs.Flips.{flip_body};
    ghost use Rattle.schedule_plan.specs.Plans.{cast_of};
    ghost use Rattle.schedule_stage.specs.Worlds.{world_in, waiting, count_made_for, face_frames};
    ghost use Rattle.schedule_stage.specs.Faces.{IsFaces, TellsFace};
    ghost use Rattle.schedule_stage.specs.Letters.{IsLetterOf};

    /// The faces of a plan, before any step. The one error is want of memory.
    pub(crate) fn new(alloc: Global, plan: &Plan) -> Result<Faces<S, E>, Mem>
        requires serves { S.rules.serves plan.now.mode.root ≡ true }
        requires form { E.FORM ≡ other_form plan.now.mode }
        ensures { let m = layers_by S.stands S.rules S.shown E.stands E.rules E.shown in IfOk result (λ faces. IsFaces m plan.now faces []) }
    {
        let header = header_of(plan);
        let keys = deal_keys(alloc, &header)?;
        let a = first_faces(alloc, &header)?;
        let b = first_faces(alloc, &header)?;
        Ok(Faces {
            attack: plan.attack,
            keys,
            a,
            b,
        })
    }

    // The world of a face's letter.
    fn letter(&self, a: u8) -> &World<S, E, SeedCoin>
        ensures { let m = layers_by S.stands S.rules S.shown E.stands E.rules E.shown in
            (p : Plan) (steps : List Step) → IsFaces m p self.now steps → IsLetterOf m p result.now steps a }
    {
        if a % 2 == 0 { &self.a } else { &self.b }
    }

    /// This comes to a face. The one error is want of memory.
    pub(crate) fn tell(&mut self, alloc: Global, a: u8, event: &Event) -> Result<(), Mem>
        ensures { let m = layers_by S.stands S.rules S.shown E.stands E.rules E.shown in
            (p : Plan) (steps : List Step) (step : Step) → IsFaces m p self.old steps → TellsFace (world_in m p) p steps step a event.now
            → OnOk result (IsFaces m p self.new (step ∷ steps)) }
    {
        if a % 2 == 0 {
            self.a.event(alloc, event)?;
        } else {
            self.b.event(alloc, event)?;
        }
        Ok(())
    }

    /// How many items wait at a face.
    pub(crate) fn waiting(&self, a: u8) -> usize
        ensures { let m = layers_by S.stands S.rules S.shown E.stands E.rules E.shown in
            (p : Plan) (steps : List Step) → IsFaces m p self.now steps → IsPlay S.rules E.rules (world_in m p) (cast_of p.attack) steps
            → (world_in m p).is_correct (a / 2) ≡ false → a / 2 < p.p.n
            → result ≡ waiting (world_in m p) p steps (Face a) }
    {
        faces_are_replicas::<S, E>();
        match self.letter(a).replica(a / 2) {
            Some(replica) => replica.core().inbox_len(),
            None => 0,
        }
    }

    /// How many frames a face has made for another replica.
    pub(crate) fn made(&self, a: u8, to: u8) -> usize
        ensures { let m = layers_by S.stands S.rules S.shown E.stands E.rules E.shown in
            (p : Plan) (steps : List Step) → IsFaces m p self.now steps → IsPlay S.rules E.rules (world_in m p) (cast_of p.attack) steps
            → (world_in m p).is_correct (a / 2) ≡ false → a / 2 < p.p.n → to < p.p.n → a / 2 ≢ to
            → result ≡ count_made_for (world_in m p) p steps (Face a) to }
    {
        faces_are_replicas::<S, E>();
        self.letter(a).frames_made(a / 2, to).len()
    }

    // The frame of this number that a face's replica made for another, with the other bit where it has one.
    fn flipped(
        &self,
        alloc: Global,
        a: u8,
        to: u8,
        number: usize,
        made: &[u8],
    ) -> Result<Bytes, Mem>
        ensures { (k : KeyRow) (body : List ℕ) → slice_get self.now.keys.items (a / 2) ≡ Some k → to < k.n → made.now ≡ sealed k to number body
            → IfOk result (λ frame. frame ≡ sealed k to number (flip_body body)) }
    {
        match self.keys.get(usize::from(a / 2)) {
            Some(keys) => {
                if to >= keys.n() {
                    return Bytes::from_slice(alloc, made);
                }
                flip_frame(alloc, keys, to, number as u64, made)
            }
            None => Bytes::from_slice(alloc, made),
        }
    }

    // It as the face shows it.
    fn as_shown(
        &self,
        alloc: Global,
        a: u8,
        to: u8,
        number: usize,
        made: &[u8],
    ) -> Result<Bytes, Mem>
        ensures { let m = layers_by S.stands S.rules S.shown E.stands E.rules E.shown in
            (p : Plan) (steps : List Step) → IsFaces m p self.now steps → a / 2 < p.p.n → to < p.p.n
            → (shown : List ℕ) → IsShownAs (world_in m p) (cast_of p.attack) (a / 2) to number made.now shown
            → IfOk result (λ frame. frame ≡ shown) }
    {
        match self.attack {
            Attack::Flip => self.flipped(alloc, a, to, number, made),
            _ => Bytes::from_slice(alloc, made),
        }
    }

    /// The frame of this number, from 0, that a face made for another replica, as it shows it. The one error is want of memory.
    pub(crate) fn frame(
        &self,
        alloc: Global,
        a: u8,
        to: u8,
        number: usize,
    ) -> Result<Option<Bytes>, Mem>
        ensures { let m = layers_by S.stands S.rules S.shown E.stands E.rules E.shown in
            (p : Plan) (steps : List Step) → IsFaces m p self.now steps → IsPlay S.rules E.rules (world_in m p) (cast_of p.attack) steps
            → (world_in m p).is_correct (a / 2) ≡ false → a / 2 < p.p.n → to < p.p.n → a / 2 ≢ to
            → IfOk result (λ frame. frame ≡ slice_get (player_frames (world_in m p) (cast_of p.attack)
            (scene_of (world_in m p) (cast_of p.attack) steps) (Face a) to) number) }
    {
        faces_are_replicas::<S, E>();
        match self.letter(a).frames_made(a / 2, to).get(number) {
            Some(made) => {
                let bytes = made.to_bytes(alloc)?;
                let shown = self.as_shown(alloc, a, to, number, bytes.as_slice())?;
                Ok(Some(shown))
            }
            None => Ok(None),
        }
    }

    /// How many frames the faces of each letter have made.
    pub(crate) fn frames(&self) -> [usize; 2]
        ensures { let m = layers_by S.stands S.rules S.shown E.stands E.rules E.shown in
            (p : Plan) (steps : List Step) → IsFaces m p self.now steps → result ≡ face_frames (world_in m p) p steps }
    {
        [self.a.made_count(), self.b.made_count()]
    }
}
