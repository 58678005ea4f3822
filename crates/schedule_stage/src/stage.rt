//! The players of a plan, which take its steps one by one, and the tape, within the limits.

use crate::faces::Faces;
use crate::first::first_header;
use crate::frames::{bytes_of, frame_event, frame_number, thrown};
use crate::halt::Halt;
use crate::tape::Tape;
use keyed_channel::SeedCoin;
use layer_api::{Broadcast, Service};
use outside::Buffer;
use ritas_base::{Bytes, DriveWhat, Event, Mem, Plan};
use schedule_plan::header_of;
use schedule_replay::{Played, first_world};
use std::alloc::Global;
use world_model::{Player, World};

/// The players of a plan, and what came of the steps that they took.
#[derive(Drop)]
pub struct Stage<S: Service, E: Broadcast> {
    world: World<S, E, SeedCoin>,
    faces: Faces<S, E>,
    tape: Tape,
}

/// What came of all steps.
#[derive(Drop)]
pub struct Finished<S: Service, E: Broadcast> {
    /// The correct replicas, and the events of the schedule.
    pub played: Played<S, E>,
    /// The schedule's file without its end mark, where it was to be kept.
    pub file: Buffer,
}

impl<S: Service, E: Broadcast> Stage<S, E> {
    ghost use Rattle.std.specs.Prelude.{◌≡◌, ◌≢◌, ◌<◌, ◌≤◌, ◌^◌, ℕ, List, [], ◌∷◌, true, false, length, IfOk};
    ghost use Rattle.std.specs.List.{slice_get};
    ghost use Rattle.ritas_base.specs.declared.plan.Plan.{Plan};
    ghost use Rattle.ritas_base.specs.declared.what.DriveWhat.{DriveWhat};
    ghost use Rattle.ritas_base.specs.declared.event.Event.{Event};
    ghost use Rattle.ritas_core.specs.Rules.{other_form};
    ghost use Rattle.schedule_file.specs.Spelling.{IsSized};
    ghost use Rattle.schedule_replay.specs.Layers.{layers_by};
    ghost use Rattle.world_model.specs.Players.{Step, Give, Go, Carry, Throw, IsPlayer, number_of, player_frames, scene_of};
    ghost use Rattle.schedule_plan.specs.Plans.{cast_of};
    ghost use Rattle.schedule_stage.specs.Stage.{IsStage, Reaches, IsFinished};
    ghost use Rattle.schedule_stage.specs.Stepping.{Happens, ComesToFace, Rests};
    ghost use Rattle.schedule_stage.specs.Worlds.{world_in, waiting, count_made_for, all_frames};

    /// The players of a plan, before any step. The schedule's file is kept where it is what is wanted. The one error is want of
    /// memory.
    pub fn new(alloc: Global, plan: &Plan, what: DriveWhat) -> Result<Stage<S, E>, Mem>
        requires serves { S.rules.serves plan.now.mode.root ≡ true }
        requires form { E.FORM ≡ other_form plan.now.mode }
        ensures { let m = layers_by S.stands S.rules S.shown E.stands E.rules E.shown in IfOk result (λ stage. IsStage m plan.now what stage []) }
    {
        let header = first_header(plan);
        let world = first_world(alloc, &header)?;
        let faces = Faces::new(alloc, plan)?;
        let tape = Tape::new(alloc, &header, what)?;
        Ok(Stage { world, faces, tape })
    }

    // An event happens to the correct replicas.
    fn happen(&mut self, alloc: Global, event: &Event) -> Result<(), Halt>
        requires { IsSized event.now }
        ensures { let m = layers_by S.stands S.rules S.shown E.stands E.rules E.shown in
            (p : Plan) (what : DriveWhat) (steps : List Step) (step : Step) → IsStage m p what self.old steps
            → Happens (world_in m p) p steps step event.now → Reaches m p what self.new (step ∷ steps) result }
    {
        self.tape.event(event)?;
        let seen = self.world.event(alloc, event)?;
        self.tape.count(&seen);
        Ok(())
    }

    // This comes to a face.
    fn tell(&mut self, alloc: Global, a: u8, event: &Event) -> Result<(), Halt>
        ensures { let m = layers_by S.stands S.rules S.shown E.stands E.rules E.shown in
            (p : Plan) (what : DriveWhat) (steps : List Step) (step : Step) → IsStage m p what self.old steps
            → ComesToFace (world_in m p) p steps step a event.now → Reaches m p what self.new (step ∷ steps) result }
    {
        self.tape.pass()?;
        self.faces.tell(alloc, a, event)?;
        Ok(())
    }

    // A step is taken by which nothing comes to anyone.
    fn rest(&mut self) -> Result<(), Halt>
        ensures { let m = layers_by S.stands S.rules S.shown E.stands E.rules E.shown in
            (p : Plan) (what : DriveWhat) (steps : List Step) (step : Step) → IsStage m p what self.old steps
            → Rests (world_in m p) p steps step → Reaches m p what self.new (step ∷ steps) result }
    {
        self.tape.pass()
    }

    // The frame of this number, from 0, that a player made for another replica. The one error is want of memory.
    fn frame(&self, alloc: Global, x: Player, to: u8, number: usize) -> Result<Option<Bytes>, Mem>
        ensures { let m = layers_by S.stands S.rules S.shown E.stands E.rules E.shown in
            (p : Plan) (what : DriveWhat) (steps : List Step) → IsStage m p what self.now steps
            → IsPlayer (world_in m p) (cast_of p.attack) x → to < p.p.n → number_of (cast_of p.attack) x ≢ to
            → IfOk result (λ frame. frame ≡ slice_get (player_frames (world_in m p) (cast_of p.attack)
            (scene_of (world_in m p) (cast_of p.attack) steps) x to) number) }
    {
        match x {
            Player::Correct(i) => bytes_of(alloc, self.world.frames_made(i, to), number),
            Player::Face(a) => self.faces.frame(alloc, a, to, number),
        }
    }

    // A frame of a correct replica passes to another one.
    fn pass_on(&mut self, alloc: Global, i: u8, j: u8, number: usize) -> Result<(), Halt>
        ensures { let m = layers_by S.stands S.rules S.shown E.stands E.rules E.shown in
            (p : Plan) (what : DriveWhat) (steps : List Step) → IsStage m p what self.old steps
            → IsPlayer (world_in m p) (cast_of p.attack) (Player.Correct i) → IsPlayer (world_in m p) (cast_of p.attack) (Player.Correct j) → i ≢ j
            → Reaches m p what self.new (Carry (Player.Correct i) (Player.Correct j) number ∷ steps) result }
    {
        let m = frame_number(number)?;
        self.happen(alloc, &Event::Pass { from: i, to: j, m })
    }

    // A frame of a face comes to a correct replica.
    fn show(&mut self, alloc: Global, a: u8, j: u8, number: usize) -> Result<(), Halt>
        ensures { let m = layers_by S.stands S.rules S.shown E.stands E.rules E.shown in
            (p : Plan) (what : DriveWhat) (steps : List Step) → IsStage m p what self.old steps
            → IsPlayer (world_in m p) (cast_of p.attack) (Player.Face a) → IsPlayer (world_in m p) (cast_of p.attack) (Player.Correct j)
            → number_of (cast_of p.attack) (Player.Face a) ≢ j
            → Reaches m p what self.new (Carry (Player.Face a) (Player.Correct j) number ∷ steps) result }
    {
        match self.frame(alloc, Player::Face(a), j, number)? {
            Some(bytes) => {
                let event = frame_event(j, bytes)?;
                self.happen(alloc, &event)
            }
            None => self.rest(),
        }
    }

    // A frame comes to a face.
    fn bring(&mut self, alloc: Global, x: Player, a: u8, number: usize) -> Result<(), Halt>
        ensures { let m = layers_by S.stands S.rules S.shown E.stands E.rules E.shown in
            (p : Plan) (what : DriveWhat) (steps : List Step) → IsStage m p what self.old steps
            → IsPlayer (world_in m p) (cast_of p.attack) x → IsPlayer (world_in m p) (cast_of p.attack) (Player.Face a)
            → number_of (cast_of p.attack) x ≢ number_of (cast_of p.attack) (Player.Face a)
            → Reaches m p what self.new (Carry x (Player.Face a) number ∷ steps) result }
    {
        match self.frame(alloc, x, a / 2, number)? {
            Some(bytes) => self.tell(alloc, a, &Event::Frame { to: a / 2, bytes }),
            None => self.rest(),
        }
    }

    /// An input comes to a player.
    pub fn give(&mut self, alloc: Global, x: Player, value: Bytes) -> Result<(), Halt>
        requires { length value < 2 ^ 16 }
        ensures { let m = layers_by S.stands S.rules S.shown E.stands E.rules E.shown in
            (p : Plan) (what : DriveWhat) (steps : List Step) → IsStage m p what self.old steps
            → IsPlayer (world_in m p) (cast_of p.attack) x
            → Reaches m p what self.new (Give x value ∷ steps) result }
    {
        match x {
            Player::Correct(i) => {
                let event = Event::Input {
                    at: i,
                    bytes: value,
                };
                self.happen(alloc, &event)
            }
            Player::Face(a) => {
                let event = Event::Input {
                    at: a / 2,
                    bytes: value,
                };
                self.tell(alloc, a, &event)
            }
        }
    }

    /// A player takes the item at the front of its inbox.
    pub fn go(&mut self, alloc: Global, x: Player) -> Result<(), Halt>
        ensures { let m = layers_by S.stands S.rules S.shown E.stands E.rules E.shown in
            (p : Plan) (what : DriveWhat) (steps : List Step) → IsStage m p what self.old steps
            → IsPlayer (world_in m p) (cast_of p.attack) x
            → Reaches m p what self.new (Go x ∷ steps) result }
    {
        match x {
            Player::Correct(i) => self.happen(alloc, &Event::Turn { at: i }),
            Player::Face(a) => self.tell(alloc, a, &Event::Turn { at: a / 2 }),
        }
    }

    /// The frame of this number, from 0, that one player made for the number of another comes to it.
    pub fn carry(&mut self, alloc: Global, x: Player, y: Player, number: usize) -> Result<(), Halt>
        ensures { let m = layers_by S.stands S.rules S.shown E.stands E.rules E.shown in
            (p : Plan) (what : DriveWhat) (steps : List Step) → IsStage m p what self.old steps
            → IsPlayer (world_in m p) (cast_of p.attack) x → IsPlayer (world_in m p) (cast_of p.attack) y
            → number_of (cast_of p.attack) x ≢ number_of (cast_of p.attack) y
            → Reaches m p what self.new (Carry x y number ∷ steps) result }
    {
        match y {
            Player::Correct(j) => match x {
                Player::Correct(i) => self.pass_on(alloc, i, j, number),
                Player::Face(a) => self.show(alloc, a, j, number),
            },
            Player::Face(b) => self.bring(alloc, x, b, number),
        }
    }

    /// A frame that nobody made comes to a correct replica under the number of a faulty one.
    pub fn throw(
        &mut self,
        alloc: Global,
        plan: &Plan,
        from: u8,
        to: u8,
        rest: &[u8],
    ) -> Result<(), Halt>
        requires { length rest.now ≤ 1000 }
        ensures { let m = layers_by S.stands S.rules S.shown E.stands E.rules E.shown in
            (what : DriveWhat) (steps : List Step) → IsStage m plan.now what self.old steps
            → (world_in m plan.now).is_correct from ≡ false → (world_in m plan.now).is_correct to ≡ true
            → Reaches m plan.now what self.new (Throw from to rest.now ∷ steps) result }
    {
        let bytes = thrown(alloc, plan.mode.version, from, to, rest)?;
        self.happen(alloc, &Event::Frame { to, bytes })
    }

    /// How many items wait at a player.
    pub fn waiting(&self, x: Player) -> usize
        ensures { let m = layers_by S.stands S.rules S.shown E.stands E.rules E.shown in
            (p : Plan) (what : DriveWhat) (steps : List Step) → IsStage m p what self.now steps
            → IsPlayer (world_in m p) (cast_of p.attack) x
            → result ≡ waiting (world_in m p) p steps x }
    {
        match x {
            Player::Correct(i) => match self.world.replica(i) {
                Some(replica) => replica.core().inbox_len(),
                // It is a correct replica's number.
                None => 0,
            },
            Player::Face(a) => self.faces.waiting(a),
        }
    }

    /// How many frames a player has made for another replica.
    pub fn made(&self, x: Player, to: u8) -> usize
        ensures { let m = layers_by S.stands S.rules S.shown E.stands E.rules E.shown in
            (p : Plan) (what : DriveWhat) (steps : List Step) → IsStage m p what self.now steps
            → IsPlayer (world_in m p) (cast_of p.attack) x → to < p.p.n → number_of (cast_of p.attack) x ≢ to
            → result ≡ count_made_for (world_in m p) p steps x to }
    {
        match x {
            Player::Correct(i) => self.world.frames_made(i, to).len(),
            Player::Face(a) => self.faces.made(a, to),
        }
    }

    /// How many frames the correct replicas have made, and how many the faces of each letter. It takes the same time however
    /// many there are.
    pub fn frames(&self) -> [usize; 3]
        ensures { let m = layers_by S.stands S.rules S.shown E.stands E.rules E.shown in
            (p : Plan) (what : DriveWhat) (steps : List Step) → IsStage m p what self.now steps
            → result ≡ all_frames (world_in m p) p steps }
    {
        let [a, b] = self.faces.frames();
        [self.world.made_count(), a, b]
    }

    /// What came of all steps.
    pub fn finish(self, plan: &Plan) -> Finished<S, E>
        ensures { let m = layers_by S.stands S.rules S.shown E.stands E.rules E.shown in
            (what : DriveWhat) (steps : List Step) → IsStage m plan.now what self steps
            → IsFinished m plan.now what result steps }
    {
        let Stage { world, tape, .. } = self;
        let Tape { counts, file, .. } = tape;
        Finished {
            played: Played::of(header_of(plan), world, counts),
            file,
        }
    }
}
