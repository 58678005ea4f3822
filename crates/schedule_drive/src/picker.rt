//! The choices that are open.
ghost use Rattle.std.specs.Prelude.{◌≡◌, ◌≢◌, ℕ, ◌+◌, ◌-◌, ◌%◌, ◌^◌, ◌≤◌, Bool, List, [], ◌∷◌, length, map, min, Some, false, IfOk, OnOk, MatchOption};
ghost use Rattle.std.specs.List.{slice_get};
ghost use Rattle.rand_pcg.specs.Lcg.{Lcg};
ghost use Rattle.rand_pcg.specs.Pcg.{pcg32};
ghost use Rattle.ritas_base.specs.declared.plan.Plan.{Plan};
ghost use Rattle.ritas_base.specs.declared.what.DriveWhat.{DriveWhat};
ghost use Rattle.ritas_base.specs.Numbers.{IsSession};
ghost use Rattle.layer_api.specs.Runs.{Has};
ghost use Rattle.schedule_replay.specs.Layers.{layers_by};
ghost use Rattle.world_model.specs.declared.player.Player.{Player};
ghost use Rattle.world_model.specs.Players.{Step, AreSteps};
ghost use Rattle.schedule_plan.specs.Picks.{Passed, Picking, Turning, Passing, choice_taken};
ghost use Rattle.schedule_plan.specs.Plans.{cast_of, players_of, linked_from};
ghost use Rattle.schedule_plan.specs.Sweeps.{FrameCounts, none_yet};
ghost use Rattle.schedule_stage.specs.Stage.{IsStage, Reaches};
ghost use Rattle.schedule_stage.specs.Worlds.{world_in, all_frames};
ghost use Rattle.schedule_drive.specs.Choices.{open_in, open_all};
ghost use Rattle.schedule_plan.specs.Picks as picks;
ghost use Rattle.world_model.specs.World.{Setting};
ghost use Rattle.schedule_drive.specs.Pickers.{IsPicker, IsChosen, IsChoice, IsSent, KnownFrames, IsUpdate, ComesToPlayer, PickingStands, Goes, waits_in, counts_in, open_numbers, passed_after, open_rows};

use crate::players::players;
use crate::row::Row;
use crate::sender::{Sender, Sent};
use layer_api::{Broadcast, Service};
use rand_core::utils::NextWord;
use rand_pcg::Lcg64Xsh32;
use ritas_base::{Mem, Plan};
use schedule_stage::{Halt, Stage};
use std::alloc::Global;
use world_model::{faces_are_replicas, quiet};

/// What may be picked.
#[derive(Clone, Copy)]
pub(crate) enum Choice {
    /// The player at this place takes the item at the front of its inbox.
    Turn(usize),
    /// A frame of the player at this place comes to the one at that place among those that it is linked to.
    Frame(usize, usize),
}

/// The players of a plan, and what may be picked.
#[derive(Drop)]
pub(crate) struct Picker {
    senders: Vec<Sender>,
    // At which players something waits.
    turns: Row,
}

impl Picker {
    /// The players of a plan before any step, as if nothing waited and no frame was made.
    pub(crate) fn new(alloc: Global, plan: &Plan) -> Result<Picker, Mem>
        ensures { IfOk result (λ picker. IsPicker plan.now (λ y. false) none_yet [] picker) }
    {
        let players = players(alloc, plan)?;
        let mut senders = Vec::new(alloc);
        let mut turns = Row::new(alloc);
        for player in &players {
            senders.push(Sender::new(alloc, plan, players.as_slice(), *player)?)?;
            turns.push()?;
        }
        Ok(Picker { senders, turns })
    }

    /// How many choices are open.
    pub(crate) fn count(&self) -> usize
        ensures { result ≡ min (2 ^ 64 - 1) (open_in self.now.turns + open_all (open_rows self.now)) }
    {
        let mut count = self.turns.count();
        for sender in &self.senders {
            count = count.saturating_add(sender.row.count());
        }
        count
    }

    // The open choice of a frame of this number, from 0.
    fn choose_frame(&self, number: usize) -> Option<Choice>
        ensures { MatchOption result (open_all (open_rows self.now) ≤ number) (λ choice. IsChosen self.now (open_in self.now.turns + number) choice) }
    {
        let mut left = number;
        for (place, sender) in self.senders.iter().enumerate() {
            match sender.row.nth(left) {
                Some(at) => return Some(Choice::Frame(place, at)),
                None => left -= sender.row.count(),
            }
        }
        None
    }

    /// The open choice of this number, from 0.
    pub(crate) fn choose(&self, number: usize) -> Option<Choice>
        ensures { MatchOption result (open_in self.now.turns + open_all (open_rows self.now) ≤ number) (λ choice. IsChosen self.now number choice) }
    {
        match self.turns.nth(number) {
            Some(place) => Some(Choice::Turn(place)),
            None => self.choose_frame(number - self.turns.count()),
        }
    }

    // One of the frames of the player at one place for that at another place among those that it is linked to.
    fn pick(&mut self, from: usize, to: usize, word: u32) -> Result<Option<Sent>, Mem>
        ensures { (p : Plan) (waits : Player → Bool) (counts : FrameCounts) (passed : List Passed) (x y : Player) → IsPicker p waits counts passed self.old
            → slice_get (players_of p) from ≡ Some x → slice_get (linked_from p x) to ≡ Some y
            → let frames = open_numbers (counts x) passed x y in
            let number = slice_get frames (word % min 8 (length frames)) in
            IfOk result (λ sent. IsSent p x y number sent × IsPicker p waits counts (passed_after passed word x y number) self.new) }
    {
        if from >= self.senders.len() {
            return Ok(None);
        }
        self.senders[from].pick(to, word)
    }

    // Looks up what waits at the player at this place, and how many frames it has made.
    fn refresh<S: Service, E: Broadcast>(&mut self, place: usize, stage: &Stage<S, E>)
        ensures many { length self.new.senders.items ≡ length self.old.senders.items }
        ensures picker { let m = layers_by S.stands S.rules S.shown E.stands E.rules E.shown in
            (p : Plan) (what : DriveWhat) (steps : List Step) (old new : KnownFrames) (passed : List Passed) (y : Player)
            → IsStage m p what stage.now steps → IsSession p.p → IsPicker p old.waits old.counts passed self.old
            → slice_get (players_of p) place ≡ Some y → IsUpdate (world_in m p) p steps y old new
            → IsPicker p new.waits new.counts passed self.new }
    {
        if place < self.senders.len() {
            let sender = &mut self.senders[place];
            sender.refresh(stage);
            let waits = stage.waiting(sender.player) != 0;
            self.turns.set(place, waits);
        }
    }

    // Looks up what waits at the player at this place, where it has made no frame more.
    fn refresh_turn<S: Service, E: Broadcast>(&mut self, place: usize, stage: &Stage<S, E>)
        ensures { let m = layers_by S.stands S.rules S.shown E.stands E.rules E.shown in
            (p : Plan) (what : DriveWhat) (steps : List Step) (old new : KnownFrames) (passed : List Passed) (y : Player)
            → IsStage m p what stage.now steps → IsSession p.p → IsPicker p old.waits old.counts passed self.old
            → slice_get (players_of p) place ≡ Some y → IsUpdate (world_in m p) p steps y old new
            → ((z : Player) → Has (linked_from p y) z → old.counts y z ≡ counts_in (world_in m p) p steps y z)
            → IsPicker p new.waits new.counts passed self.new }
    {
        if place < self.senders.len() {
            let waits = stage.waiting(self.senders[place].player) != 0;
            self.turns.set(place, waits);
        }
    }

    // Looks up what changed by a step that came to the player at this place, where there were so many frames before it.
    fn refresh_after<S: Service, E: Broadcast>(
        &mut self,
        place: usize,
        before: [usize; 3],
        stage: &Stage<S, E>,
    )
        ensures { let m = layers_by S.stands S.rules S.shown E.stands E.rules E.shown in
            (p : Plan) (what : DriveWhat) (steps : List Step) (step : Step) (passed : List Passed) (y : Player)
            → IsStage m p what stage.now (step ∷ steps) → IsSession p.p → AreSteps (world_in m p) (cast_of p.attack) (step ∷ steps)
            → IsPicker p (waits_in (world_in m p) p steps) (counts_in (world_in m p) p steps) passed self.old
            → slice_get (players_of p) place ≡ Some y → ComesToPlayer step y → before ≡ all_frames (world_in m p) p steps
            → IsPicker p (waits_in (world_in m p) p (step ∷ steps)) (counts_in (world_in m p) p (step ∷ steps)) passed self.new }
    {
        quiet();
        faces_are_replicas::<S, E>();
        if stage.frames() == before {
            self.refresh_turn(place, stage);
        } else {
            self.refresh(place, stage);
        }
    }

    /// Looks up what waits at each player, and how many frames it has made.
    pub(crate) fn refresh_all<S: Service, E: Broadcast>(&mut self, stage: &Stage<S, E>)
        ensures { let m = layers_by S.stands S.rules S.shown E.stands E.rules E.shown in
            (p : Plan) (what : DriveWhat) (steps : List Step) (old : KnownFrames) (passed : List Passed)
            → IsStage m p what stage.now steps → IsSession p.p → IsPicker p old.waits old.counts passed self.old
            → ((x y : Player) → old.counts x y ≤ counts_in (world_in m p) p steps x y)
            → IsPicker p (waits_in (world_in m p) p steps) (counts_in (world_in m p) p steps) passed self.new }
    {
        for place in 0..self.senders.len() {
            self.refresh(place, stage);
        }
    }

    // The player at this place takes the item at the front of its inbox.
    fn take_turn<S: Service, E: Broadcast>(
        &mut self,
        alloc: Global,
        place: usize,
        stage: &mut Stage<S, E>,
    ) -> Result<(), Halt>
        ensures { let m = layers_by S.stands S.rules S.shown E.stands E.rules E.shown in
            (p : Plan) (what : DriveWhat) (q : Picking) (y : Player) → IsSession p.p → PickingStands m p what stage.old self.old q
            → slice_get (players_of p) place ≡ Some y
            → Goes m p what stage.new self.new (choice_taken (world_in m p) p q q.words (Some (Turning y))) result }
    {
        if place < self.senders.len() {
            let before = stage.frames();
            stage.go(alloc, self.senders[place].player)?;
            self.refresh_after(place, before, stage);
        }
        Ok(())
    }

    // A frame of the player at one place comes to that at another place among those that it is linked to.
    fn take_frame<S: Service, E: Broadcast>(
        &mut self,
        alloc: Global,
        from: usize,
        to: usize,
        word: u32,
        stage: &mut Stage<S, E>,
    ) -> Result<(), Halt>
        ensures { let m = layers_by S.stands S.rules S.shown E.stands E.rules E.shown in
            (p : Plan) (what : DriveWhat) (q : Picking) (x y : Player) → IsSession p.p → PickingStands m p what stage.old self.old q
            → slice_get (players_of p) from ≡ Some x → slice_get (linked_from p x) to ≡ Some y → word ≡ (pcg32 q.words).0
            → Goes m p what stage.new self.new (choice_taken (world_in m p) p q q.words (Some (Passing x y))) result }
    {
        let Some(sent) = self.pick(from, to, word)? else {
            return Ok(());
        };
        let before = stage.frames();
        stage.carry(alloc, sent.from, sent.to, sent.number)?;
        self.refresh_after(sent.place, before, stage);
        Ok(())
    }

    /// Takes a step.
    pub(crate) fn take<S: Service, E: Broadcast>(
        &mut self,
        alloc: Global,
        choice: Choice,
        words: &mut Lcg64Xsh32,
        stage: &mut Stage<S, E>,
    ) -> Result<(), Halt>
        ensures words { (w : Setting) (p : Plan) (q : Picking) (choice_is : picks.Choice) → IsChoice p choice choice_is → words.old ≡ q.words
            → OnOk result (words.new ≡ (choice_taken w p q q.words (Some choice_is)).words) }
        ensures goes { let m = layers_by S.stands S.rules S.shown E.stands E.rules E.shown in
            (p : Plan) (what : DriveWhat) (q : Picking) (choice_is : picks.Choice) → IsSession p.p → PickingStands m p what stage.old self.old q
            → IsChoice p choice choice_is → words.old ≡ q.words
            → Goes m p what stage.new self.new (choice_taken (world_in m p) p q q.words (Some choice_is)) result }
    {
        match choice {
            Choice::Turn(place) => self.take_turn(alloc, place, stage),
            Choice::Frame(from, to) => {
                let word = words.next_word();
                self.take_frame(alloc, from, to, word, stage)
            }
        }
    }
}
