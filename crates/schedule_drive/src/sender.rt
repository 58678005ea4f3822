//! The frames of one player that haven't passed, by receiver.
ghost use Rattle.std.specs.Prelude.{◌≡◌, ℕ, ◌%◌, ◌≤◌, List, [], length, min, IfOk};
ghost use Rattle.std.specs.List.{slice_get};
ghost use Rattle.ritas_base.specs.declared.plan.Plan.{Plan};
ghost use Rattle.ritas_base.specs.declared.what.DriveWhat.{DriveWhat};
ghost use Rattle.ritas_base.specs.Numbers.{IsSession};
ghost use Rattle.schedule_replay.specs.Layers.{layers_by};
ghost use Rattle.world_model.specs.declared.player.Player.{Player};
ghost use Rattle.world_model.specs.Players.{Step};
ghost use Rattle.schedule_plan.specs.Picks.{Passed};
ghost use Rattle.schedule_plan.specs.Plans.{players_of, linked_from};
ghost use Rattle.schedule_plan.specs.Sweeps.{none_yet};
ghost use Rattle.schedule_stage.specs.Stage.{IsStage};
ghost use Rattle.schedule_stage.specs.Worlds.{world_in};
ghost use Rattle.schedule_drive.specs.Pickers.{IsSender, IsSent, counts_in, open_numbers, passed_after};
ghost use Rattle.layer_api.specs.Runs.{Has};

use crate::lane::Lane;
use crate::players::{are_linked, number_of};
use crate::row::Row;
use layer_api::{Broadcast, Service};
use ritas_base::{Mem, Plan};
use schedule_stage::Stage;
use std::alloc::Global;
use world_model::Player;

// A player that frames of the sender come to, by its place among the players, and the frames for it that haven't passed.
#[derive(Drop)]
struct Link {
    place: usize,
    player: Player,
    lane: Lane,
}

/// A frame of one player that is to come to another, which has this place among the players.
#[derive(Clone, Copy)]
pub(crate) struct Sent {
    pub(crate) from: Player,
    pub(crate) to: Player,
    pub(crate) place: usize,
    pub(crate) number: usize,
}

/// A player with its frames that haven't passed, by the player that they come to.
#[derive(Drop)]
pub(crate) struct Sender {
    pub(crate) player: Player,
    /// To which players there is such a frame.
    pub(crate) row: Row,
    links: Vec<Link>,
}

impl Sender {
    /// A player of a plan that has no frames yet, where these are the plan's players.
    pub(crate) fn new(
        alloc: Global,
        plan: &Plan,
        players: &[Player],
        player: Player,
    ) -> Result<Sender, Mem>
        ensures player { IfOk result (λ s. s.player ≡ player) }
        ensures sender { players.now ≡ players_of plan.now → IfOk result (λ s. IsSender plan.now (none_yet player) [] s) }
    {
        let mut links = Vec::new(alloc);
        let mut row = Row::new(alloc);
        for (place, other) in players.iter().enumerate() {
            if are_linked(plan, player, *other) {
                row.push()?;
                links.push(Link {
                    place,
                    player: *other,
                    lane: Lane::new(alloc),
                })?;
            }
        }
        Ok(Sender { player, row, links })
    }

    /// Looks up how many frames there are.
    pub(crate) fn refresh<S: Service, E: Broadcast>(&mut self, stage: &Stage<S, E>)
        ensures player { self.new.player ≡ self.old.player }
        ensures sender { let m = layers_by S.stands S.rules S.shown E.stands E.rules E.shown in
            (p : Plan) (what : DriveWhat) (steps : List Step) (count : Player → ℕ) (passed : List Passed)
            → IsStage m p what stage.now steps → IsSession p.p → Has (players_of p) self.old.player → IsSender p count passed self.old
            → ((y : Player) → count y ≤ counts_in (world_in m p) p steps self.old.player y)
            → IsSender p (counts_in (world_in m p) p steps self.old.player) passed self.new }
    {
        for at in 0..self.links.len() {
            let link = &mut self.links[at];
            link.lane
                .grow(stage.made(self.player, number_of(link.player)));
            let is_open = link.lane.is_open();
            self.row.set(at, is_open);
        }
    }

    /// One of the eight oldest frames for the player at this place, by this word. It counts as passed then, but one of 16.
    pub(crate) fn pick(&mut self, at: usize, word: u32) -> Result<Option<Sent>, Mem>
        ensures player { self.new.player ≡ self.old.player }
        ensures sent { (p : Plan) (count : Player → ℕ) (passed : List Passed) (y : Player) → IsSender p count passed self.old
            → slice_get (linked_from p self.old.player) at ≡ Some y
            → let frames = open_numbers count passed self.old.player y in
            let number = slice_get frames (word % min 8 (length frames)) in
            IfOk result (λ sent. IsSent p self.old.player y number sent × IsSender p count (passed_after passed word self.old.player y number) self.new) }
    {
        if at >= self.links.len() {
            return Ok(None);
        }
        let link = &mut self.links[at];
        let Some(number) = link.lane.pick(word)? else {
            return Ok(None);
        };
        let sent = Sent {
            from: self.player,
            to: link.player,
            place: link.place,
            number,
        };
        let is_open = link.lane.is_open();
        self.row.set(at, is_open);
        Ok(Some(sent))
    }
}
