//! Reading a schedule, and replaying it as it is read.
ghost use Rattle.std.specs.Prelude.{◌≡◌, List, [], true, Ok, Err, IfOk, MatchResult};
ghost use Rattle.schedule_file.specs.SourceFaults.{file_faults_after};
ghost use Rattle.ritas_base.specs.declared.event.Event.{Event};
ghost use Rattle.ritas_core.specs.Rules.{other_form};
ghost use Rattle.schedule_file.specs.declared.stage.Stage.TheVariants.{Open};
ghost use Rattle.schedule_file.specs.FileBytes.{Fails};
ghost use Rattle.schedule_file.specs.ReadHeader.{heading};
ghost use Rattle.schedule_file.specs.Scopes.{scope_of};
ghost use Rattle.schedule_file.specs.Spelling.{IsHeading};
ghost use Rattle.schedule_replay.specs.Layers.{layers_by};
ghost use Rattle.schedule_replay.specs.Onto.{more_events};
ghost use Rattle.schedule_replay.specs.Played.{PlayedStandsFor};

use crate::first::first_world;
use keyed_channel::SeedCoin;
use layer_api::{Broadcast, Service};
use outside::Source;
use ritas_base::{Event, Mem};
use schedule_file::{FILE_LIMIT, FileFault, Header, Reader};
use std::alloc::Global;
use world_model::{Counts, World};

/// A schedule's header, its world after the events, and how these were answered.
#[derive(Drop)]
pub struct Played<S: Service, E: Broadcast> {
    pub(crate) header: Header,
    pub(crate) world: World<S, E, SeedCoin>,
    pub(crate) counts: Counts,
}

impl<S: Service, E: Broadcast> Played<S, E> {
    ghost use Rattle.std.specs.Prelude.{◌≡◌, ◌<◌, ◌≤◌, ◌+◌, ◌-◌, ◌^◌, List, [], ◌∷◌, true, Ok, Err, OnOk, IfOk, MatchResult};
    ghost use Rattle.schedule_file.specs.SourceFaults.{file_faults_after};
    ghost use Rattle.ritas_base.specs.declared.event.Event.{Event};
    ghost use Rattle.ritas_core.specs.Rules.{other_form};
    ghost use Rattle.schedule_file.specs.declared.stage.Stage.TheVariants.{Open};
    ghost use Rattle.schedule_file.specs.FileBytes.{Fails};
    ghost use Rattle.schedule_file.specs.ReadHeader.{heading};
    ghost use Rattle.schedule_file.specs.Scopes.{scope_of};
    ghost use Rattle.schedule_file.specs.Spelling.{IsHeading};
    ghost use Rattle.ritas_base.specs.Events.{MayHappen};
    ghost use Rattle.world_model.specs.Counts.{counts_of};
    ghost use Rattle.world_model.specs.Stands.{WorldStands};
    ghost use Rattle.schedule_replay.specs.Layers.{layers_by, setting_by};
    ghost use Rattle.schedule_replay.specs.Onto.{more_events};
    ghost use Rattle.schedule_replay.specs.Played.{PlayedStandsFor, answered, header_in};

    /// The world of a header, before any event, with the header's keys and coins. The one error is want of memory.
    pub fn new(alloc: Global, header: Header) -> Result<Played<S, E>, Mem>
        requires heading { IsHeading (heading header) }
        requires serves { S.rules.serves header.mode.root ≡ true }
        requires form { E.FORM ≡ other_form header.mode }
        ensures stands { let m = layers_by S.stands S.rules S.shown E.stands E.rules E.shown in IfOk result (λ x. PlayedStandsFor m x []) }
        ensures header { IfOk result (λ x. header_in x ≡ header) }
        ensures none { IfOk result (λ x. answered x ≡ 0) }
    {
        let world = first_world(alloc, &header)?;
        Ok(Played {
            header,
            world,
            counts: Counts::new(),
        })
    }

    /// A header with its world after some events, and how these were answered.
    pub fn of(header: Header, world: World<S, E, SeedCoin>, counts: Counts) -> Played<S, E>
        ensures stands { let m = layers_by S.stands S.rules S.shown E.stands E.rules E.shown in let w = setting_by S.rules E.rules header in
            (es : List Event) → IsHeading (heading header) → WorldStands m world w es → counts ≡ counts_of w es → PlayedStandsFor m result es }
        ensures header { header_in result ≡ header }
    {
        Played {
            header,
            world,
            counts,
        }
    }

    /// Lets one event more happen, of at most 2^64 - 1. Its numbers are to be those of replicas, below n, and a frame's
    /// receiver not its sender. The one error is want of memory, after which it stands for nothing.
    pub fn event(&mut self, alloc: Global, event: &Event) -> Result<(), Mem>
        requires { answered self.old < 2 ^ 64 - 1 }
        ensures stands { let m = layers_by S.stands S.rules S.shown E.stands E.rules E.shown in
            (es : List Event) → PlayedStandsFor m self.old es → MayHappen (header_in self.old).p.n event.now
            → OnOk result (PlayedStandsFor m self.new (event.now ∷ es)) }
        ensures header { header_in self.new ≡ header_in self.old }
        ensures one { answered self.new ≤ answered self.old + 1 }
    {
        let seen = self.world.event(alloc, event)?;
        self.counts.count(&seen);
        Ok(())
    }

    /// The world after these events.
    pub fn world(&self) -> &World<S, E, SeedCoin>
        ensures { let m = layers_by S.stands S.rules S.shown E.stands E.rules E.shown in
            (es : List Event) → PlayedStandsFor m self.now es → WorldStands m result.now (setting_by S.rules E.rules (header_in self.now)) es }
    {
        &self.world
    }

    // Takes the events up to the end of the file.
    fn play<I: Source>(
        &mut self,
        alloc: Global,
        reader: &mut Reader,
        input: &mut I,
    ) -> Result<(), FileFault>
        requires open { reader.old.stage ≡ Open }
        requires scope { reader.old.scope ≡ scope_of (heading self.old.header) }
        requires none { answered self.old ≡ 0 }
        ensures exact { let m = layers_by S.stands S.rules S.shown E.stands E.rules E.shown in
            I.tells ≡ true → (before : List Event) → PlayedStandsFor m self.old before → MatchResult result
            (λ _. (es : List Event) × PlayedStandsFor m self.new es
            × (more_events before reader.old (I.left input.old) ≡ Ok es))
            (λ e. Fails e (more_events before reader.old (I.left input.old))) }
        ensures end { I.tells ≡ true → IfOk result (λ _. I.left input.new ≡ []) }
        ensures header { self.new.header ≡ self.old.header }
        ensures counts { I.faults input.new ≡ file_faults_after (I.faults input.old) result }
    {
        for _ in 0..FILE_LIMIT + 1 {
            match reader.next(alloc, input)? {
                None => return Ok(()),
                Some(event) => self.event(alloc, &event)?,
            }
        }
        Err(FileFault::TooLong)
    }
}

/// Reads the events behind a header, to the end of the schedule, and replays them as they are read.
///
/// `Read` is answered just where a call of the source failed. At Ok all was read that the source had left.
pub(crate) fn load<S: Service, E: Broadcast, I: Source>(
    alloc: Global,
    header: Header,
    reader: &mut Reader,
    input: &mut I,
) -> Result<Played<S, E>, FileFault>
    requires heading { IsHeading (heading header) }
    requires serves { S.rules.serves header.mode.root ≡ true }
    requires form { E.FORM ≡ other_form header.mode }
    requires open { reader.old.stage ≡ Open }
    requires scope { reader.old.scope ≡ scope_of (heading header) }
    ensures exact { let m = layers_by S.stands S.rules S.shown E.stands E.rules E.shown in
        I.tells ≡ true → MatchResult result
        (λ x. (es : List Event) × PlayedStandsFor m x es
        × (more_events [] reader.old (I.left input.old) ≡ Ok es))
        (λ e. Fails e (more_events [] reader.old (I.left input.old))) }
    ensures end { I.tells ≡ true → IfOk result (λ _. I.left input.new ≡ []) }
    ensures header { IfOk result (λ x. x.header ≡ header) }
    ensures counts { I.faults input.new ≡ file_faults_after (I.faults input.old) result }
{
    let mut played = Played::new(alloc, header)?;
    played.play(alloc, reader, input)?;
    Ok(played)
}
