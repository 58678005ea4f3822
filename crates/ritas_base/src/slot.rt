//! Slots, which name broadcasts: their nine bytes, their grammar, and by which broadcast each goes.

ghost use Rattle.std.specs.Prelude.{◌≡◌, Some, None, MatchResult, OnOk, if◌then◌else◌, ◌==◌, ◌&&◌};
ghost use Rattle.ritas_base.specs.Numbers.{IsSession};
ghost use Rattle.ritas_base.specs.Slots.{slot_fault, slot_bytes, by_echo, command_slot, form_of, has_class, has_count, within};
ghost use Rattle.ritas_base.specs.RootServices.{root_number};
ghost use Rattle.ritas_base.specs.Versions.{reliable_form};

use crate::limits::NUMBER_LIMIT;
use crate::mode::{FrameVersion, Mode, Vect};
use crate::params::Params;
use crate::root_service::RootService;

/// One broadcast: a class (1 command, 2 vector proposal, 3 multi-valued proposal, 4 VECT, 5 step of binary
/// consensus), a number (the origin's command, or the round), the try, the round and step of binary consensus, and
/// the origin. Slots are ordered as their nine bytes are.
#[derive(Clone, Copy, Debug, PartialEq, Eq, PartialOrd, Ord)]
pub struct Slot {
    pub class: u8,
    pub a: u32,
    pub attempt: u8,
    pub bround: u8,
    pub step: u8,
    pub origin: u8,
}

/// What is wrong with a slot.
#[derive(Clone, Copy, Debug, PartialEq, Eq)]
pub enum SlotFault {
    /// The class isn't 1 to 5.
    Class,
    /// The class isn't one of the root service's.
    Closed,
    /// The number is 1,000,000 or more, or isn't 0 where the root service has one instance alone.
    Number,
    /// There is no such try.
    Attempt,
    /// There is no such round of binary consensus, or a round where there is none.
    Round,
    /// There is no such step of binary consensus, or a step where there is none.
    Step,
    /// The origin isn't a replica.
    Origin,
    /// The bytes are fewer than a slot has. `Slot::check` never answers it.
    Whole,
}

// The classes of a root service.
#[tactic(auto, unfolding(crate::specs::Slots::has_class))]
fn has_class(service: RootService, class: u8) -> bool
    ensures { result ≡ has_class (root_number service) class }
{
    match service {
        RootService::Reliable | RootService::Echo => class == 1,
        RootService::Binary => class == 5,
        RootService::MultiValued => class >= 3 && class <= 5,
        RootService::Vector => class >= 2 && class <= 5,
        RootService::Atomic | RootService::Direct => class >= 1 && class <= 5,
    }
}

// The form that reliable broadcast has at slots of a class.
fn reliable_form(version: FrameVersion, class: u8) -> u8
    ensures { result ≡ reliable_form version class }
{
    match version {
        FrameVersion::One => 1,
        FrameVersion::Two => 3,
        FrameVersion::Three => { if class == 5 { 1 } else { 3 } }
    }
}

// A field that class 5 alone uses counts from 1 there, and is 0 elsewhere.
fn is_count(is_step: bool, high: u8, x: u8) -> bool
    ensures { result ≡ (if is_step then within 1 high x else x == 0) }
{
    if is_step { x >= 1 && x <= high } else { x == 0 }
}

impl Slot {
    /// The slot of an origin's command of this number: class 1, with no try, round or step. Nothing is asked of the
    /// numbers: whether a session has the slot, `check` tells.
    pub fn command(origin: u8, num: u32) -> Slot
        ensures { result ≡ command_slot origin num }
    {
        Slot {
            class: 1,
            a: num,
            attempt: 0,
            bround: 0,
            step: 0,
            origin,
        }
    }

    /// The nine bytes of the slot: class, number (big-endian), try, round, step, origin. Slots are ordered as these bytes
    /// are (`order_of_bytes`).
    pub fn bytes(&self) -> [u8; 9]
        ensures { result ≡ slot_bytes self.now }
    {
        let [a3, a2, a1, a0] = self.a.to_be_bytes();
        [
            self.class,
            a3,
            a2,
            a1,
            a0,
            self.attempt,
            self.bround,
            self.step,
            self.origin,
        ]
    }

    /// The first fault that the slot has, in the order of `SlotFault`.
    #[tactic(auto, unfolding(crate::specs::Slots::slot_fault))]
    pub fn check(&self, p: &Params, mode: &Mode) -> Result<(), SlotFault>
        ensures fault { MatchResult result (λ _. slot_fault p.now mode.now self.now ≡ None) (λ x. slot_fault p.now mode.now self.now ≡ Some x) }
        ensures session { OnOk result (IsSession p.now) }
    {
        if self.class < 1 || self.class > 5 {
            return Err(SlotFault::Class);
        }
        let service = mode.service();
        if !has_class(service, self.class) {
            return Err(SlotFault::Closed);
        }
        if self.a >= NUMBER_LIMIT || self.a != 0 && !service.takes_commands() {
            return Err(SlotFault::Number);
        }
        let tries = if service.has_tries() && self.class >= 3 {
            p.f()
        } else {
            0
        };
        if self.attempt > tries {
            return Err(SlotFault::Attempt);
        }
        let is_step = self.class == 5;
        if !is_count(is_step, 200, self.bround) {
            return Err(SlotFault::Round);
        }
        if !is_count(is_step, 3, self.step) {
            return Err(SlotFault::Step);
        }
        if self.origin >= p.n() {
            return Err(SlotFault::Origin);
        }
        Ok(())
    }

    /// Whether the round and the step of binary consensus are right: from 1 to 200 and from 1 to 3 in class 5, and 0 in
    /// the other classes, which have neither.
    pub fn has_counts(&self) -> bool
        ensures { result ≡ (has_count 200 self.now.class self.now.bround && has_count 3 self.now.class self.now.step) }
    {
        let is_step = self.class == 5;
        is_count(is_step, 200, self.bround) && is_count(is_step, 3, self.step)
    }

    /// Whether the slot goes by the echo broadcast.
    #[tactic(auto, unfolding(crate::specs::Slots::by_echo))]
    pub fn by_echo(&self, mode: &Mode) -> bool
        ensures { result ≡ by_echo mode.now self.now }
    {
        match self.class {
            1 => mode.service().echoes_commands(),
            4 => matches!(mode.vect, Vect::Echo),
            _ => false,
        }
    }

    /// The form of the slot's broadcast: 1 reliable with values, 2 echo, 3 reliable with digests.
    #[tactic(auto, unfolding(crate::specs::Slots::form_of))]
    pub fn form(&self, mode: &Mode) -> u8
        ensures { result ≡ form_of mode.now self.now }
    {
        if self.by_echo(mode) {
            return 2;
        }
        reliable_form(mode.version, self.class)
    }
}
