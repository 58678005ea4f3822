//! What is delivered together: what came of a few rounds.
ghost use Rattle.std.specs.Prelude.{◌≡◌, ◌++◌, ◌∷◌, [], Some, None, true, false, IfSome, OnOk};
ghost use Rattle.schedule_file.specs.Spelling.{IsSized};
ghost use Rattle.node_loop.specs.Standing.{is_again};
ghost use Rattle.node_loop.specs.Groups.{IsEmpty, MayGrow, IsGroupEnough, kept_listed, text_listed};

use crate::output::{More, Output};
use outside::Buffer;
use ritas_base::{Event, Mem};
use schedule_file::Writer;
use std::alloc::Global;

/// A group with so many bytes of text takes no further round, and a piece of a text goes out.
pub(crate) const ENOUGH_BYTES: usize = 65_536;

/// What came of a few rounds, of which nothing was delivered yet.
#[derive(Drop)]
pub(crate) struct Group {
    /// The text of the events, the oldest first.
    pub text: Buffer,
    /// The events that a journal keeps, the oldest first.
    pub kept: Vec<Event>,
    /// What else came of each round, the oldest first.
    pub outputs: Vec<Output>,
    /// Of earlier groups, for rounds to come, which then take no memory.
    spare: Vec<Output>,
    /// Whether frames that are kept for a peer go out again by the newest round. By no other they do.
    pub resends: bool,
}

// Whether frames that are kept for a peer go out again.
fn is_again(more: More) -> bool
    ensures again { result ≡ is_again more }
{
    match more {
        More::Nothing => false,
        More::Note { .. } => false,
        More::Kept { .. } => true,
    }
}

impl Group {
    /// No round. It takes no memory.
    pub(crate) fn new(alloc: Global) -> Group
        ensures empty { IsEmpty result }
    {
        Group {
            text: Buffer::new(alloc),
            kept: Vec::new(alloc),
            outputs: Vec::new(alloc),
            spare: Vec::new(alloc),
            resends: false,
        }
    }

    /// No round any more. Its memory stays with it.
    pub(crate) fn clear(&mut self)
        ensures empty { IsEmpty self.new }
    {
        self.spare_all();
        self.text.clear();
        self.kept.clear();
        self.outputs.clear();
        self.resends = false;
    }

    // What came of each round is spare now, as far as memory lasts.
    fn spare_all(&mut self) {
        for _ in 0..self.outputs.len() {
            if let Some(mut output) = self.outputs.pop() {
                output.clear(0);
                let _ = self.spare.push(output);
            }
        }
    }

    /// An output to be filled: a spare one, whatever is in it, or a new one, which takes no memory.
    pub(crate) fn output(&mut self, alloc: Global) -> Output
        ensures same { self.new ≡ record self.old { spare = self.new.spare } }
    {
        match self.spare.pop() {
            Some(output) => output,
            None => Output::new(alloc),
        }
    }

    /// What came of a round joins. The one error is want of memory.
    pub(crate) fn add(&mut self, mut output: Output) -> Result<(), Mem>
        requires event { IfSome output.event IsSized }
        ensures text { OnOk result (self.new.text.taken ≡ self.old.text.taken ++ text_listed output.event) }
        ensures kept { OnOk result (self.new.kept.items ≡ self.old.kept.items ++ kept_listed output.kept output.event) }
        ensures outputs { OnOk result (self.new.outputs.items ≡ self.old.outputs.items ++ record output { event = None } ∷ []) }
        ensures resends { OnOk result (self.new.resends ≡ is_again output.more) }
    {
        self.resends = is_again(output.more);
        if let Some(event) = output.event.take() {
            self.write(event, output.kept)?;
        }
        self.outputs.push(output)?;
        Ok(())
    }

    // Adds an event. The one error is want of memory.
    fn write(&mut self, event: Event, kept: bool) -> Result<(), Mem>
        requires event { IsSized event }
        ensures text { OnOk result (self.new.text.taken ≡ self.old.text.taken ++ text_listed (Some event)) }
        ensures kept { OnOk result (self.new.kept.items ≡ self.old.kept.items ++ kept_listed kept (Some event)) }
        ensures same { (self.new.outputs ≡ self.old.outputs) × (self.new.resends ≡ self.old.resends) }
    {
        if Writer::event(&mut self.text, &event).is_err() {
            return Err(Mem);
        }
        if kept {
            self.kept.push(event)?;
        }
        Ok(())
    }

    /// Whether a round may join: nothing that is kept for a peer goes out again, and the text isn't enough.
    pub(crate) fn goes_on(&self) -> bool
        ensures goes { result ≡ true → MayGrow self.now }
        ensures stops { result ≡ false → IsGroupEnough self.now }
    {
        !self.resends && self.text.len() < ENOUGH_BYTES
    }
}
