//! A reader of schedule files: the header, the events one by one, and the end, or the first fault from the left.

ghost use Rattle.std.specs.Prelude.{◌≡◌, ◌≢◌, true, Ok, Err, None, IfOk, IfSome, MatchResult};
ghost use Rattle.outside.specs.Faults.{HasCause};
ghost use Rattle.schedule_file.specs.declared.fault.FileFault.TheVariants.{Read};
ghost use Rattle.schedule_file.specs.SourceFaults.{file_faults_after};
ghost use Rattle.schedule_file.specs.declared.stage.Stage.TheVariants.{Open, Ended, Stopped};
ghost use Rattle.schedule_file.specs.Reading.{text_start};
ghost use Rattle.schedule_file.specs.FileBytes.{GivesUnlessFailed, Fails};
ghost use Rattle.schedule_file.specs.Place.{spot, reading_stage_after};
ghost use Rattle.schedule_file.specs.ReadHeader.{heading, header_at};
ghost use Rattle.schedule_file.specs.ReadEvents.{event_at, reads_text_next};
ghost use Rattle.schedule_file.specs.Scopes.{scope_of, IsInScope};
ghost use Rattle.schedule_file.specs.Spelling.{IsHeading};

use crate::fault::FileFault;
use crate::header::Header;
use crate::pieces::Pieces;
use crate::read_events::read_event;
use crate::read_header::read_header;
use crate::scope::Scope;
use crate::stage::Stage;
use outside::Source;
use ritas_base::Event;
use std::alloc::Global;
use std::marker::Model;

/// A schedule file that is being read. Contracts see what it holds of the file, the scope of its header,
/// and its stage: open, ended, or stopped by a fault.
#[derive(Drop)]
pub struct Reader {
    pieces: Pieces,
    scope: Scope,
    stage: Stage,
}

impl Model for Reader {
    ghost use Rattle.schedule_file.specs.Place.{ReaderState};

    ghost Value = { ReaderState };

    ghost view = { λ r. record { held = r.pieces; scope = r.scope; stage = r.stage } };
}

impl Reader {
    /// Reads the header of a file, which begins at the source's next byte. The answer is that of the bytes that the
    /// source has left, in whatever pieces it gives them. It takes no memory.
    ///
    /// `Read` is answered only where the source failed.
    pub fn start<S: Source>(_alloc: Global, src: &mut S) -> Result<(Header, Reader), FileFault>
        ensures exact { S.tells ≡ true → MatchResult result
            (λ x. header_at (text_start (S.left src.old)) ≡ Ok (heading x.0, spot x.1.held (S.left src.new)))
            (λ e. Fails e (header_at (text_start (S.left src.old)))) }
        ensures ready { IfOk result (λ x. (x.1.stage ≡ Open) × (x.1.scope ≡ scope_of (heading x.0))) }
        ensures header { IfOk result (λ x. IsHeading (heading x.0)) }
        ensures memory { result ≢ Err FileFault.Mem }
        ensures cause { HasCause (S.faults src.old) (S.faults src.new) (result ≡ Err Read) }
        ensures counts { S.faults src.new ≡ file_faults_after (S.faults src.old) result }
    {
        let mut pieces = Pieces::new();
        let header = read_header(&mut pieces, src)?;
        let reader = Reader {
            pieces,
            scope: Scope::of(&header),
            stage: Stage::Open,
        };
        Ok((header, reader))
    }

    /// The next event, or `None` where the end mark was read and the source then gave its end. The answer is that of
    /// the bytes that the reader holds followed by those that the source has left. It needs no source any more after
    /// `None`, which each later call answers too, nor after a fault, which each later call answers again. `Mem` comes
    /// only where there is an event that holds a text: a file with a fault is answered it.
    ///
    /// `Read` is answered only where the source failed in this call, or an earlier call answered it.
    pub fn next<S: Source>(
        &mut self,
        alloc: Global,
        src: &mut S,
    ) -> Result<Option<Event>, FileFault>
        ensures exact { self.old.stage ≡ Open → S.tells ≡ true → GivesUnlessFailed (λ x. x) result (spot self.new.held (S.left src.new))
            (event_at self.old.scope (spot self.old.held (S.left src.old))) }
        ensures stage { self.old.stage ≡ Open → self.new.stage ≡ reading_stage_after result }
        ensures event { IfOk result (λ o. IfSome o (IsInScope self.old.scope)) }
        ensures scope { self.new.scope ≡ self.old.scope }

        // Memory is wanted only for a text of the next event, which is whole and right.
        ensures memory { self.old.stage ≡ Open → S.tells ≡ true → result ≡ Err FileFault.Mem
            → reads_text_next (event_at self.old.scope (spot self.old.held (S.left src.old)))
            ≡ true }

        // Where the file ended or has a fault, the answer stays, and the source isn't read.
        ensures ended { self.old.stage ≡ Ended → result ≡ Ok None }
        ensures again { (e : _) → self.old.stage ≡ Stopped e → result ≡ Err e }
        ensures same { self.old.stage ≢ Open → (self.new ≡ self.old) × (src.new ≡ src.old) }

        ensures cause { HasCause (S.faults src.old) (S.faults src.new) ((self.old.stage ≡ Open) × (result ≡ Err Read)) }
        ensures counts { self.old.stage ≡ Open → S.faults src.new ≡ file_faults_after (S.faults src.old) result }
    {
        match self.stage {
            Stage::Open => {}
            Stage::Ended => return Ok(None),
            Stage::Stopped(e) => return Err(e),
        }
        let result = read_event(alloc, &mut self.pieces, src, self.scope);
        self.stage = match &result {
            Ok(Some(_)) => Stage::Open,
            Ok(None) => Stage::Ended,
            Err(e) => Stage::Stopped(*e),
        };
        result
    }
}
