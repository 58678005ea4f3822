//! Reading events, kind by kind: each is whole and at replicas that the file has, or is a fault.

ghost use Rattle.std.specs.Prelude.{◌<◌, IfOk, IfSome, ◌≡◌, ◌≢◌, true, Err, None};
ghost use Rattle.outside.specs.Faults.{HasCause};
ghost use Rattle.schedule_file.specs.declared.fault.FileFault.TheVariants.{Read};
ghost use Rattle.schedule_file.specs.SourceFaults.{file_faults_after};
ghost use Rattle.schedule_file.specs.FileBytes.{GivesUnlessFailed};
ghost use Rattle.schedule_file.specs.Place.{spot};
ghost use Rattle.schedule_file.specs.Scopes.{IsTheOne, IsInScope};
ghost use Rattle.schedule_file.specs.ReadEvents.{replica_at, pair_at, frame_at, input_read_at, turn_at, pass_at, sealed_at, kind_at, event_at, reads_text, reads_text_next};

use crate::fault::FileFault;
use crate::pieces::{Pieces, test};
use crate::scope::Scope;
use outside::Source;
use ritas_base::Event;
use std::alloc::Global;

#[tactic(auto, using(outside::specs::FaultsLaws::rose_after), unfolding(crate::specs::ReadEvents::replica_at))]
fn read_replica<S: Source>(
    pieces: &mut Pieces,
    source: &mut S,
    scope: Scope,
    begin: u32,
) -> Result<u8, FileFault>
    ensures exact { S.tells ≡ true → GivesUnlessFailed (λ x. x) result (spot pieces.new (S.left source.new)) (replica_at scope begin (spot pieces.old (S.left source.old))) }
    ensures below { IfOk result (λ at. at < scope.n) }
    ensures one { IfOk result (IsTheOne scope.only) }
    ensures memory { result ≢ Err FileFault.Mem }
    ensures cause { HasCause (S.faults source.old) (S.faults source.new) (result ≡ Err Read) }
    ensures counts { S.faults source.new ≡ file_faults_after (S.faults source.old) result }
{
    let at = pieces.byte(source)?;
    test(scope.has(at), FileFault::Event(begin))?;
    Ok(at)
}

#[tactic(auto, using(outside::specs::FaultsLaws::rose_after), unfolding(crate::specs::ReadEvents::pair_at))]
fn read_pair<S: Source>(
    pieces: &mut Pieces,
    source: &mut S,
    scope: Scope,
    begin: u32,
) -> Result<(u8, u8), FileFault>
    ensures exact { S.tells ≡ true → GivesUnlessFailed (λ x. (x.0, x.1)) result (spot pieces.new (S.left source.new)) (pair_at scope begin (spot pieces.old (S.left source.old))) }
    ensures free { IfOk result (λ _. scope.only ≡ None) }
    ensures pair { IfOk result (λ x. (x.0 < scope.n) × (x.1 < scope.n) × (x.0 ≢ x.1)) }
    ensures memory { result ≢ Err FileFault.Mem }
    ensures cause { HasCause (S.faults source.old) (S.faults source.new) (result ≡ Err Read) }
    ensures counts { S.faults source.new ≡ file_faults_after (S.faults source.old) result }
{
    test(scope.only.is_none(), FileFault::Event(begin))?;
    let from = read_replica(pieces, source, scope, begin)?;
    let to = read_replica(pieces, source, scope, begin)?;
    test(from != to, FileFault::Event(begin))?;
    Ok((from, to))
}

#[tactic(auto, using(outside::specs::FaultsLaws::rose_after), unfolding(crate::specs::ReadEvents::frame_at))]
fn read_frame<S: Source>(
    alloc: Global,
    pieces: &mut Pieces,
    source: &mut S,
    scope: Scope,
    begin: u32,
) -> Result<Event, FileFault>
    ensures exact { S.tells ≡ true → GivesUnlessFailed (λ x. x) result (spot pieces.new (S.left source.new)) (frame_at scope begin (spot pieces.old (S.left source.old))) }
    ensures event { IfOk result (IsInScope scope) }
    ensures memory { S.tells ≡ true → result ≡ Err FileFault.Mem
        → reads_text (frame_at scope begin (spot pieces.old (S.left source.old))) ≡ true }
    ensures cause { HasCause (S.faults source.old) (S.faults source.new) (result ≡ Err Read) }
    ensures counts { S.faults source.new ≡ file_faults_after (S.faults source.old) result }
{
    let to = read_replica(pieces, source, scope, begin)?;
    let bytes = pieces.text(alloc, source)?;
    Ok(Event::Frame { to, bytes })
}

#[tactic(auto, using(outside::specs::FaultsLaws::rose_after), unfolding(crate::specs::ReadEvents::input_read_at))]
fn read_input<S: Source>(
    alloc: Global,
    pieces: &mut Pieces,
    source: &mut S,
    scope: Scope,
    begin: u32,
) -> Result<Event, FileFault>
    ensures exact { S.tells ≡ true → GivesUnlessFailed (λ x. x) result (spot pieces.new (S.left source.new)) (input_read_at scope begin (spot pieces.old (S.left source.old))) }
    ensures event { IfOk result (IsInScope scope) }
    ensures memory { S.tells ≡ true → result ≡ Err FileFault.Mem
        → reads_text (input_read_at scope begin (spot pieces.old (S.left source.old))) ≡ true }
    ensures cause { HasCause (S.faults source.old) (S.faults source.new) (result ≡ Err Read) }
    ensures counts { S.faults source.new ≡ file_faults_after (S.faults source.old) result }
{
    let at = read_replica(pieces, source, scope, begin)?;
    let bytes = pieces.text(alloc, source)?;
    Ok(Event::Input { at, bytes })
}

#[tactic(auto, using(outside::specs::FaultsLaws::rose_after), unfolding(crate::specs::ReadEvents::turn_at))]
fn read_turn<S: Source>(
    pieces: &mut Pieces,
    source: &mut S,
    scope: Scope,
    begin: u32,
) -> Result<Event, FileFault>
    ensures exact { S.tells ≡ true → GivesUnlessFailed (λ x. x) result (spot pieces.new (S.left source.new)) (turn_at scope begin (spot pieces.old (S.left source.old))) }
    ensures event { IfOk result (IsInScope scope) }
    ensures memory { result ≢ Err FileFault.Mem }
    ensures cause { HasCause (S.faults source.old) (S.faults source.new) (result ≡ Err Read) }
    ensures counts { S.faults source.new ≡ file_faults_after (S.faults source.old) result }
{
    let at = read_replica(pieces, source, scope, begin)?;
    Ok(Event::Turn { at })
}

#[tactic(auto, using(outside::specs::FaultsLaws::rose_after), unfolding(crate::specs::ReadEvents::pass_at))]
fn read_pass<S: Source>(
    pieces: &mut Pieces,
    source: &mut S,
    scope: Scope,
    begin: u32,
) -> Result<Event, FileFault>
    ensures exact { S.tells ≡ true → GivesUnlessFailed (λ x. x) result (spot pieces.new (S.left source.new)) (pass_at scope begin (spot pieces.old (S.left source.old))) }
    ensures event { IfOk result (IsInScope scope) }
    ensures memory { result ≢ Err FileFault.Mem }
    ensures cause { HasCause (S.faults source.old) (S.faults source.new) (result ≡ Err Read) }
    ensures counts { S.faults source.new ≡ file_faults_after (S.faults source.old) result }
{
    let (from, to) = read_pair(pieces, source, scope, begin)?;
    let m = pieces.number32(source)?;
    Ok(Event::Pass { from, to, m })
}

#[tactic(auto, using(outside::specs::FaultsLaws::rose_after), unfolding(crate::specs::ReadEvents::sealed_at))]
fn read_sealed<S: Source>(
    alloc: Global,
    pieces: &mut Pieces,
    source: &mut S,
    scope: Scope,
    begin: u32,
) -> Result<Event, FileFault>
    ensures exact { S.tells ≡ true → GivesUnlessFailed (λ x. x) result (spot pieces.new (S.left source.new)) (sealed_at scope begin (spot pieces.old (S.left source.old))) }
    ensures event { IfOk result (IsInScope scope) }
    ensures memory { S.tells ≡ true → result ≡ Err FileFault.Mem
        → reads_text (sealed_at scope begin (spot pieces.old (S.left source.old))) ≡ true }
    ensures cause { HasCause (S.faults source.old) (S.faults source.new) (result ≡ Err Read) }
    ensures counts { S.faults source.new ≡ file_faults_after (S.faults source.old) result }
{
    let (from, to) = read_pair(pieces, source, scope, begin)?;
    let body = pieces.text(alloc, source)?;
    Ok(Event::Sealed { from, to, body })
}

#[tactic(auto, using(outside::specs::FaultsLaws::rose_after), unfolding(crate::specs::ReadEvents::kind_at))]
fn read_kind<S: Source>(
    alloc: Global,
    pieces: &mut Pieces,
    source: &mut S,
    scope: Scope,
    begin: u32,
    kind: u8,
) -> Result<Event, FileFault>
    ensures exact { S.tells ≡ true → GivesUnlessFailed (λ x. x) result (spot pieces.new (S.left source.new)) (kind_at scope begin kind (spot pieces.old (S.left source.old))) }
    ensures event { IfOk result (IsInScope scope) }
    ensures memory { S.tells ≡ true → result ≡ Err FileFault.Mem
        → reads_text (kind_at scope begin kind (spot pieces.old (S.left source.old))) ≡ true }
    ensures cause { HasCause (S.faults source.old) (S.faults source.new) (result ≡ Err Read) }
    ensures counts { S.faults source.new ≡ file_faults_after (S.faults source.old) result }
{
    match kind {
        1 => read_frame(alloc, pieces, source, scope, begin),
        2 => read_input(alloc, pieces, source, scope, begin),
        3 => read_turn(pieces, source, scope, begin),
        4 => read_pass(pieces, source, scope, begin),
        5 => read_sealed(alloc, pieces, source, scope, begin),
        _ => Err(FileFault::Event(begin)),
    }
}

/// The next event, or `None` at the end mark that the end of the file follows. Memory is wanted
/// only for the text of an event.
#[tactic(auto, using(outside::specs::FaultsLaws::rose_after), unfolding(crate::specs::ReadEvents::event_at))]
pub fn read_event<S: Source>(
    alloc: Global,
    pieces: &mut Pieces,
    source: &mut S,
    scope: Scope,
) -> Result<Option<Event>, FileFault>
    ensures exact { S.tells ≡ true → GivesUnlessFailed (λ x. x) result (spot pieces.new (S.left source.new)) (event_at scope (spot pieces.old (S.left source.old))) }
    ensures event { IfOk result (λ o. IfSome o (IsInScope scope)) }
    ensures memory { S.tells ≡ true → result ≡ Err FileFault.Mem
        → reads_text_next (event_at scope (spot pieces.old (S.left source.old))) ≡ true }
    ensures cause { HasCause (S.faults source.old) (S.faults source.new) (result ≡ Err Read) }
    ensures counts { S.faults source.new ≡ file_faults_after (S.faults source.old) result }
{
    let begin = pieces.at();
    let kind = pieces.byte(source)?;
    if kind == 0 {
        pieces.end(source)?;
        return Ok(None);
    }
    Ok(Some(read_kind(alloc, pieces, source, scope, begin, kind)?))
}
