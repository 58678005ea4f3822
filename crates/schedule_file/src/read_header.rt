//! Reading a header, field by field: each keeps its rule, or the first that breaks it is a fault.

ghost use Rattle.std.specs.Prelude.{◌^◌, ◌≡◌, ◌≢◌, ◌<◌, ◌≤◌, true, false, Err, IfOk, IsTrue};
ghost use Rattle.outside.specs.Faults.{HasCause};
ghost use Rattle.schedule_file.specs.declared.fault.FileFault.TheVariants.{Read};
ghost use Rattle.schedule_file.specs.SourceFaults.{file_faults_after};
ghost use Rattle.schedule_file.specs.FileBytes.{GivesUnlessFailed, bytes_at};
ghost use Rattle.schedule_file.specs.Place.{spot};
ghost use Rattle.schedule_file.specs.Spelling.{IsKey, IsRow, AreHeaderKeys, IsHeading};
ghost use Rattle.ritas_base.specs.Numbers.{IsSession};
ghost use Rattle.ritas_base.specs.RootServices.{most_root};
ghost use Rattle.schedule_file.specs.ReadHeader.{heading, is_root, start_at, numbers_at, root_at, vect_at, mask_at, me_at, key_row_at, alone_at, keys_at, header_at};

use crate::fault::FileFault;
use crate::header::{Header, HeaderKeys};
use crate::pieces::{Pieces, test};
use outside::Source;
use ritas_base::{FrameVersion, Mode, Params, RootService, SenderSet, Vect};

/// Whether this is one of the root services.
fn is_root(root: u8) -> bool
    ensures value { result ≡ is_root root }
    ensures root { IsTrue result → (1 ≤ root) × (root ≤ most_root) }
{
    RootService::of(root).is_some()
}

#[tactic(auto, using(outside::specs::FaultsLaws::rose_after), unfolding(crate::specs::ReadHeader::start_at))]
fn read_start<S: Source>(
    pieces: &mut Pieces,
    source: &mut S,
) -> Result<(FrameVersion, u64), FileFault>
    ensures exact { S.tells ≡ true → GivesUnlessFailed (λ x. x) result (spot pieces.new (S.left source.new)) (start_at (spot pieces.old (S.left source.old))) }
    ensures memory { result ≢ Err FileFault.Mem }
    ensures cause { HasCause (S.faults source.old) (S.faults source.new) (result ≡ Err Read) }
    ensures counts { S.faults source.new ≡ file_faults_after (S.faults source.old) result }
{
    let magic = pieces.number32(source)?;
    test(magic == 0x5249_5453, FileFault::Magic)?;
    let version = match pieces.byte(source)? {
        1 => FrameVersion::One,
        2 => FrameVersion::Two,
        3 => FrameVersion::Three,
        _ => return Err(FileFault::Version),
    };
    let session = pieces.number64(source)?;
    Ok((version, session))
}

#[tactic(auto, using(outside::specs::FaultsLaws::rose_after), unfolding(crate::specs::ReadHeader::numbers_at))]
fn read_numbers<S: Source>(pieces: &mut Pieces, source: &mut S) -> Result<Params, FileFault>
    ensures exact { S.tells ≡ true → GivesUnlessFailed (λ x. x) result (spot pieces.new (S.left source.new)) (numbers_at (spot pieces.old (S.left source.old))) }
    ensures session { IfOk result IsSession }
    ensures memory { result ≢ Err FileFault.Mem }
    ensures cause { HasCause (S.faults source.old) (S.faults source.new) (result ≡ Err Read) }
    ensures counts { S.faults source.new ≡ file_faults_after (S.faults source.old) result }
{
    let n = pieces.byte(source)?;
    test(1 <= n && n <= 31, FileFault::Header(13))?;
    let f = pieces.byte(source)?;
    match Params::new(n, f) {
        Ok(p) => Ok(p),
        Err(_) => Err(FileFault::Header(14)),
    }
}

#[tactic(auto, using(outside::specs::FaultsLaws::rose_after), unfolding(crate::specs::ReadHeader::root_at))]
fn read_root<S: Source>(pieces: &mut Pieces, source: &mut S) -> Result<u8, FileFault>
    ensures exact { S.tells ≡ true → GivesUnlessFailed (λ x. x) result (spot pieces.new (S.left source.new)) (root_at (spot pieces.old (S.left source.old))) }
    ensures one { IfOk result (λ root. is_root root ≡ true) }
    ensures root { IfOk result (λ root. (1 ≤ root) × (root ≤ most_root)) }
    ensures memory { result ≢ Err FileFault.Mem }
    ensures cause { HasCause (S.faults source.old) (S.faults source.new) (result ≡ Err Read) }
    ensures counts { S.faults source.new ≡ file_faults_after (S.faults source.old) result }
{
    let root = pieces.byte(source)?;
    test(is_root(root), FileFault::Header(15))?;
    Ok(root)
}

#[tactic(auto, using(outside::specs::FaultsLaws::rose_after), unfolding(crate::specs::ReadHeader::vect_at))]
fn read_vect<S: Source>(pieces: &mut Pieces, source: &mut S) -> Result<Vect, FileFault>
    ensures exact { S.tells ≡ true → GivesUnlessFailed (λ x. x) result (spot pieces.new (S.left source.new)) (vect_at (spot pieces.old (S.left source.old))) }
    ensures memory { result ≢ Err FileFault.Mem }
    ensures cause { HasCause (S.faults source.old) (S.faults source.new) (result ≡ Err Read) }
    ensures counts { S.faults source.new ≡ file_faults_after (S.faults source.old) result }
{
    match pieces.byte(source)? {
        1 => Ok(Vect::Echo),
        2 => Ok(Vect::Reliable),
        _ => Err(FileFault::Header(16)),
    }
}

#[tactic(auto, using(outside::specs::FaultsLaws::rose_after), unfolding(crate::specs::ReadHeader::mask_at))]
fn read_mask<S: Source>(pieces: &mut Pieces, source: &mut S, n: u8) -> Result<SenderSet, FileFault>
    requires { n < 32 }
    ensures exact { S.tells ≡ true → GivesUnlessFailed (λ x. x) result (spot pieces.new (S.left source.new)) (mask_at n (spot pieces.old (S.left source.old))) }
    ensures below { IfOk result (λ mask. mask < 2 ^ n) }
    ensures memory { result ≢ Err FileFault.Mem }
    ensures cause { HasCause (S.faults source.old) (S.faults source.new) (result ≡ Err Read) }
    ensures counts { S.faults source.new ≡ file_faults_after (S.faults source.old) result }
{
    let mask = pieces.number32(source)?;
    test(mask < 1 << n, FileFault::Header(17))?;
    Ok(SenderSet::from_mask(mask))
}

fn read_key<S: Source>(pieces: &mut Pieces, source: &mut S) -> Result<[u8; 32], FileFault>
    ensures exact { S.tells ≡ true → GivesUnlessFailed (λ key. key) result (spot pieces.new (S.left source.new)) (bytes_at 32 (spot pieces.old (S.left source.old))) }
    ensures len { IfOk result IsKey }
    ensures memory { result ≢ Err FileFault.Mem }
    ensures cause { HasCause (S.faults source.old) (S.faults source.new) (result ≡ Err Read) }
    ensures counts { S.faults source.new ≡ file_faults_after (S.faults source.old) result }
{
    let mut key = [0; 32];
    pieces.fill(source, &mut key)?;
    Ok(key)
}

// The number of the replica whose keys follow, which alone is correct.
#[tactic(auto, using(outside::specs::FaultsLaws::rose_after), unfolding(crate::specs::ReadHeader::me_at))]
fn read_me<S: Source>(
    pieces: &mut Pieces,
    source: &mut S,
    n: u8,
    correct: SenderSet,
) -> Result<u8, FileFault>
    requires { n < 32 }
    ensures exact { S.tells ≡ true → GivesUnlessFailed (λ me. me) result (spot pieces.new (S.left source.new)) (me_at n correct (spot pieces.old (S.left source.old))) }
    ensures me { IfOk result (λ me. (me < n) × (correct ≡ 2 ^ me)) }
    ensures memory { result ≢ Err FileFault.Mem }
    ensures cause { HasCause (S.faults source.old) (S.faults source.new) (result ≡ Err Read) }
    ensures counts { S.faults source.new ≡ file_faults_after (S.faults source.old) result }
{
    let me = pieces.byte(source)?;
    test(me < n, FileFault::Header(22))?;
    test(correct.mask() == 1 << me, FileFault::Header(17))?;
    Ok(me)
}

// The key that the replica shares with each of n, and zeros behind them.
fn read_row<S: Source>(
    pieces: &mut Pieces,
    source: &mut S,
    n: u8,
) -> Result<[[u8; 32]; 31], FileFault>
    requires { n < 32 }
    ensures exact { S.tells ≡ true → GivesUnlessFailed (λ row. row) result (spot pieces.new (S.left source.new)) (key_row_at n (spot pieces.old (S.left source.old))) }
    ensures row { IfOk result (IsRow n) }
    ensures memory { result ≢ Err FileFault.Mem }
    ensures cause { HasCause (S.faults source.old) (S.faults source.new) (result ≡ Err Read) }
    ensures counts { S.faults source.new ≡ file_faults_after (S.faults source.old) result }
{
    let mut row = [[0; 32]; 31];
    for j in 0..n {
        row[j as usize] = read_key(pieces, source)?;
    }
    Ok(row)
}

#[tactic(auto, using(outside::specs::FaultsLaws::rose_after), unfolding(crate::specs::ReadHeader::alone_at))]
fn read_alone<S: Source>(
    pieces: &mut Pieces,
    source: &mut S,
    n: u8,
    correct: SenderSet,
) -> Result<HeaderKeys, FileFault>
    requires { n < 32 }
    ensures exact { S.tells ≡ true → GivesUnlessFailed (λ x. x) result (spot pieces.new (S.left source.new)) (alone_at n correct (spot pieces.old (S.left source.old))) }
    ensures keys { IfOk result (AreHeaderKeys n correct) }
    ensures memory { result ≢ Err FileFault.Mem }
    ensures cause { HasCause (S.faults source.old) (S.faults source.new) (result ≡ Err Read) }
    ensures counts { S.faults source.new ≡ file_faults_after (S.faults source.old) result }
{
    let me = read_me(pieces, source, n, correct)?;
    let row = read_row(pieces, source, n)?;
    let coin = read_key(pieces, source)?;
    Ok(HeaderKeys::Row { me, row, coin })
}

#[tactic(auto, using(outside::specs::FaultsLaws::rose_after), unfolding(crate::specs::ReadHeader::keys_at, crate::specs::ReadHeader::master_at))]
fn read_keys<S: Source>(
    pieces: &mut Pieces,
    source: &mut S,
    n: u8,
    correct: SenderSet,
) -> Result<HeaderKeys, FileFault>
    requires { n < 32 }
    ensures exact { S.tells ≡ true → GivesUnlessFailed (λ x. x) result (spot pieces.new (S.left source.new)) (keys_at n correct (spot pieces.old (S.left source.old))) }
    ensures keys { IfOk result (AreHeaderKeys n correct) }
    ensures memory { result ≢ Err FileFault.Mem }
    ensures cause { HasCause (S.faults source.old) (S.faults source.new) (result ≡ Err Read) }
    ensures counts { S.faults source.new ≡ file_faults_after (S.faults source.old) result }
{
    match pieces.byte(source)? {
        0 => Ok(HeaderKeys::Master(read_key(pieces, source)?)),
        1 => read_alone(pieces, source, n, correct),
        _ => Err(FileFault::Header(21)),
    }
}

/// The header, or its first fault.
#[tactic(auto, using(outside::specs::FaultsLaws::rose_after), unfolding(crate::specs::ReadHeader::header_at))]
pub fn read_header<S: Source>(pieces: &mut Pieces, source: &mut S) -> Result<Header, FileFault>
    ensures exact { S.tells ≡ true → GivesUnlessFailed heading result (spot pieces.new (S.left source.new)) (header_at (spot pieces.old (S.left source.old))) }
    ensures header { IfOk result (λ h. IsHeading (heading h)) }
    ensures memory { result ≢ Err FileFault.Mem }
    ensures cause { HasCause (S.faults source.old) (S.faults source.new) (result ≡ Err Read) }
    ensures counts { S.faults source.new ≡ file_faults_after (S.faults source.old) result }
{
    let (version, session) = read_start(pieces, source)?;
    let p = read_numbers(pieces, source)?;
    let root = read_root(pieces, source)?;
    let vect = read_vect(pieces, source)?;
    let correct = read_mask(pieces, source, p.n())?;
    let keys = read_keys(pieces, source, p.n(), correct)?;
    Ok(Header {
        session,
        p,
        mode: Mode {
            root,
            vect,
            version,
        },
        correct,
        keys,
    })
}
