//! A schedule file as it comes from its source, in pieces: nothing is looked at behind the limit, and no memory is taken
//! before a text is there.

ghost use Rattle.std.specs.Prelude.{◌^◌, ◌≡◌, ◌<◌, ◌≤◌, ◌+◌, ◌-◌, ◌++◌, [], true, false, Ok, Err, length, take, drop, IfOk, IfErr, IsOk, IsErr, OnOk, MatchResult, ◌≢◌};
ghost use Rattle.std.specs.Bool.{OnTrue, OnFalse};
ghost use Rattle.outside.specs.Faults.{HasCause, counted};
ghost use Rattle.schedule_file.specs.declared.fault.FileFault.TheVariants.{Read};
ghost use Rattle.schedule_file.specs.SourceFaults.{file_faults_after};
ghost use Rattle.schedule_file.specs.Reading.{test};
ghost use Rattle.schedule_file.specs.FileBytes.{GivesUnlessFailed, Fails, byte_at, end_at, bytes_at, u16_at, u32_at, u64_at, text_at, limit};
ghost use Rattle.schedule_file.specs.Place.{spot};

use crate::fault::FileFault;
use crate::limit::FILE_LIMIT;
use outside::{Failed, Source};
use ritas_base::Bytes;
use std::alloc::Global;
use std::marker::Model;

/// What came of a file and wasn't read, at most 65,536 bytes: room for the longest text, so that memory is taken for a text
/// only once all of it came. Contracts see its place and its bytes.
#[derive(Drop)]
pub struct Pieces {
    piece: [u8; 65_536],
    from: usize,
    to: usize,
    at: u32,
}

impl Model for Pieces {
    ghost use Rattle.std.specs.Prelude.{take, drop, ◌≤◌};
    ghost use Rattle.schedule_file.specs.FileBytes.{limit};
    ghost use Rattle.schedule_file.specs.Place.{Unread};

    ghost Value = { Unread };

    ghost view = { λ p. record { at = p.at; bytes = drop p.from (take p.to p.piece) } };

    ghost invariant = { λ p. (p.from ≤ p.to) × (p.to ≤ 65536) × (p.at ≤ limit) };
}

/// A condition, and the fault where it doesn't hold.
pub fn test(holds: bool, fault: FileFault) -> Result<(), FileFault>
    ensures { MatchResult result (λ _. holds ≡ true) (λ e. (holds ≡ false) × (e ≡ fault)) }
{
    if holds { Ok(()) } else { Err(fault) }
}

/// Moves a part of a buffer to its front, and says how many bytes it has.
fn move_to_front(piece: &mut [u8], from: usize, to: usize) -> usize
    requires order { from ≤ to }
    requires within { to ≤ length piece.old }
    ensures part { take result piece.new ≡ drop from (take to piece.old) }
    ensures len { result ≡ to - from }
{
    if from == 0 {
        return to;
    }
    piece.copy_within(from..to, 0);
    to - from
}

impl Pieces {
    /// Nothing came yet.
    pub fn new() -> Pieces
        ensures { result ≡ record { at = 0; bytes = [] } }
    {
        Pieces {
            piece: [0; 65_536],
            from: 0,
            to: 0,
            at: 0,
        }
    }

    /// The place: how many bytes were read.
    pub fn at(&self) -> u32
        ensures { result ≡ self.now.at }
    {
        self.at
    }

    /// How many bytes are held.
    fn len(&self) -> usize
        ensures { result ≡ length self.now.bytes }
    {
        self.to - self.from
    }

    /// The next bytes, which are held.
    fn front(&self, len: usize) -> &[u8]
        requires { len ≤ length self.now.bytes }
        ensures { result.now ≡ take len self.now.bytes }
    {
        &self.piece[self.from..self.from + len]
    }

    /// Goes on behind bytes that are held.
    fn skip(&mut self, len: usize)
        requires held { len ≤ length self.old.bytes }
        requires low { self.old.at + len ≤ limit }
        ensures { self.new ≡ record { at = self.old.at + len; bytes = drop len self.old.bytes } }
    {
        self.from += len;
        self.at += len as u32;
    }

    /// Reads once behind what is held, and says how many bytes came.
    fn read_on<S: Source>(&mut self, source: &mut S) -> Result<usize, Failed>
        requires { length self.old.bytes < 65536 }
        ensures same { S.tells ≡ true → IfOk result (λ _. self.new.bytes ++ S.left source.new ≡ self.old.bytes ++ S.left source.old) }
        ensures more { IfOk result (λ k. length self.new.bytes ≡ length self.old.bytes + k) }
        ensures end { S.tells ≡ true → IfOk result (λ k. k ≡ 0 → S.left source.new ≡ []) }
        ensures at { self.new.at ≡ self.old.at }
        ensures cause { HasCause (S.faults source.old) (S.faults source.new) (IsErr result) }
        ensures counts { S.faults source.new ≡ counted (S.faults source.old) result }
    {
        self.to = move_to_front(&mut self.piece, self.from, self.to);
        self.from = 0;
        let count = source.read(&mut self.piece[self.to..])?;
        self.to += count;
        Ok(count)
    }

    /// Reads until so many bytes are held, or to the end of the source.
    fn gather<S: Source>(&mut self, source: &mut S, len: usize) -> Result<(), Failed>
        requires { len ≤ 65536 }
        ensures same { S.tells ≡ true → OnOk result (self.new.bytes ++ S.left source.new ≡ self.old.bytes ++ S.left source.old) }
        ensures enough { S.tells ≡ true → OnOk result (length self.new.bytes < len → S.left source.new ≡ []) }
        ensures at { self.new.at ≡ self.old.at }
        ensures cause { HasCause (S.faults source.old) (S.faults source.new) (IsErr result) }
        ensures counts { S.faults source.new ≡ counted (S.faults source.old) result }
    {
        while self.len() < len {
            let came = self.read_on(source)?;
            if came == 0 {
                return Ok(());
            }
        }
        Ok(())
    }

    /// Whether a byte is held, after a read of the source where none was.
    fn refill<S: Source>(&mut self, source: &mut S) -> Result<bool, Failed>
        ensures same { S.tells ≡ true → IfOk result (λ _. self.new.bytes ++ S.left source.new ≡ self.old.bytes ++ S.left source.old) }
        ensures more { IfOk result (λ b. OnTrue b (0 < length self.new.bytes)) }
        ensures none { S.tells ≡ true → IfOk result (λ b. OnFalse b (self.new.bytes ++ S.left source.new ≡ [])) }
        ensures at { self.new.at ≡ self.old.at }
        ensures cause { HasCause (S.faults source.old) (S.faults source.new) (IsErr result) }
        ensures counts { S.faults source.new ≡ counted (S.faults source.old) result }
    {
        self.gather(source, 1)?;
        Ok(self.len() > 0)
    }

    /// Whether a byte follows that may be looked at. Nothing is read.
    fn has_more<S: Source>(&mut self, source: &mut S) -> Result<bool, FileFault>
        ensures same { S.tells ≡ true → IfOk result (λ _. spot self.new (S.left source.new) ≡ spot self.old (S.left source.old)) }
        ensures more { IfOk result (λ b. OnTrue b ((0 < length self.new.bytes) × (self.new.at < limit))) }
        ensures none { S.tells ≡ true → IfOk result (λ b. OnFalse b (self.new.bytes ++ S.left source.new ≡ [])) }
        ensures err { S.tells ≡ true → IfErr result (λ e. e ≢ Read → (e ≡ FileFault.TooLong) × (limit ≤ self.old.at) × (0 < length (self.old.bytes ++ S.left source.old))) }
        ensures at { self.new.at ≡ self.old.at }
        ensures memory { result ≢ Err FileFault.Mem }
        ensures cause { HasCause (S.faults source.old) (S.faults source.new) (result ≡ Err Read) }
        ensures counts { S.faults source.new ≡ file_faults_after (S.faults source.old) result }
    {
        if !self.refill(source)? {
            return Ok(false);
        }
        if self.at >= FILE_LIMIT {
            return Err(FileFault::TooLong);
        }
        Ok(true)
    }

    /// The next byte.
    #[tactic(auto, unfolding(crate::specs::FileBytes::byte_at))]
    pub fn byte<S: Source>(&mut self, source: &mut S) -> Result<u8, FileFault>
        ensures exact { S.tells ≡ true → GivesUnlessFailed (λ b. b) result (spot self.new (S.left source.new)) (byte_at (spot self.old (S.left source.old))) }
        ensures memory { result ≢ Err FileFault.Mem }
        ensures cause { HasCause (S.faults source.old) (S.faults source.new) (result ≡ Err Read) }
        ensures counts { S.faults source.new ≡ file_faults_after (S.faults source.old) result }
    {
        if !self.has_more(source)? {
            return Err(FileFault::Truncated(self.at));
        }
        let byte = self.piece[self.from];
        self.from += 1;
        self.at += 1;
        Ok(byte)
    }

    /// The end of the file.
    #[tactic(auto, using(crate::proofs::Chunks::trailing_at), unfolding(crate::specs::FileBytes::end_at))]
    pub fn end<S: Source>(&mut self, source: &mut S) -> Result<(), FileFault>
        ensures exact { S.tells ≡ true → GivesUnlessFailed (λ b. b) result (spot self.new (S.left source.new)) (end_at (spot self.old (S.left source.old))) }
        ensures memory { result ≢ Err FileFault.Mem }
        ensures cause { HasCause (S.faults source.old) (S.faults source.new) (result ≡ Err Read) }
        ensures counts { S.faults source.new ≡ file_faults_after (S.faults source.old) result }
    {
        if self.has_more(source)? {
            return Err(FileFault::Trailing(self.at));
        }
        Ok(())
    }

    /// Tests that so many bytes follow, which are then held. Nothing is read.
    fn hold<S: Source>(&mut self, source: &mut S, len: usize) -> Result<(), FileFault>
        requires { len ≤ 65536 }
        ensures same { S.tells ≡ true → OnOk result (spot self.new (S.left source.new) ≡ spot self.old (S.left source.old)) }
        ensures held { OnOk result (len ≤ length self.new.bytes) }
        ensures low { OnOk result (self.new.at + len ≤ limit) }
        ensures err { S.tells ≡ true → IfErr result (λ e. Fails e (bytes_at len (spot self.old (S.left source.old)))) }
        ensures memory { result ≢ Err FileFault.Mem }
        ensures cause { HasCause (S.faults source.old) (S.faults source.new) (result ≡ Err Read) }
        ensures counts { S.faults source.new ≡ file_faults_after (S.faults source.old) result }
    {
        self.gather(source, len)?;
        let have = self.len().min(len);
        if have > (FILE_LIMIT - self.at) as usize {
            return Err(FileFault::TooLong);
        }
        if have < len {
            return Err(FileFault::Truncated(self.at + have as u32));
        }
        Ok(())
    }

    /// Fills a buffer with the next bytes.
    #[tactic(auto, using(crate::proofs::Chunks::held_read))]
    pub fn fill<S: Source>(&mut self, source: &mut S, out: &mut [u8]) -> Result<(), FileFault>
        requires { length out.old ≤ 65536 }
        ensures exact { S.tells ≡ true → GivesUnlessFailed (λ _. out.new) result (spot self.new (S.left source.new))
            (bytes_at (length out.old) (spot self.old (S.left source.old))) }
        ensures memory { result ≢ Err FileFault.Mem }
        ensures cause { HasCause (S.faults source.old) (S.faults source.new) (result ≡ Err Read) }
        ensures counts { S.faults source.new ≡ file_faults_after (S.faults source.old) result }
    {
        self.hold(source, out.len())?;
        out.copy_from_slice(self.front(out.len()));
        self.skip(out.len());
        Ok(())
    }

    #[tactic(auto, unfolding(crate::specs::FileBytes::u16_at))]
    pub fn number16<S: Source>(&mut self, source: &mut S) -> Result<u16, FileFault>
        ensures exact { S.tells ≡ true → GivesUnlessFailed (λ b. b) result (spot self.new (S.left source.new)) (u16_at (spot self.old (S.left source.old))) }
        ensures memory { result ≢ Err FileFault.Mem }
        ensures cause { HasCause (S.faults source.old) (S.faults source.new) (result ≡ Err Read) }
        ensures counts { S.faults source.new ≡ file_faults_after (S.faults source.old) result }
    {
        let mut bytes = [0; 2];
        self.fill(source, &mut bytes)?;
        Ok(u16::from_be_bytes(bytes))
    }

    #[tactic(auto, unfolding(crate::specs::FileBytes::u32_at))]
    pub fn number32<S: Source>(&mut self, source: &mut S) -> Result<u32, FileFault>
        ensures exact { S.tells ≡ true → GivesUnlessFailed (λ b. b) result (spot self.new (S.left source.new)) (u32_at (spot self.old (S.left source.old))) }
        ensures memory { result ≢ Err FileFault.Mem }
        ensures cause { HasCause (S.faults source.old) (S.faults source.new) (result ≡ Err Read) }
        ensures counts { S.faults source.new ≡ file_faults_after (S.faults source.old) result }
    {
        let mut bytes = [0; 4];
        self.fill(source, &mut bytes)?;
        Ok(u32::from_be_bytes(bytes))
    }

    #[tactic(auto, unfolding(crate::specs::FileBytes::u64_at))]
    pub fn number64<S: Source>(&mut self, source: &mut S) -> Result<u64, FileFault>
        ensures exact { S.tells ≡ true → GivesUnlessFailed (λ b. b) result (spot self.new (S.left source.new)) (u64_at (spot self.old (S.left source.old))) }
        ensures memory { result ≢ Err FileFault.Mem }
        ensures cause { HasCause (S.faults source.old) (S.faults source.new) (result ≡ Err Read) }
        ensures counts { S.faults source.new ≡ file_faults_after (S.faults source.old) result }
    {
        let mut bytes = [0; 8];
        self.fill(source, &mut bytes)?;
        Ok(u64::from_be_bytes(bytes))
    }

    /// So many bytes. Memory is taken only once all of them came. That it isn't said to be short
    /// where it is ample is shown by `bytes_of_many_lengths` of `base_tests`.
    #[tactic(auto, using(crate::proofs::Chunks::held_read))]
    fn bytes<S: Source>(
        &mut self,
        alloc: Global,
        source: &mut S,
        len: u16,
    ) -> Result<Bytes, FileFault>
        ensures exact { S.tells ≡ true → GivesUnlessFailed (λ v. v) result (spot self.new (S.left source.new)) (bytes_at len (spot self.old (S.left source.old))) }
        ensures len { IfOk result (λ v. length v ≡ len) }
        ensures memory { S.tells ≡ true → result ≡ Err FileFault.Mem → IsOk (bytes_at len (spot self.old (S.left source.old))) }
        ensures cause { HasCause (S.faults source.old) (S.faults source.new) (result ≡ Err Read) }
        ensures counts { S.faults source.new ≡ file_faults_after (S.faults source.old) result }
    {
        self.hold(source, len as usize)?;
        let bytes = Bytes::from_slice(alloc, self.front(len as usize))?;
        self.skip(len as usize);
        Ok(bytes)
    }

    /// A text behind its length, of two bytes.
    #[tactic(auto, using(outside::specs::FaultsLaws::rose_after), unfolding(crate::specs::FileBytes::text_at))]
    pub fn text<S: Source>(&mut self, alloc: Global, source: &mut S) -> Result<Bytes, FileFault>
        ensures exact { S.tells ≡ true → GivesUnlessFailed (λ v. v) result (spot self.new (S.left source.new)) (text_at (spot self.old (S.left source.old))) }
        ensures len { IfOk result (λ v. length v < 2 ^ 16) }
        ensures memory { S.tells ≡ true → result ≡ Err FileFault.Mem → IsOk (text_at (spot self.old (S.left source.old))) }
        ensures cause { HasCause (S.faults source.old) (S.faults source.new) (result ≡ Err Read) }
        ensures counts { S.faults source.new ≡ file_faults_after (S.faults source.old) result }
    {
        let len = self.number16(source)?;
        self.bytes(alloc, source, len)
    }
}
