//! Payloads, each read as its format says. What is read is the bytes after it.

ghost use Rattle.std.specs.Prelude.{◌≡◌};
ghost use Rattle.ritas_base.specs.RootServices.{root_number};
ghost use Rattle.frame_codec.specs.Format.{Gives, read};
ghost use Rattle.frame_codec.specs.Inputs.{input_format};
ghost use Rattle.frame_codec.specs.Grammar.{entry, times, vector, class1, class2, class3, vect, bit, value, hashes, column, carries_digest, digest, payload};

use crate::fault::Wrong;
use crate::fields::{block, byte_below, entry_len, places, plain};
use crate::ids::{any_ids, ids, ids_from};
use crate::limits::{LONGEST_ENTRY, MOST_IDS};
use ritas_base::{Kind, LEAST_REQUEST, LONGEST_INPUT, Mode, Params, RootService, Slot};

#[tactic(auto, unfolding(crate::specs::Grammar::entry))]
fn entry<'a>(p: &Params, service: RootService, bytes: &'a [u8]) -> Result<&'a [u8], Wrong>
    ensures { Gives (λ rest. rest.now) result (read (entry p.now.n (root_number service)) bytes.now) }
{
    let (len, rest) = entry_len(service, bytes)?;
    if service.orders_commands() {
        return ids_from(p, MOST_IDS / p.n(), len / 5, rest);
    }
    let (_, rest) = block(len, rest)?;
    Ok(rest)
}

fn entries<'a>(
    p: &Params,
    service: RootService,
    count: u32,
    bytes: &'a [u8],
) -> Result<&'a [u8], Wrong>
    ensures { Gives (λ rest. rest.now) result (read (times count (entry p.now.n (root_number service))) bytes.now) }
{
    let mut rest = bytes;
    for _ in 0..count {
        rest = entry(p, service, rest)?;
    }
    Ok(rest)
}

#[tactic(auto, unfolding(crate::specs::Grammar::vector))]
fn vector<'a>(p: &Params, service: RootService, bytes: &'a [u8]) -> Result<&'a [u8], Wrong>
    ensures { Gives (λ rest. rest.now) result (read (vector p.now (root_number service)) bytes.now) }
{
    let (mask, rest) = places(p.n(), p.wait(), bytes)?;
    entries(p, service, mask.count_ones(), rest)
}

#[tactic(auto, unfolding(crate::specs::Grammar::class1))]
fn class1(service: RootService, bytes: &[u8]) -> Result<&[u8], Wrong>
    ensures { Gives (λ rest. rest.now) result (read (class1 (root_number service)) bytes.now) }
{
    plain(
        if service.orders_commands() {
            LEAST_REQUEST
        } else {
            1
        },
        LONGEST_INPUT,
        bytes,
    )
}

#[tactic(auto, unfolding(crate::specs::Grammar::class2))]
fn class2<'a>(p: &Params, service: RootService, bytes: &'a [u8]) -> Result<&'a [u8], Wrong>
    ensures { Gives (λ rest. rest.now) result (read (class2 p.now (root_number service)) bytes.now) }
{
    if service.orders_commands() {
        ids(p, bytes)
    } else {
        plain(1, LONGEST_ENTRY, bytes)
    }
}

#[tactic(auto, unfolding(crate::specs::Grammar::class3))]
fn class3<'a>(p: &Params, service: RootService, bytes: &'a [u8]) -> Result<&'a [u8], Wrong>
    ensures { Gives (λ rest. rest.now) result (read (class3 p.now (root_number service)) bytes.now) }
{
    match service {
        RootService::MultiValued => plain(1, LONGEST_INPUT, bytes),
        RootService::Direct => any_ids(p, bytes),
        RootService::Reliable
        | RootService::Echo
        | RootService::Binary
        | RootService::Vector
        | RootService::Atomic => vector(p, service, bytes),
    }
}

#[tactic(auto, unfolding(crate::specs::Grammar::vect))]
fn vect<'a>(p: &Params, service: RootService, bytes: &'a [u8]) -> Result<&'a [u8], Wrong>
    ensures { Gives (λ rest. rest.now) result (read (vect p.now (root_number service)) bytes.now) }
{
    if bytes.is_empty() {
        return Ok(bytes);
    }
    let (_, rest) = places(p.n(), p.support(), bytes)?;
    class3(p, service, rest)
}

#[tactic(auto, unfolding(crate::specs::Grammar::bit))]
fn bit(step: u8, bytes: &[u8]) -> Result<&[u8], Wrong>
    ensures { Gives (λ rest. rest.now) result (read (bit step) bytes.now) }
{
    let (_, rest) = byte_below(if step == 3 { 3 } else { 2 }, bytes)?;
    Ok(rest)
}

#[tactic(auto, unfolding(crate::specs::Grammar::value))]
fn value<'a>(
    p: &Params,
    service: RootService,
    slot: &Slot,
    bytes: &'a [u8],
) -> Result<&'a [u8], Wrong>
    ensures { Gives (λ rest. rest.now) result (read (value p.now (root_number service) slot.now) bytes.now) }
{
    match slot.class {
        1 => class1(service, bytes),
        2 => class2(p, service, bytes),
        3 => class3(p, service, bytes),
        4 => vect(p, service, bytes),
        _ => bit(slot.step, bytes),
    }
}

#[tactic(auto, unfolding(crate::specs::Grammar::hashes))]
fn hashes<'a>(p: &Params, bytes: &'a [u8]) -> Result<&'a [u8], Wrong>
    ensures { Gives (λ rest. rest.now) result (read (hashes p.now.n) bytes.now) }
{
    let (_, rest) = block(32 * usize::from(p.n()), bytes)?;
    Ok(rest)
}

#[tactic(auto, unfolding(crate::specs::Grammar::column))]
fn column<'a>(p: &Params, bytes: &'a [u8]) -> Result<&'a [u8], Wrong>
    ensures { Gives (λ rest. rest.now) result (read (column p.now.n) bytes.now) }
{
    let (mask, rest) = places(p.n(), 1, bytes)?;
    let (_, rest) = block(32 * mask.count_ones() as usize, rest)?;
    Ok(rest)
}

#[tactic(auto, unfolding(crate::specs::Grammar::digest))]
fn digest(bytes: &[u8]) -> Result<&[u8], Wrong>
    ensures { Gives (λ rest. rest.now) result (read digest bytes.now) }
{
    let (_, rest) = block(32, bytes)?;
    Ok(rest)
}

fn carries_digest(form: u8, kind: Kind) -> bool
    ensures { result ≡ carries_digest form kind }
{
    form == 3 && matches!(kind, Kind::Echo | Kind::Ready | Kind::Want)
}

#[tactic(auto, unfolding(crate::specs::Grammar::payload))]
pub(crate) fn payload<'a>(
    p: &Params,
    mode: &Mode,
    kind: Kind,
    slot: &Slot,
    bytes: &'a [u8],
) -> Result<&'a [u8], Wrong>
    ensures { Gives (λ rest. rest.now) result (read (payload p.now mode.now kind slot.now) bytes.now) }
{
    match kind {
        Kind::Hashes => hashes(p, bytes),
        Kind::Column => column(p, bytes),
        _ if carries_digest(slot.form(mode), kind) => digest(bytes),
        _ => value(p, mode.service(), slot, bytes),
    }
}

/// An input of the root service.
#[tactic(auto, unfolding(crate::specs::Inputs::input_format))]
pub(crate) fn input<'a>(
    p: &Params,
    service: RootService,
    bytes: &'a [u8],
) -> Result<&'a [u8], Wrong>
    ensures { Gives (λ rest. rest.now) result (read (input_format p.now (root_number service)) bytes.now) }
{
    match service {
        RootService::Binary => bit(1, bytes),
        RootService::MultiValued => class3(p, service, bytes),
        RootService::Vector => class2(p, service, bytes),
        RootService::Reliable | RootService::Echo | RootService::Atomic | RootService::Direct =>
            class1(service, bytes),
    }
}
