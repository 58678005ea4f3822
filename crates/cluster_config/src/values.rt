//! The values of lines.
ghost use Rattle.std.specs.Prelude.{◌≡◌, ◌≤◌, IfSome, Some, None, drop, option_map, take, if◌then◌else◌};
ghost use Rattle.cluster_config.specs.Values.{number_from, numeral, number_in, numbers_in, key_in, row_in, version_in, vect_in, yes_or_no_in, order_in, attack_in};
ghost use Rattle.cluster_config.specs.Values.{number_before, address_in, payload_in, request_of_line};
ghost use Rattle.cluster_config.specs.Views.{payload_of, viewed_request};

use crate::cuts::cut_at;
use crate::views::RequestView;
use ritas_base::{Attack, FrameVersion, LONGEST_PAYLOAD, Order, Params, Vect};

// The number that these digits write behind those of `first`.
fn number_from(first: u64, digits: &[u8]) -> Option<u64>
    ensures { result ≡ number_from first digits.now }
{
    let mut number = first;
    for digit in digits {
        if !digit.is_ascii_digit() {
            return None;
        }
        number = number
            .checked_mul(10)?
            .checked_add(u64::from(*digit - b'0'))?;
    }
    Some(number)
}

// A number in decimal digits, without a leading zero.
fn numeral(text: &[u8]) -> Option<u64>
    ensures { result ≡ numeral text.now }
{
    match text {
        [] => None,
        [b'0'] => Some(0),
        [b'0', ..] => None,
        _ => number_from(0, text),
    }
}

/// A number from `low` to `high`.
pub(crate) fn number_in(text: &[u8], low: u64, high: u64) -> Option<u64>
    ensures { result ≡ number_in low high text.now }
{
    let number = numeral(text)?;
    if low <= number && number <= high {
        Some(number)
    } else {
        None
    }
}

/// The numbers of `n` replicas, of which as many as the value says may be faulty.
pub(crate) fn params_in(text: &[u8], n: u8) -> Option<Params>
    requires least { 1 ≤ n }
    requires most { n ≤ 31 }
    ensures { result ≡ numbers_in n text.now }
{
    let f = u8::try_from(numeral(text)?).ok()?;
    Params::new(n, f).ok()
}

/// A key of 32 bytes in hexadecimal digits.
pub(crate) fn key_in(text: &[u8]) -> Option<[u8; 32]>
    ensures { result ≡ key_in text.now }
{
    let mut key = [0; 32];
    match hex::decode_to_slice(text, &mut key) {
        Ok(()) => Some(key),
        Err(_) => None,
    }
}

// The digits of the first key, and what stands behind them.
fn first_key(text: &[u8]) -> (&[u8], &[u8])
    ensures digits { result.0.now ≡ take 64 text.now }
    ensures rest { result.1.now ≡ drop 64 text.now }
{
    text.split_at(text.len().min(64))
}

/// The keys of `n` replicas, one behind the other, and zeros in the places behind them.
pub(crate) fn row_in(text: &[u8], n: u8) -> Option<[[u8; 32]; 31]>
    requires { n ≤ 31 }
    ensures { result ≡ row_in n text.now }
{
    let mut row = [[0; 32]; 31];
    let mut rest = text;
    for k in 0..n as usize {
        let (digits, more) = first_key(rest);
        row[k] = key_in(digits)?;
        rest = more;
    }
    if rest.is_empty() { Some(row) } else { None }
}

/// A version of frames.
pub(crate) fn version_in(text: &[u8]) -> Option<FrameVersion>
    ensures { result ≡ version_in text.now }
{
    if text == b"1".as_slice() {
        Some(FrameVersion::One)
    } else if text == b"2".as_slice() {
        Some(FrameVersion::Two)
    } else if text == b"3".as_slice() {
        Some(FrameVersion::Three)
    } else {
        None
    }
}

/// The broadcast of VECTs.
pub(crate) fn vect_in(text: &[u8]) -> Option<Vect>
    ensures { result ≡ vect_in text.now }
{
    if text == b"echo".as_slice() {
        Some(Vect::Echo)
    } else if text == b"reliable".as_slice() {
        Some(Vect::Reliable)
    } else {
        None
    }
}

/// Yes or no.
pub(crate) fn yes_or_no_in(text: &[u8]) -> Option<bool>
    ensures { result ≡ yes_or_no_in text.now }
{
    if text == b"yes".as_slice() {
        Some(true)
    } else if text == b"no".as_slice() {
        Some(false)
    } else {
        None
    }
}

/// The order of steps.
pub(crate) fn order_in(text: &[u8]) -> Option<Order>
    ensures { result ≡ order_in text.now }
{
    if text == b"sweep".as_slice() {
        Some(Order::Sweep)
    } else if text == b"random".as_slice() {
        Some(Order::Random)
    } else {
        None
    }
}

/// What the faulty replicas do.
pub(crate) fn attack_in(text: &[u8]) -> Option<Attack>
    ensures { result ≡ attack_in text.now }
{
    if text == b"none".as_slice() {
        Some(Attack::Absent)
    } else if text == b"silent".as_slice() {
        Some(Attack::Silent)
    } else if text == b"twoface".as_slice() {
        Some(Attack::TwoFace)
    } else if text == b"flip".as_slice() {
        Some(Attack::Flip)
    } else if text == b"garbage".as_slice() {
        Some(Attack::Garbage)
    } else {
        None
    }
}

// A number up to `high`, which ends before the first such byte, and what stands behind that.
fn number_before(text: &[u8], byte: u8, high: u64) -> Option<(u64, &[u8])>
    ensures exact { option_map (λ found. (found.0, found.1.now)) result ≡ number_before byte high text.now }
    ensures range { IfSome result (λ found. found.0 ≤ high) }
{
    let (number, rest) = cut_at(text, byte)?;
    Some((number_in(number, 0, high)?, rest))
}

/// An address: four numbers of eight bits joined by dots, a colon and a port.
pub(crate) fn address_in(text: &[u8]) -> Option<&[u8]>
    ensures { option_map (λ address. address.now) result ≡ address_in text.now }
{
    let (_, second) = number_before(text, b'.', 255)?;
    let (_, third) = number_before(second, b'.', 255)?;
    let (_, fourth) = number_before(third, b'.', 255)?;
    let (_, port) = number_before(fourth, b':', 255)?;
    number_in(port, 1, 65_535)?;
    Some(text)
}

// Whether these are the digits of a payload.
fn is_payload(text: &[u8]) -> bool
    ensures { payload_in text.now ≡ (if result then Some (payload_of text.now) else None) }
{
    if text == b"-".as_slice() {
        return true;
    }
    if text.len() < 2 || text.len() > 2 * LONGEST_PAYLOAD {
        return false;
    }
    let mut bytes = [0; LONGEST_PAYLOAD];
    hex::decode_to_slice(text, &mut bytes[..text.len() / 2]).is_ok()
}

/// A request that is handed to one of `n` replicas.
pub(crate) fn request_in(text: &[u8], n: u8) -> Option<RequestView<'_>>
    requires { 1 ≤ n }
    ensures { option_map viewed_request result ≡ request_of_line n text.now }
{
    let (at, rest) = number_before(text, b' ', u64::from(n) - 1)?;
    let (client, rest) = number_before(rest, b' ', u64::from(u32::MAX))?;
    let (request, digits) = number_before(rest, b' ', u64::from(u32::MAX))?;
    if !is_payload(digits) {
        return None;
    }
    Some(RequestView {
        at: at as u8,
        client: client as u32,
        request: request as u32,
        digits,
    })
}
