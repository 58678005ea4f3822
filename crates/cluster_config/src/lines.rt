//! Lines, each of which is a name, a space and a value.
ghost use Rattle.std.specs.Prelude.{◌≡◌, ◌+◌, ◌<◌, ◌≤◌, ◌==◌, Ok, Err, MatchOption, OnOk, IfOk, length, option_map};
ghost use Rattle.cluster_config.specs.Lines.{GivesLine, text_end_at, field_at, fields_at, fields_up_to, first_line, line_at, line_value_at, value_in};
ghost use Rattle.cluster_config.specs.Front.{copies_at, journal_at, numbers_lines_at, session_at};
ghost use Rattle.cluster_config.specs.Values.{address_in, attack_in, key_in, number_in, numbers_in, order_in, request_of_line, row_in, vect_in, version_in, yes_or_no_in};
ghost use Rattle.cluster_config.specs.Cluster.{most_requests};
ghost use Rattle.cluster_config.specs.Views.{viewed_request};

use crate::cuts::cut_at;
use crate::values::{
    address_in, attack_in, key_in, number_in, order_in, params_in, request_in, row_in, vect_in,
    version_in, yes_or_no_in,
};
use crate::views::{Addresses, MOST_REQUESTS, RequestView, RequestViews};
use ritas_base::{Attack, FrameVersion, Order, Params, Vect};
use std::marker::Model;

/// The number of the first line, from 1, that is wrong or missing.
#[derive(Clone, Copy, Debug, PartialEq, Eq)]
pub struct WrongLine {
    pub line: u32,
}

/// A text from some line on. Contracts see the line's number, from 1, and the bytes from there on.
#[derive(Drop)]
pub(crate) struct Lines<'a> {
    number: u32,
    rest: &'a [u8],
}

impl<'a> Model for Lines<'a> {
    ghost use Rattle.cluster_config.specs.Lines.{LinePlace};

    ghost Value = { LinePlace };

    ghost view = { λ l. record { number = l.number; rest = l.rest.now } };
}

// The value of a line of this name.
fn value_in<'a>(name: &str, line: &'a [u8]) -> Option<&'a [u8]>
    ensures { option_map (λ v. v.now) result ≡ value_in name.now line.now }
{
    line.strip_prefix(name.as_bytes())?.strip_prefix(b" ")
}

// A value, or else this line.
fn or_line<T: Drop>(line: u32, value: Option<T>) -> Result<T, WrongLine>
    ensures { MatchOption value (result ≡ Err (record { line = line })) (λ x. result ≡ Ok x) }
{
    match value {
        Some(x) => Ok(x),
        None => Err(WrongLine { line }),
    }
}

impl<'a> Lines<'a> {
    /// The lines of a text.
    pub(crate) fn new(text: &'a [u8]) -> Lines<'a>
        ensures { result ≡ first_line text.entry.now }
    {
        Lines {
            number: 1,
            rest: text,
        }
    }

    // The next line.
    #[tactic(auto, unfolding(crate::specs::Lines::line_at))]
    fn line(&mut self) -> Result<&'a [u8], WrongLine>
        requires { self.old.number < 4294967295 }
        ensures exact { GivesLine (λ x. x.now) result self.new (line_at self.old) }
        ensures next { OnOk result (self.new.number ≡ self.old.number + 1) }
    {
        match cut_at(self.rest, b'\n') {
            Some((line, rest)) => {
                self.rest = rest;
                self.number += 1;
                Ok(line)
            }
            None => Err(WrongLine { line: self.number }),
        }
    }

    // Whether nothing follows.
    fn is_over(&self) -> bool
        ensures { result ≡ (length self.now.rest == 0) }
    {
        self.rest.is_empty()
    }

    /// Nothing follows.
    #[tactic(auto, unfolding(crate::specs::Lines::text_end_at))]
    pub(crate) fn end(&mut self) -> Result<(), WrongLine>
        ensures { GivesLine (λ x. x) result self.new (text_end_at self.old) }
    {
        if self.is_over() {
            Ok(())
        } else {
            Err(WrongLine { line: self.number })
        }
    }

    // The value of the next line, which has this name.
    #[tactic(auto, unfolding(crate::specs::Lines::line_value_at))]
    fn value(&mut self, name: &str) -> Result<&'a [u8], WrongLine>
        requires { self.old.number < 4294967295 }
        ensures exact { GivesLine (λ x. x.now) result self.new (line_value_at name.now self.old) }
        ensures next { OnOk result (self.new.number ≡ self.old.number + 1) }
    {
        let line = self.number;
        or_line(line, value_in(name, self.line()?))
    }

    /// A number in a range.
    #[tactic(auto, unfolding(crate::specs::Lines::field_at))]
    pub(crate) fn number(&mut self, name: &str, low: u64, high: u64) -> Result<u64, WrongLine>
        requires { self.old.number < 4294967295 }
        ensures exact { GivesLine (λ x. x) result self.new (field_at name.now (number_in low high) self.old) }
        ensures next { OnOk result (self.new.number ≡ self.old.number + 1) }
        ensures range { IfOk result (λ x. (low ≤ x) × (x ≤ high)) }
    {
        let line = self.number;
        or_line(line, number_in(self.value(name)?, low, high))
    }

    /// How many of `n` replicas may be faulty.
    #[tactic(auto, unfolding(crate::specs::Lines::field_at))]
    pub(crate) fn params(&mut self, name: &str, n: u8) -> Result<Params, WrongLine>
        requires place { self.old.number < 4294967295 }
        requires least { 1 ≤ n }
        requires most { n ≤ 31 }
        ensures exact { GivesLine (λ x. x) result self.new (field_at name.now (numbers_in n) self.old) }
        ensures next { OnOk result (self.new.number ≡ self.old.number + 1) }
    {
        let line = self.number;
        or_line(line, params_in(self.value(name)?, n))
    }

    /// A key.
    #[tactic(auto, unfolding(crate::specs::Lines::field_at))]
    pub(crate) fn key(&mut self, name: &str) -> Result<[u8; 32], WrongLine>
        requires { self.old.number < 4294967295 }
        ensures exact { GivesLine (λ x. x) result self.new (field_at name.now key_in self.old) }
        ensures next { OnOk result (self.new.number ≡ self.old.number + 1) }
    {
        let line = self.number;
        or_line(line, key_in(self.value(name)?))
    }

    /// A version of frames.
    #[tactic(auto, unfolding(crate::specs::Lines::field_at))]
    pub(crate) fn version(&mut self, name: &str) -> Result<FrameVersion, WrongLine>
        requires { self.old.number < 4294967295 }
        ensures exact { GivesLine (λ x. x) result self.new (field_at name.now version_in self.old) }
        ensures next { OnOk result (self.new.number ≡ self.old.number + 1) }
    {
        let line = self.number;
        or_line(line, version_in(self.value(name)?))
    }

    /// The broadcast of VECTs.
    #[tactic(auto, unfolding(crate::specs::Lines::field_at))]
    pub(crate) fn vect(&mut self, name: &str) -> Result<Vect, WrongLine>
        requires { self.old.number < 4294967295 }
        ensures exact { GivesLine (λ x. x) result self.new (field_at name.now vect_in self.old) }
        ensures next { OnOk result (self.new.number ≡ self.old.number + 1) }
    {
        let line = self.number;
        or_line(line, vect_in(self.value(name)?))
    }

    /// Yes or no.
    #[tactic(auto, unfolding(crate::specs::Lines::field_at))]
    pub(crate) fn yes_or_no(&mut self, name: &str) -> Result<bool, WrongLine>
        requires { self.old.number < 4294967295 }
        ensures exact { GivesLine (λ x. x) result self.new (field_at name.now yes_or_no_in self.old) }
        ensures next { OnOk result (self.new.number ≡ self.old.number + 1) }
    {
        let line = self.number;
        or_line(line, yes_or_no_in(self.value(name)?))
    }

    /// The order of steps.
    #[tactic(auto, unfolding(crate::specs::Lines::field_at))]
    pub(crate) fn order(&mut self, name: &str) -> Result<Order, WrongLine>
        requires { self.old.number < 4294967295 }
        ensures exact { GivesLine (λ x. x) result self.new (field_at name.now order_in self.old) }
        ensures next { OnOk result (self.new.number ≡ self.old.number + 1) }
    {
        let line = self.number;
        or_line(line, order_in(self.value(name)?))
    }

    /// What the faulty replicas do.
    #[tactic(auto, unfolding(crate::specs::Lines::field_at))]
    pub(crate) fn attack(&mut self, name: &str) -> Result<Attack, WrongLine>
        requires { self.old.number < 4294967295 }
        ensures exact { GivesLine (λ x. x) result self.new (field_at name.now attack_in self.old) }
        ensures next { OnOk result (self.new.number ≡ self.old.number + 1) }
    {
        let line = self.number;
        or_line(line, attack_in(self.value(name)?))
    }

    /// The format, which is the version of frames, and the session.
    #[tactic(auto, unfolding(crate::specs::Front::session_at))]
    pub(crate) fn session(&mut self) -> Result<(FrameVersion, u64), WrongLine>
        requires { self.old.number < 4294967200 }
        ensures exact { GivesLine (λ x. x) result self.new (session_at self.old) }
        ensures next { OnOk result (self.new.number ≡ self.old.number + 2) }
    {
        let version = self.version("ritas")?;
        let session = self.number("session", 0, u64::MAX)?;
        Ok((version, session))
    }

    /// How many replicas there are, and how many of them may be faulty.
    #[tactic(auto, unfolding(crate::specs::Front::numbers_lines_at))]
    pub(crate) fn numbers(&mut self) -> Result<Params, WrongLine>
        requires { self.old.number < 4294967200 }
        ensures exact { GivesLine (λ x. x) result self.new (numbers_lines_at self.old) }
        ensures next { OnOk result (self.new.number ≡ self.old.number + 2) }
    {
        let n = self.number("n", 1, 31)? as u8;
        self.params("f", n)
    }

    /// To how many of `n` replicas a command is given, to the end of the text: to one, where it isn't said.
    #[tactic(auto, unfolding(crate::specs::Front::copies_at))]
    pub(crate) fn copies(&mut self, n: u8) -> Result<u8, WrongLine>
        requires { self.old.number < 4294967295 }
        ensures { GivesLine (λ x. x) result self.new (copies_at n self.old) }
    {
        if self.is_over() {
            return Ok(1);
        }
        let copies = self.number("copies", 1, u64::from(n))? as u8;
        self.end()?;
        Ok(copies)
    }

    /// Whether a journal is kept, to the end of the text: none is, where it isn't said.
    #[tactic(auto, unfolding(crate::specs::Front::journal_at))]
    pub(crate) fn journal(&mut self) -> Result<bool, WrongLine>
        requires { self.old.number < 4294967295 }
        ensures { GivesLine (λ x. x) result self.new (journal_at self.old) }
    {
        if self.is_over() {
            return Ok(false);
        }
        let journal = self.yes_or_no("journal")?;
        self.end()?;
        Ok(journal)
    }

    /// The keys that one of `n` replicas shares with each.
    #[tactic(auto, unfolding(crate::specs::Lines::field_at))]
    pub(crate) fn row(&mut self, name: &str, n: u8) -> Result<[[u8; 32]; 31], WrongLine>
        requires place { self.old.number < 4294967295 }
        requires most { n ≤ 31 }
        ensures exact { GivesLine (λ x. x) result self.new (field_at name.now (row_in n) self.old) }
        ensures next { OnOk result (self.new.number ≡ self.old.number + 1) }
    {
        let line = self.number;
        or_line(line, row_in(self.value(name)?, n))
    }

    /// An address.
    #[tactic(auto, unfolding(crate::specs::Lines::field_at))]
    pub(crate) fn address(&mut self, name: &str) -> Result<&'a [u8], WrongLine>
        requires { self.old.number < 4294967295 }
        ensures exact { GivesLine (λ x. x.now) result self.new (field_at name.now address_in self.old) }
        ensures next { OnOk result (self.new.number ≡ self.old.number + 1) }
    {
        let line = self.number;
        or_line(line, address_in(self.value(name)?))
    }

    /// The addresses of `n` lines.
    pub(crate) fn addresses(&mut self, name: &str, n: u8) -> Result<Addresses<'a>, WrongLine>
        requires place { self.old.number < 4294967200 }
        requires most { n ≤ 31 }
        ensures exact { GivesLine (λ x. x) result self.new (fields_at name.now address_in n self.old) }
        ensures next { OnOk result (self.new.number ≡ self.old.number + n) }
    {
        let mut addresses = Addresses::new();
        while addresses.len() < n as usize {
            addresses.push(self.address(name)?);
        }
        Ok(addresses)
    }

    /// A request that is handed to one of `n` replicas.
    #[tactic(auto, unfolding(crate::specs::Lines::field_at))]
    pub(crate) fn request(&mut self, name: &str, n: u8) -> Result<RequestView<'a>, WrongLine>
        requires place { self.old.number < 4294967295 }
        requires least { 1 ≤ n }
        ensures exact { GivesLine viewed_request result self.new (field_at name.now (request_of_line n) self.old) }
        ensures next { OnOk result (self.new.number ≡ self.old.number + 1) }
    {
        let line = self.number;
        or_line(line, request_in(self.value(name)?, n))
    }

    /// The requests of all lines that are left, at most `MOST_REQUESTS` (64).
    pub(crate) fn requests(&mut self, name: &str, n: u8) -> Result<RequestViews<'a>, WrongLine>
        requires place { self.old.number < 4294967200 }
        requires least { 1 ≤ n }
        ensures { GivesLine (λ x. x) result self.new (fields_up_to name.now (request_of_line n) most_requests self.old) }
    {
        let mut requests = RequestViews::new();
        while requests.len() < MOST_REQUESTS && !self.is_over() {
            requests.push(self.request(name, n)?);
        }
        self.end()?;
        Ok(requests)
    }
}
