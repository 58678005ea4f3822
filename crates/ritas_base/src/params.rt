//! The numbers of a session, n of at least 3f + 1, and the counts that the protocols take from them.

ghost use Rattle.std.specs.Prelude.{◌≡◌, ℕ, ◌+◌, ◌*◌, ◌<◌, ◌≤◌, ◌↔◌, ◌⊎◌, IfOk, Err};
ghost use Rattle.ritas_base.specs.Numbers.{IsSession, quorum_of, ready_of, deliver_of, wait_of, support_of};

use std::marker::Model;

/// How many replicas there are, and how many of them may be faulty.
#[derive(Clone, Copy, Debug)]
pub struct Params {
    n: u8,
    f: u8,
}

impl Model for Params {
    ghost use Rattle.ritas_base.specs.Numbers.{Numbers, IsSession};

    ghost Value = { Numbers };

    ghost view = { λ p. record { n = p.n; f = p.f } };

    ghost invariant = { λ p. IsSession (record { n = p.n; f = p.f }) };

    ghost inverse = { λ p. record { n = p.n; f = p.f } };
}

/// Why there is no session of such numbers.
#[derive(Clone, Copy, Debug, PartialEq, Eq)]
pub enum ParamFault {
    /// There are no replicas, or more than 31.
    BadCount,
    /// There are fewer than 3f + 1 replicas.
    TooFewForFaults,
}

impl Params {
    /// The numbers of a session of n replicas, at most f of them faulty.
    ///
    /// `BadCount` is answered exactly where n is 0 or above 31, and `TooFewForFaults` exactly where n is in range
    /// and below 3f + 1.
    pub fn new(n: u8, f: u8) -> Result<Params, ParamFault>
        ensures ok { IfOk result (λ p. (p.n ≡ n) × (p.f ≡ f) × IsSession p) }
        ensures bad_count { (result ≡ Err ParamFault.BadCount) ↔ ((n ≡ 0) ⊎ (31 < n)) }
        ensures too_few { (result ≡ Err ParamFault.TooFewForFaults) ↔ ((1 ≤ n) × (n ≤ 31) × (n < 3 * f + 1)) }
    {
        if n == 0 || n > 31 {
            return Err(ParamFault::BadCount);
        }
        if f > 10 || n < 3 * f + 1 {
            return Err(ParamFault::TooFewForFaults);
        }
        Ok(Params { n, f })
    }

    /// How many replicas there are, 1 to 31.
    pub fn n(&self) -> u8
        ensures value { result ≡ self.now.n }
        ensures session { IsSession self.now }
    {
        self.n
    }

    /// How many of them may be faulty.
    pub fn f(&self) -> u8
        ensures value { result ≡ self.now.f }
        ensures session { IsSession self.now }
    {
        self.f
    }

    /// The echo quorum: floor((n + f) / 2) + 1.
    pub fn q(&self) -> u8
        ensures { result ≡ quorum_of self.now }
    {
        (self.n + self.f) / 2 + 1
    }

    /// READYs that make a value ready: f + 1.
    pub fn ready(&self) -> u8
        ensures { result ≡ ready_of self.now }
    {
        self.f + 1
    }

    /// READYs that deliver a value, and votes that decide a bit: 2f + 1.
    pub fn deliver(&self) -> u8
        ensures { result ≡ deliver_of self.now }
    {
        2 * self.f + 1
    }

    /// Messages that a step of a consensus waits for: n - f.
    pub fn wait(&self) -> u8
        ensures { result ≡ wait_of self.now }
    {
        self.n - self.f
    }

    /// Places that support a value of a multi-valued consensus: n - 2f.
    pub fn support(&self) -> u8
        ensures { result ≡ support_of self.now }
    {
        self.n - 2 * self.f
    }
}
