//! The form of a file of records.

ghost use Rattle.std.specs.Prelude.{◌≡◌, ◌+◌, ◌<◌, ◌≤◌, ◌^◌, ◌↔◌, IsTrue};
ghost use Rattle.record_file.specs.Form.{IsForm, first_gate, width_of};

use std::marker::Model;

/// How many bytes the length of a record has. The most significant is first.
#[derive(Clone, Copy, Debug, PartialEq, Eq)]
pub enum LengthWidth {
    /// A record has fewer than 65,536 bytes.
    Two,
    /// A record has fewer than 4,294,967,296 bytes.
    Four,
}

impl LengthWidth {
    /// How many bytes these are.
    pub fn bytes(self) -> usize
        ensures { result ≡ width_of self }
    {
        match self {
            LengthWidth::Two => 2,
            LengthWidth::Four => 4,
        }
    }
}

/// The form of a file of records: how many bytes a length has, how many the head has, and how many
/// the file may have.
#[derive(Clone, Copy, Debug)]
pub struct RecordForm {
    width: LengthWidth,
    head_length: u8,
    limit: u64,
}

impl Model for RecordForm {
    ghost use Rattle.record_file.specs.Form.{Form, IsForm};

    ghost Value = { Form };

    ghost view = { λ f. record { width = f.width; head_length = f.head_length; limit = f.limit } };

    ghost invariant = { λ f. IsForm
        (record { width = f.width; head_length = f.head_length; limit = f.limit }) };

    ghost inverse = { λ f. record {
      width = f.width;
      head_length = f.head_length;
      limit = f.limit;
    } };
}

impl RecordForm {
    /// The form of files whose head has so many bytes, and which have at most `limit` bytes. There is room for a head and
    /// a gate, and a file has at most 4 GiB.
    pub fn new(width: LengthWidth, head_length: u8, limit: u64) -> RecordForm
        requires room { head_length + 2 ≤ limit }
        requires low { limit ≤ 2 ^ 32 }
        ensures { result ≡ record { width = width; head_length = head_length; limit = limit } }
    {
        RecordForm {
            width,
            head_length,
            limit,
        }
    }

    /// How many bytes the length of a record has.
    pub fn width(&self) -> LengthWidth
        ensures value { result ≡ self.now.width }
        ensures form { IsForm self.now }
    {
        self.width
    }

    /// How many bytes the head has.
    pub fn head_length(&self) -> u8
        ensures value { result ≡ self.now.head_length }
        ensures form { IsForm self.now }
    {
        self.head_length
    }

    /// How many bytes a file may have.
    pub fn limit(&self) -> u64
        ensures value { result ≡ self.now.limit }
        ensures form { IsForm self.now }
    {
        self.limit
    }

    /// Whether so many bytes may be a record: their number fits its field.
    pub fn takes(&self, size: u64) -> bool
        ensures { IsTrue result ↔ (size < 256 ^ width_of self.now.width) }
    {
        match self.width {
            LengthWidth::Two => size < 65_536,
            LengthWidth::Four => size < 4_294_967_296,
        }
    }

    /// The offset of the first gate.
    pub fn first_gate(&self) -> usize
        ensures value { result ≡ first_gate self.now }
        ensures form { IsForm self.now }
    {
        self.head_length as usize + 1
    }
}
