//! Writing the text of records, which is then appended to a file.

ghost use Rattle.std.specs.Prelude.{◌≡◌, ◌<◌, ◌^◌, length, IsErr};
ghost use Rattle.outside.specs.Writing.{Writes};
ghost use Rattle.record_file.specs.Form.{width_of};
ghost use Rattle.record_file.specs.Records.{IsRecord, front_text, record_text};

use crate::form::{LengthWidth, RecordForm};
use outside::{Failed, Sink, write_all};

/// Writes an open gate and the length of a record, of which so many bytes are to follow. Behind the last record of a text
/// there is to be a closed gate, 0.
pub fn write_front<K: Sink>(sink: &mut K, form: &RecordForm, size: u32) -> Result<(), Failed>
    requires { size < 256 ^ width_of form.now.width }
    ensures { Writes (front_text form.now size) K.tells (K.taken sink.old) (K.taken sink.new)
        (K.faults sink.old) (K.faults sink.new) result (IsErr result) }
{
    match form.width() {
        LengthWidth::Two => {
            let [high, low] = (size as u16).to_be_bytes();
            write_all(sink, &[1, high, low])
        }
        LengthWidth::Four => {
            let [s3, s2, s1, s0] = size.to_be_bytes();
            write_all(sink, &[1, s3, s2, s1, s0])
        }
    }
}

/// Writes a record, with an open gate in front.
pub fn write_record<K: Sink>(sink: &mut K, form: &RecordForm, bytes: &[u8]) -> Result<(), Failed>
    requires { IsRecord form.now bytes.now }
    ensures { Writes (record_text form.now bytes.now) K.tells (K.taken sink.old) (K.taken sink.new)
        (K.faults sink.old) (K.faults sink.new) result (IsErr result) }
{
    write_front(sink, form, bytes.len() as u32)?;
    write_all(sink, bytes)
}
