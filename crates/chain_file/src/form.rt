//! The form of a chain file.

ghost use Rattle.std.specs.Prelude.{◌≡◌, ◌^◌};
ghost use Rattle.record_file.specs.declared.form.LengthWidth.TheVariants.{Four};

use record_file::{LengthWidth, RecordForm};

// So many bytes has the head of a chain file.
const HEAD_LENGTH: u8 = 51;

// So many bytes may a chain file have, as many as any file of records.
const LIMIT: u64 = 4_294_967_296;

/// The form of a chain file: a length has four bytes, the head has 51, and the file has at most 4,294,967,296.
pub fn chain_form() -> RecordForm
    ensures { result ≡ record { width = Four; head_length = 51; limit = 2 ^ 32 } }
{
    RecordForm::new(LengthWidth::Four, HEAD_LENGTH, LIMIT)
}
