//! The law of texts: what is written of an epoch is read as it was.

ghost use Rattle.chain_file.specs.Laws.{EpochIsRead, TextIsOfOne};

/// The law of texts: the text of an epoch, which `write_epoch` writes, is read as this epoch and as no other. No two
/// epochs have one text.
///
/// It does nothing: its contract is the law.
pub fn epochs_are_read()
    ensures read { EpochIsRead }
    ensures one { TextIsOfOne }
{}
