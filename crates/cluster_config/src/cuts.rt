//! A text is cut where a byte comes first.
ghost use Rattle.std.specs.Prelude.{◌≡◌, option_map};
ghost use Rattle.cluster_config.specs.Cuts.{cut_at, place_of_byte};

// Where a byte comes first.
fn place_of(text: &[u8], byte: u8) -> Option<usize>
    ensures { result ≡ place_of_byte byte text.now }
{
    text.iter().position(|b| *b == byte)
}

/// What stands before the first such byte, and what stands behind it.
pub(crate) fn cut_at(text: &[u8], byte: u8) -> Option<(&[u8], &[u8])>
    ensures { option_map (λ parts. (parts.0.now, parts.1.now)) result ≡ cut_at byte text.now }
{
    let place = place_of(text, byte)?;
    Some((&text[..place], &text[place + 1..]))
}
