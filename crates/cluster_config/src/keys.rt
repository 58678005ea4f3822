//! The configuration of keys that are to be dealt.
ghost use Rattle.std.specs.Prelude.{◌≡◌, ◌<◌, Ok, Err, MatchResult};
ghost use Rattle.cluster_config.specs.Lines.{GivesLine};
ghost use Rattle.cluster_config.specs.Columns.{read_by, read_text};
ghost use Rattle.cluster_config.specs.Keys.{keys_column};

use crate::lines::{Lines, WrongLine};
use ritas_base::Params;

/// The keys that are to be dealt.
#[derive(Clone, Copy, Debug)]
pub struct KeysConfig {
    /// The session's number.
    pub session: u64,
    /// How many replicas there are, and how many of them may be faulty.
    pub p: Params,
    /// The key from which all others are dealt.
    pub master: [u8; 32],
}

// The lines of keys that are to be dealt, to the end of the text.
#[tactic(auto, using(crate::proofs::Parts::read_session, crate::proofs::Parts::read_numbers), unfolding(crate::specs::Columns::read_by, crate::specs::Keys::keys_column))]
fn keys_lines(lines: &mut Lines<'_>) -> Result<KeysConfig, WrongLine>
    requires { lines.old.number < 4294967000 }
    ensures { GivesLine (λ keys. keys) result lines.new (read_by keys_column lines.old) }
{
    let (_, session) = lines.session()?;
    let p = lines.numbers()?;
    let master = lines.key("master")?;
    lines.end()?;
    Ok(KeysConfig { session, p, master })
}

/// The keys that a text says, or its first line that is wrong or missing.
#[tactic(auto, unfolding(crate::specs::Columns::read_text))]
pub(crate) fn read_keys(text: &[u8]) -> Result<KeysConfig, WrongLine>
    ensures { MatchResult result (λ keys. read_text keys_column text.now ≡ Ok keys) (λ wrong. read_text keys_column text.now ≡ Err wrong.line) }
{
    keys_lines(&mut Lines::new(text))
}
