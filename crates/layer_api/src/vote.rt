//! Values of one byte as votes.

ghost use Rattle.std.specs.Prelude.{◌≡◌, ℕ, [], ◌∷◌};

/// The vote that a value of one byte is; 0 where the value has no byte.
pub fn vote_of(value: &[u8]) -> u8
    ensures vote { (vote : ℕ) → value.now ≡ vote ∷ [] → result ≡ vote }
    ensures none { value.now ≡ [] → result ≡ 0 }
{
    value.first().copied().unwrap_or(0)
}
