//! Numbers of four bytes, the most significant first.

ghost use Rattle.std.specs.Prelude.{◌≡◌, ◌+◌, ◌≤◌, length};
ghost use Rattle.client_port.specs.Messages.{four_bytes_at};

/// The number in the four bytes from a place on, the most significant first.
#[tactic(auto, unfolding(crate::specs::Messages::four_bytes_at))]
pub fn number_at(bytes: &[u8], at: usize) -> u32
    requires { at + 4 ≤ length bytes.now }
    ensures { result ≡ four_bytes_at at bytes.now }
{
    u32::from_be_bytes([bytes[at], bytes[at + 1], bytes[at + 2], bytes[at + 3]])
}
