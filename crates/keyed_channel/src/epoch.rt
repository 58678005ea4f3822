//! Keys of epochs, made from those of the session.

ghost use Rattle.std.specs.Prelude.{◌≡◌};
ghost use Rattle.keyed_channel.specs.Epochs.{epoch_key};

use crate::tags::{finished, inner, outer};
use sha2::Digest;

// The first byte of what is tagged for the key of an epoch.
const EPOCH: u8 = 0x58;

// The key of an epoch, for one of the session.
pub(crate) fn epoch_key(key: &[u8; 32], session: u64, epoch: u64) -> [u8; 32]
    ensures { result ≡ epoch_key session epoch key.now }
{
    if epoch == 0 {
        return *key;
    }
    let text = inner(key)
        .chain_update([EPOCH])
        .chain_update(session.to_be_bytes())
        .chain_update(epoch.to_be_bytes());
    finished(text, outer(key))
}
