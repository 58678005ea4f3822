//! The messages of reliable broadcast, said to all or to one.

ghost use Rattle.std.specs.Prelude.{◌≡◌, ◌++◌, OnErr, OnOk, Some};
ghost use Rattle.ritas_base.specs.Messages.{to_all};
ghost use Rattle.reliable_bcast.specs.Digests.{to_one};

use ritas_base::{Bytes, Kind, Mem, Msg, Slot, To};
use std::alloc::Global;

/// Says a value to all.
pub(crate) fn say(slot: Slot, kind: Kind, value: Bytes, out: &mut Vec<Msg>) -> Result<(), Mem>
    ensures ok { OnOk result (out.new.items ≡ out.old.items ++ to_all slot kind (Some value)) }
    ensures err { OnErr result (out.new.items ≡ out.old.items) }
{
    out.push(Msg {
        to: To::All,
        kind,
        slot,
        value,
    })?;
    Ok(())
}

/// Says a digest to all.
pub(crate) fn say_digest(
    alloc: Global,
    slot: Slot,
    kind: Kind,
    digest: &[u8; 32],
    out: &mut Vec<Msg>,
) -> Result<(), Mem>
    ensures ok { OnOk result (out.new.items ≡ out.old.items ++ to_all slot kind (Some digest.now)) }
    ensures err { OnErr result (out.new.items ≡ out.old.items) }
{
    say(slot, kind, Bytes::from_slice(alloc, digest)?, out)
}

/// Says INIT.
pub(crate) fn say_init(
    alloc: Global,
    slot: Slot,
    value: &[u8],
    out: &mut Vec<Msg>,
) -> Result<(), Mem>
    ensures ok { OnOk result (out.new.items ≡ out.old.items ++ to_all slot Kind.Init (Some value.now)) }
    ensures err { OnErr result (out.new.items ≡ out.old.items) }
{
    say(slot, Kind::Init, Bytes::from_slice(alloc, value)?, out)
}

/// Says VALUE to one replica.
pub(crate) fn say_value(
    alloc: Global,
    slot: Slot,
    k: u8,
    value: &Bytes,
    out: &mut Vec<Msg>,
) -> Result<(), Mem>
    ensures ok { OnOk result (out.new.items ≡ out.old.items ++ to_one slot k (Some value.now)) }
    ensures err { OnErr result (out.new.items ≡ out.old.items) }
{
    out.push(Msg {
        to: To::One(k),
        kind: Kind::Value,
        slot,
        value: value.copy(alloc)?,
    })?;
    Ok(())
}
