//! The commands that wait for their row.
ghost use Rattle.std.specs.Prelude.{◌≡◌, ◌==◌, ◌&&◌, ℕ, List, None, false, OnOk, OnErr, if◌then◌else◌};
ghost use Rattle.std.specs.Str.{bytes_eq};
ghost use Rattle.command_log.specs.Standing.{origins_in, origins_at, payloads_at};

use crate::origins::OriginSet;
use ritas_base::Mem;
use std::alloc::Global;
use std::collections::BTreeMap;

/// For each client and request, by their key, the payloads of their commands with the origins of each.
#[derive(Drop)]
pub(crate) struct Waiting {
    by_key: BTreeMap<u64, BTreeMap<Vec<u8>, OriginSet>>,
}

// The origins of the command with this payload.
fn origins_in(payloads: &BTreeMap<Vec<u8>, OriginSet>, payload: &[u8]) -> OriginSet
    ensures { result ≡ origins_in payloads.now payload.now }
{
    match payloads.get(payload) {
        Some(origins) => *origins,
        None => OriginSet::empty(),
    }
}

// The command with this payload has these origins. The one error is want of memory.
fn put(
    alloc: Global,
    payloads: &mut BTreeMap<Vec<u8>, OriginSet>,
    payload: &[u8],
    origins: OriginSet,
) -> Result<(), Mem>
    ensures ok { OnOk result ((v : List ℕ) → origins_in payloads.new v ≡ (if bytes_eq payload.now v then origins else origins_in payloads.old v)) }
    ensures err { OnErr result ((v : List ℕ) → origins_in payloads.new v ≡ origins_in payloads.old v) }
{
    payloads.insert(Vec::from_slice(alloc, payload)?, origins)?;
    Ok(())
}

impl Waiting {
    /// Nothing waits. It takes no memory.
    pub(crate) fn new(alloc: Global) -> Waiting
        ensures { (key : ℕ) → payloads_at result key ≡ None }
    {
        Waiting {
            by_key: BTreeMap::new(alloc),
        }
    }

    /// The origins of the command with this key and payload, of which there may be none.
    pub(crate) fn origins(&self, key: u64, payload: &[u8]) -> OriginSet
        ensures { result ≡ origins_at self.now key payload.now }
    {
        match self.by_key.get(&key) {
            Some(payloads) => origins_in(payloads, payload),
            None => OriginSet::empty(),
        }
    }

    /// The command with this key and payload has these origins. The one error is want of memory, after which all is as it
    /// was.
    pub(crate) fn keep(
        &mut self,
        alloc: Global,
        key: u64,
        payload: &[u8],
        origins: OriginSet,
    ) -> Result<(), Mem>
        ensures ok { OnOk result ((k : ℕ) (v : List ℕ) → origins_at self.new k v ≡ (if key == k && bytes_eq payload.now v then origins else origins_at self.old k v)) }
        ensures err { OnErr result ((k : ℕ) (v : List ℕ) → origins_at self.new k v ≡ origins_at self.old k v) }
        ensures others { (k : ℕ) → (key == k) ≡ false → payloads_at self.new k ≡ payloads_at self.old k }
    {
        match self.by_key.get_mut(&key) {
            Some(payloads) => put(alloc, payloads, payload, origins)?,
            None => {
                let mut payloads = BTreeMap::new(alloc);
                put(alloc, &mut payloads, payload, origins)?;
                self.by_key.insert(key, payloads)?;
            }
        }
        Ok(())
    }

    /// The commands with this key are let go of.
    pub(crate) fn remove(&mut self, key: u64)
        ensures { (k : ℕ) → payloads_at self.new k ≡ (if key == k then None else payloads_at self.old k) }
    {
        self.by_key.remove(&key);
    }
}
