//! The keys of entries that are gone.
ghost use Rattle.std.specs.Prelude.{◌≡◌, ◌||◌, OnOk};
ghost use Rattle.recover_core.specs.declared.keys.Key.{Key};
ghost use Rattle.recover_core.specs.Passed.{has, is_same};

use byte_lists::NoMemory;
use std::collections::BTreeSet;

/// An entry's id and the name of its queue. Keys are moved, never copied, and their ids are compared first.
#[derive(Debug, PartialEq, Eq, PartialOrd, Ord, Drop)]
pub(crate) struct Key {
    pub(crate) id: u64,
    pub(crate) queue: Vec<u8>,
}

/// Adds a key.
pub(crate) fn add(gone: &mut BTreeSet<Key>, key: Key) -> Result<(), NoMemory>
    ensures { OnOk result ((k : Key) → has gone.new k ≡ (is_same key k || has gone.old k)) }
{
    match gone.insert(key) {
        Ok(_) => Ok(()),
        Err(_) => Err(NoMemory),
    }
}

/// Whether the key was added.
pub(crate) fn is_in(gone: &BTreeSet<Key>, key: &Key) -> bool
    ensures { result ≡ has gone.now key.now }
{
    gone.contains(key)
}
