//! The keys of a last-value queue that were met.
ghost use Rattle.std.specs.Prelude.{◌≡◌, ◌∷◌, ◌||◌, List, ℕ, Some, Vec, IfOk, OnOk};
ghost use Rattle.std.specs.declared.alloc.Global.{Global};
ghost use Rattle.std.specs.Str.{bytes_eq};
ghost use Rattle.defs_read.specs.Slips.{key_of};
ghost use Rattle.defs_read.specs.declared.defs.QueueKind.TheVariants.{LastValue};
ghost use Rattle.recover_core.specs.declared.kept.Kept.{Kept};
ghost use Rattle.resume_core.specs.Keeping.{gives_way, has_key};
ghost use Rattle.resume_core.specs.Steps.{HasTexts, has_text};

use byte_lists::{Bytes, NoMemory};
use defs_read::QueueKind;
use std::alloc::Global;
use std::collections::BTreeSet;

/// Adds a copy of the text, and tells whether it was there.
fn add_text(alloc: Global, text: &Bytes, texts: &mut BTreeSet<Vec<u8>>) -> Result<bool, NoMemory>
    ensures met { (name : List ℕ) (ks : List Kept) → HasTexts (LastValue name) ks texts.old
        → IfOk result (λ met. met ≡ has_key (LastValue name) (Some text.now) ks) }
    ensures added { OnOk result ((other : Vec ℕ Global)
        → has_text texts.new other.items
        ≡ (bytes_eq other.items text.now || has_text texts.old other.items)) }
{
    let copy = Bytes::of(alloc, text.as_slice())?;
    match texts.insert(copy.into_vec()) {
        Ok(new) => Ok(!new),
        Err(_) => Err(NoMemory),
    }
}

/// Whether an entry with this key gives way to one whose key was met, in a queue of this kind. Its key is met then, where
/// the queue goes by it.
pub(crate) fn meet_key(
    alloc: Global,
    kind: &QueueKind,
    key: &Option<Bytes>,
    texts: &mut BTreeSet<Vec<u8>>,
) -> Result<bool, NoMemory>
    ensures gives_way { (ks : List Kept) → HasTexts kind.now ks texts.old
        → IfOk result (λ gives. gives ≡ gives_way kind.now key.now ks) }
    ensures met { (ks : List Kept) (k : Kept) → key_of kind.now k.message ≡ key.now
        → HasTexts kind.now ks texts.old → OnOk result (HasTexts kind.now (k ∷ ks) texts.new) }
{
    match kind {
        QueueKind::LastValue(_) => match key {
            Some(text) => add_text(alloc, text, texts),
            None => Ok(false),
        },
        QueueKind::Standard | QueueKind::Priority(_) | QueueKind::Sorted(_) => Ok(false),
    }
}
