//! Calls on the depth.
ghost use Rattle.std.specs.Prelude.{ℕ, ◌≡◌, ◌≤◌, ◌<◌};
ghost use Rattle.queue_model.specs.State.{reserved_by};
ghost use Rattle.queue_model.specs.Table.{CanGive, most_bytes};
ghost use Rattle.acts_core.specs.Calls.{CallDepth, CallReserve, CallGiveBack, IsDepth, IsDone};
ghost use Rattle.acts_core.specs.Meaning.{Called};
ghost use Rattle.entry_table.specs.Passes.{allowance, state};
ghost use Rattle.entry_table.specs.Sights.{build_of, Serves, sight};

use acts_core::Freight;
use entry_table::{Entries, Pass};
use queue_model::{Depth, ENTRY_WORTH, WordName};

/// How full the queue is: one load of the depth word.
pub fn depth<C: Freight>(entries: &Entries<C>, pass: &mut Pass) -> Depth
    requires serves { Serves entries.now pass.old }
    ensures serves { Serves entries.now pass.new }
    ensures called { Called (build_of entries.now) (sight pass.old) (sight pass.new) CallDepth
        (IsDepth result) }
{
    let word = entries.look(pass, WordName::Depth);
    Depth {
        entries: word / ENTRY_WORTH,
        bytes: word % ENTRY_WORTH,
    }
}

/// Reserves an entry of this size in bytes, and answers the depth just before. The pass may reserve one less
/// then.
pub fn reserve<C: Freight>(entries: &Entries<C>, pass: &mut Pass, size: u64) -> Depth
    requires serves { Serves entries.now pass.old }
    requires size { size ≤ most_bytes }
    requires allowed { 0 < allowance pass.old }
    ensures serves { Serves entries.now pass.new }
    ensures called { Called (build_of entries.now) (sight pass.old) (sight pass.new)
        (CallReserve size) (IsDepth result) }
{
    entries.reserve_depth(pass, size)
}

/// Gives a reserved entry of this size in bytes back. The pass may reserve one more then.
pub fn give_back<C: Freight>(entries: &Entries<C>, pass: &mut Pass, size: u64)
    requires serves { Serves entries.now pass.old }
    requires reserved { CanGive (reserved_by (state pass.old) pass.old.caller) size }
    ensures serves { Serves entries.now pass.new }
    ensures called { Called (build_of entries.now) (sight pass.old) (sight pass.new)
        (CallGiveBack size) IsDone }
{
    entries.give_back(pass, size);
}
