//! Calls that take a row out of the queue.
ghost use Rattle.std.specs.Prelude.{◌≡◌, ℕ, [], ◌∷◌, ◌++◌};
ghost use Rattle.queue_model.specs.Packing.{pack_state};
ghost use Rattle.queue_model.specs.declared.rows.RowState.TheVariants.{Locked, Dequeued, Deleted};
ghost use Rattle.queue_model.specs.declared.steps.Change.TheVariants as changes;
ghost use Rattle.queue_model.specs.declared.steps.Step.TheVariants as steps;
ghost use Rattle.queue_model.specs.State.{IsIn};
ghost use Rattle.acts_core.specs.Asked.{HasDequeued};
ghost use Rattle.acts_core.specs.Calls.{CallDequeue, CallDelete, IsDone, IsFreed};
ghost use Rattle.acts_core.specs.Meaning.{Called};
ghost use Rattle.entry_table.specs.Passes.{Kept, seen, shown, state};
ghost use Rattle.entry_table.specs.Sights.{build_of, Serves, sight};
ghost use Rattle.entry_table.specs.Views.{entry};

use acts_core::Freight;
use entry_table::{Entries, Pass};
use queue_model::{DraftWord, WordName};

/// Takes a held row out of the queue, and gives its entry and bytes back. The pass may reserve one more then.
pub fn dequeue<C: Freight>(entries: &Entries<C>, pass: &mut Pass, row: u64)
    requires serves { Serves entries.now pass.old }
    requires holder { IsIn (state pass.old) row (Locked pass.old.caller) }
    ensures serves { Serves entries.now pass.new }
    ensures called { (size : ℕ) × Called (build_of entries.now) (sight pass.old) (sight pass.new)
        (CallDequeue row) (IsFreed size) }
{
    let word = DraftWord::Size;
    let size = entries.look(pass, WordName::Draft { row, word });
    entries.dequeue_row(pass, row);
    entries.give_back(pass, size);
}

/// Deletes a row that the caller dequeued, by one exchange of its state.
pub fn delete<C: Freight>(entries: &Entries<C>, pass: &mut Pass, row: u64)
    requires serves { Serves entries.now pass.old }
    requires dequeued { HasDequeued pass.old.caller row (seen pass.old) }
    ensures serves { Serves entries.now pass.new }
    ensures called { Called (build_of entries.now) (sight pass.old) (sight pass.new)
        (CallDelete row) IsDone }
    ensures kept { Kept pass.old pass.new }
    ensures shown { shown pass.new ≡ shown pass.old
        ++ entry (steps.State row changes.Del Dequeued) (pack_state Dequeued)
        (pack_state Deleted) (seen pass.new) ∷ [] }
{
    entries.delete_row(pass, row);
}
