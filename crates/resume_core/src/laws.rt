//! Laws on live entries and what queues open with. No program needs to call them: each has its law as its contract.
ghost use Rattle.resume_core.specs.Laws.{EntriesStand, FewEntries, IdsOnce, KeysOnce, NoneIsLost, RecoveredLoad};
ghost use Rattle.resume_core.specs.Laws.{ResumesWithoutCause};
ghost use Rattle.resume_core.specs.Living.{LiveGoesOn};

/// Where there is no cause, and a script puts no id twice to a queue, it may go on from the live entries.
pub fn resumes_without_cause()
    ensures { ResumesWithoutCause }
{}

/// Then no id is twice in a queue, among the entries with which it opens and what is put there.
pub fn ids_once()
    ensures { IdsOnce }
{}

/// And each queue has room for the entries with which it opens and for all that the script puts.
pub fn few_entries()
    ensures { FewEntries }
{}

/// Each entry may stand in the queue that opens with it.
pub fn entries_stand()
    ensures { EntriesStand }
{}

/// No key is twice in a last-value queue.
pub fn keys_once()
    ensures { KeysOnce }
{}

/// Each live entry of a queue stays or gives way.
pub fn none_is_lost()
    ensures { NoneIsLost }
{}

/// What a recovered entry is as a cargo.
pub fn recovered_load()
    ensures { RecoveredLoad }
{}

/// Behind more transactions those entries are live that were and that these don't tell gone, and then those that these leave.
pub fn live_goes_on()
    ensures { LiveGoesOn }
{}
