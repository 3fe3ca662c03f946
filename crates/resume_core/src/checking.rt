//! Checks a journal's live entries against a script.
ghost use Rattle.std.specs.Prelude.{◌≡◌, ◌≤◌, IfOk, length};
ghost use Rattle.defs_read.specs.Allowed.{most_queues};
ghost use Rattle.defs_read.specs.Defined.{queues_in};
ghost use Rattle.script_read.specs.Allowed.{all_ops};
ghost use Rattle.script_read.specs.Phases.{phases_in};
ghost use Rattle.resume_core.specs.Faults.{fault_at, fault_of, put_fault};

use crate::doubles::doubling_line;
use crate::faults::{LiveCause, LiveFault};
use crate::keys::live_keys;
use crate::numbers::are_defined;
use crate::puts::passing_line;
use byte_lists::NoMemory;
use defs_read::Defs;
use queue_model::MOST_ENTRIES;
use recover_core::Kept;
use script_read::Script;
use std::alloc::Global;

/// This cause at this line.
fn fault_at(line: u64, cause: LiveCause) -> LiveFault
    ensures { result ≡ fault_at line cause }
{
    LiveFault { line, cause }
}

/// The first cause at puts, by the line with which there are too many and the first that puts what is live.
fn put_fault(passing: Option<u64>, doubling: Option<u64>) -> Option<LiveFault>
    ensures { result ≡ put_fault passing doubling }
{
    match (passing, doubling) {
        (None, None) => None,
        (None, Some(line)) => Some(fault_at(line, LiveCause::DoubleId)),
        (Some(line), None) => Some(fault_at(line, LiveCause::TooManyEntries)),
        (Some(many), Some(double)) => Some(if many <= double {
            fault_at(many, LiveCause::TooManyEntries)
        } else {
            fault_at(double, LiveCause::DoubleId)
        }),
    }
}

/// The first line at which a script and a journal's live entries don't go together, with its cause; none where they do.
/// At line 1 come, in this order, a live entry whose queue isn't defined, two of one queue and id, and more than 524,288
/// live entries. Then come the put that makes live entries and puts more than 524,288, and the first put whose queue and
/// id are live, in the order of their lines; at one line the former. Refuses only for want of memory.
pub fn check_live(
    alloc: Global,
    defs: &Defs,
    live: &[Kept],
    script: &Script,
) -> Result<Option<LiveFault>, NoMemory>
    requires few { length (queues_in defs.now) ≤ most_queues }
    ensures first { IfOk result (λ fault. fault
        ≡ fault_of (queues_in defs.now) live.now (all_ops (phases_in script.now))) }
{
    if !are_defined(defs, live) {
        return Ok(Some(fault_at(1, LiveCause::JournalQueue)));
    }
    let Some(keys) = live_keys(alloc, defs, live)? else {
        return Ok(Some(fault_at(1, LiveCause::DoubleLive)));
    };
    if live.len() as u64 > MOST_ENTRIES {
        return Ok(Some(fault_at(1, LiveCause::TooManyEntries)));
    }
    let passing = passing_line(alloc, live.len() as u64, script)?;
    Ok(put_fault(passing, doubling_line(&keys, script)))
}
