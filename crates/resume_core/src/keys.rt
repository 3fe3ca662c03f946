//! The queue and the id of each live entry, by numbers.
ghost use Rattle.std.specs.Prelude.{◌≡◌, ◌≤◌, [], false, true, IfOk, MatchOption, length};
ghost use Rattle.std.specs.List.{list_all};
ghost use Rattle.defs_read.specs.Allowed.{most_queues};
ghost use Rattle.defs_read.specs.Defined.{queues_in};
ghost use Rattle.resume_core.specs.Faults.{has_double};
ghost use Rattle.resume_core.specs.Live.{has_queue};
ghost use Rattle.resume_core.specs.Steps.{HasKeys};

use crate::numbers::number_of;
use byte_lists::NoMemory;
use defs_read::Defs;
use recover_core::Kept;
use std::alloc::Global;
use std::collections::BTreeSet;

/// The number of the queue and the id of each live entry; none where two are the same.
pub(crate) fn live_keys(
    alloc: Global,
    defs: &Defs,
    live: &[Kept],
) -> Result<Option<BTreeSet<(u32, u64)>>, NoMemory>
    requires few { length (queues_in defs.now) ≤ most_queues }
    requires defined { list_all (has_queue (queues_in defs.now)) live.now ≡ true }
    ensures { IfOk result (λ keys. MatchOption keys
        (has_double [] live.now ≡ true)
        (λ keys. (has_double [] live.now ≡ false)
        × HasKeys (queues_in defs.now) live.now keys)) }
{
    let mut keys = BTreeSet::new(alloc);
    'entries: for entry in live {
        let Some(queue) = number_of(defs, entry.queue.as_slice()) else {
            unreachable!();
        };
        match keys.insert((queue, entry.message.id())) {
            Ok(true) => {}
            Ok(false) => return Ok(None),
            Err(_) => return Err(NoMemory),
        }
    }
    Ok(Some(keys))
}
