//! Which queue a live entry is of.
ghost use Rattle.std.specs.Prelude.{◌≡◌, ◌<◌, ◌≤◌, IfSome, length};
ghost use Rattle.std.specs.List.{list_all};
ghost use Rattle.defs_read.specs.Allowed.{most_queues};
ghost use Rattle.defs_read.specs.Defined.{queues_in};
ghost use Rattle.resume_core.specs.Live.{has_queue, number_from};

use defs_read::Defs;
use recover_core::Kept;

/// The number of the queue of this name, in the order of definition.
pub(crate) fn number_of(defs: &Defs, name: &[u8]) -> Option<u32>
    requires few { length (queues_in defs.now) ≤ most_queues }
    ensures number { result ≡ number_from 0 name.now (queues_in defs.now) }
    ensures there { IfSome result (λ n. n < length (queues_in defs.now)) }
{
    let queues = defs.queues.as_slice();
    'queues: for at in 0..queues.len() {
        if queues[at].name.as_slice() == name {
            return Some(at as u32);
        }
    }
    None
}

/// Whether the queue of each of these live entries is defined.
pub(crate) fn are_defined(defs: &Defs, live: &[Kept]) -> bool
    requires few { length (queues_in defs.now) ≤ most_queues }
    ensures { result ≡ list_all (has_queue (queues_in defs.now)) live.now }
{
    'entries: for entry in live {
        if number_of(defs, entry.queue.as_slice()).is_none() {
            return false;
        }
    }
    true
}
