//! The lines of a run.
ghost use Rattle.std.specs.Prelude.{◌≡◌, ◌++◌, ◌^◌, ◌<◌, length, codes, flat_map, sum_by};
ghost use Rattle.std.specs.List.{All};
ghost use Rattle.std.specs.Fmt.{decimal};
ghost use Rattle.outside_io.specs.Says.{Says};
ghost use Rattle.report_core.specs.Names.{IsHolder};
ghost use Rattle.report_core.specs.Texts.{answer_line, bytes_of, depth_text, holder_text, queue_line, queue_lines, resting_line, HasHolder};
ghost use Rattle.report_core.specs.Words.{words, Fits};

use crate::answers::{Answer, Dropped, Resting};
use crate::phrases::say_words;
use crate::pieces::{say_caller, say_then_number};
use byte_lists::Bytes;
use outside_io::{Failed, Sink, write_all};

/// Writes the front of an actor's line: its name and the line's number.
fn say_front<K: Sink>(out: &mut K, actor: &Bytes, line: u64) -> Result<(), Failed>
    ensures { Says result (K.written out.old) (K.written out.new)
        (K.faults out.old) (K.faults out.new) (actor.now ++ (codes " " ++ decimal line)) }
{
    write_all(out, actor.as_slice())?;
    say_then_number(out, b" ", line)
}

/// Writes an answer's words and the end of the line.
fn say_rest<K: Sink>(
    out: &mut K,
    queues: &[Bytes],
    actors: &[Bytes],
    drops: &[Dropped],
    answer: Answer,
) -> Result<(), Failed>
    requires { Fits queues.now actors.now drops.now answer }
    ensures { Says result (K.written out.old) (K.written out.new) (K.faults out.old) (K.faults out.new)
        (codes " " ++ (words queues.now actors.now drops.now answer ++ codes "\n")) }
{
    write_all(out, b" ")?;
    say_words(out, queues, actors, drops, answer)?;
    write_all(out, b"\n")
}

/// Writes what the line of this number answered its actor: `ACTOR LINE ANSWER` and a line feed. A state
/// is told with the name of its caller, caller 1 having the first of `actors`, and a drop with the name
/// of its queue, queue 0 having the first of `queues`. The drops that an answer speaks of are those at
/// its span's places in `drops`.
///
/// Asks for a name of each caller and of each queue that the answer speaks of. Takes no memory. Failed comes
/// only where the sink's count of faults rose; then some front of the line was written.
pub fn write_answer<K: Sink>(
    out: &mut K,
    actor: &Bytes,
    line: u64,
    answer: &Answer,
    drops: &[Dropped],
    queues: &[Bytes],
    actors: &[Bytes],
) -> Result<(), Failed>
    requires { Fits queues.now actors.now drops.now answer.now }
    ensures { Says result (K.written out.old) (K.written out.new) (K.faults out.old) (K.faults out.new)
        (answer_line actor.now line (words queues.now actors.now drops.now answer.now)) }
{
    say_front(out, actor, line)?;
    say_rest(out, queues, actors, drops, *answer)
}

/// Writes who had an entry, where somebody had it.
fn say_holder<K: Sink>(out: &mut K, actors: &[Bytes], holder: Option<u64>) -> Result<(), Failed>
    requires { IsHolder actors.now holder }
    ensures { Says result (K.written out.old) (K.written out.new)
        (K.faults out.old) (K.faults out.new) (holder_text actors.now holder) }
{
    match holder {
        Some(caller) => say_caller(out, b" held ", actors, caller),
        None => write_all(out, b""),
    }
}

/// Writes an entry that is left.
fn say_resting<K: Sink>(out: &mut K, actors: &[Bytes], entry: Resting) -> Result<(), Failed>
    requires { IsHolder actors.now entry.holder }
    ensures { Says result (K.written out.old) (K.written out.new)
        (K.faults out.old) (K.faults out.new) (resting_line actors.now entry) }
{
    say_then_number(out, b"entry ", entry.id)?;
    say_holder(out, actors, entry.holder)?;
    write_all(out, b"\n")
}

/// Writes the entries that are left, in order.
fn say_entries<K: Sink>(out: &mut K, actors: &[Bytes], entries: &[Resting]) -> Result<(), Failed>
    requires { All (HasHolder actors.now) entries.now }
    ensures { Says result (K.written out.old) (K.written out.new)
        (K.faults out.old) (K.faults out.new) (flat_map (resting_line actors.now) entries.now) }
{
    'entries: for entry in entries {
        say_resting(out, actors, *entry)?;
    }
    Ok(())
}

/// The bytes of these entries together.
fn sum_of(entries: &[Resting]) -> u64
    requires { bytes_of entries.now < 2 ^ 64 }
    ensures { result ≡ bytes_of entries.now }
{
    entries.iter().map(|entry| entry.size).sum()
}

/// Writes how many entries and bytes a queue has, and the end of the line.
fn say_depth<K: Sink>(out: &mut K, entries: u64, bytes: u64) -> Result<(), Failed>
    ensures { Says result (K.written out.old) (K.written out.new)
        (K.faults out.old) (K.faults out.new) (depth_text entries bytes) }
{
    say_then_number(out, b" ", entries)?;
    say_then_number(out, b" ", bytes)?;
    write_all(out, b"\n")
}

/// Writes a queue's name, and how many entries and bytes it has.
fn say_queue<K: Sink>(out: &mut K, name: &Bytes, entries: &[Resting]) -> Result<(), Failed>
    requires { bytes_of entries.now < 2 ^ 64 }
    ensures { Says result (K.written out.old) (K.written out.new)
        (K.faults out.old) (K.faults out.new) (queue_line name.now entries.now) }
{
    write_all(out, b"queue ")?;
    write_all(out, name.as_slice())?;
    say_depth(out, entries.len() as u64, sum_of(entries))
}

/// Writes what a queue holds: `queue NAME ENTRIES BYTES`, BYTES being the sizes of the entries together, and
/// under it `entry ID` for each entry in the order of the list, with ` held ACTOR` where somebody had it.
/// Caller 1 has the first of `actors`.
///
/// Asks for a name of each caller that had an entry. Takes no memory. Failed comes only where the sink's count of
/// faults rose; then some front of the text was written.
pub fn write_queue<K: Sink>(
    out: &mut K,
    name: &Bytes,
    entries: &[Resting],
    actors: &[Bytes],
) -> Result<(), Failed>
    requires named { All (HasHolder actors.now) entries.now }
    requires sizes { bytes_of entries.now < 2 ^ 64 }
    ensures { Says result (K.written out.old) (K.written out.new) (K.faults out.old) (K.faults out.new)
        (queue_lines actors.now name.now entries.now) }
{
    say_queue(out, name, entries)?;
    say_entries(out, actors, entries)
}
