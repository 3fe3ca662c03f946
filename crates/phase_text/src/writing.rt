//! Writes the text of a phase.
ghost use Rattle.std.specs.Prelude.{flat_map};
ghost use Rattle.std.specs.List.{All};
ghost use Rattle.outside_io.specs.Says.{Says};
ghost use Rattle.phase_text.specs.Logs.{line_text, log_text, phase_text, rest_text, FitsLine, FitsLog, FitsRest};

use crate::logs::{Log, Rest};
use byte_lists::Bytes;
use outside_io::{Failed, Sink};
use report_core::{Answer, Dropped, write_answer, write_queue};

/// Writes the lines of an actor with their answers, in order.
fn write_lines<K: Sink>(
    out: &mut K,
    name: &Bytes,
    lines: &[(u64, Answer)],
    drops: &[Dropped],
    queues: &[Bytes],
    actors: &[Bytes],
) -> Result<(), Failed>
    requires { All (FitsLine queues.now actors.now drops.now) lines.now }
    ensures { Says result (K.written out.old) (K.written out.new) (K.faults out.old) (K.faults out.new)
        (flat_map (line_text queues.now actors.now drops.now name.now) lines.now) }
{
    'lines: for line in lines {
        write_answer(out, name, line.0, &line.1, drops, queues, actors)?;
    }
    Ok(())
}

/// Writes the lines of one actor.
fn write_log<K: Sink>(
    out: &mut K,
    log: &Log,
    queues: &[Bytes],
    actors: &[Bytes],
) -> Result<(), Failed>
    requires { FitsLog queues.now actors.now log.now }
    ensures { Says result (K.written out.old) (K.written out.new) (K.faults out.old) (K.faults out.new)
        (log_text queues.now actors.now log.now) }
{
    write_lines(out, &log.name, &log.lines, &log.drops, queues, actors)
}

/// Writes the lines of all actors, in the order of the logs.
fn write_logs<K: Sink>(
    out: &mut K,
    logs: &[Log],
    queues: &[Bytes],
    actors: &[Bytes],
) -> Result<(), Failed>
    requires { All (FitsLog queues.now actors.now) logs.now }
    ensures { Says result (K.written out.old) (K.written out.new) (K.faults out.old) (K.faults out.new)
        (flat_map (log_text queues.now actors.now) logs.now) }
{
    'logs: for log in logs {
        write_log(out, log, queues, actors)?;
    }
    Ok(())
}

/// Writes what one queue holds.
fn write_rest<K: Sink>(out: &mut K, rest: &Rest, actors: &[Bytes]) -> Result<(), Failed>
    requires { FitsRest actors.now rest.now }
    ensures { Says result (K.written out.old) (K.written out.new) (K.faults out.old) (K.faults out.new)
        (rest_text actors.now rest.now) }
{
    write_queue(out, &rest.name, &rest.entries, actors)
}

/// Writes what each queue holds, in the order of the rests.
fn write_rests<K: Sink>(out: &mut K, rests: &[Rest], actors: &[Bytes]) -> Result<(), Failed>
    requires { All (FitsRest actors.now) rests.now }
    ensures { Says result (K.written out.old) (K.written out.new) (K.faults out.old) (K.faults out.new)
        (flat_map (rest_text actors.now) rests.now) }
{
    'rests: for rest in rests {
        write_rest(out, rest, actors)?;
    }
    Ok(())
}

/// Writes the text of a phase: for each actor, in the order of the logs, each of its lines with its answer, and then
/// each queue, in the order of the rests, with its entries. Caller 1 has the first of `actors`, and queue 0 the first of
/// `queues`. The entries that an answer names as dropped are those at its places among the log's drops.
///
/// Asks for a name of each caller and of each queue that these speak of, and for logs with all drops that their answers
/// name. Takes no memory.
/// Failed comes only where the sink's count of faults rose; then some front of the text was written.
pub fn write_phase<K: Sink>(
    out: &mut K,
    logs: &[Log],
    rests: &[Rest],
    queues: &[Bytes],
    actors: &[Bytes],
) -> Result<(), Failed>
    requires logs { All (FitsLog queues.now actors.now) logs.now }
    requires rests { All (FitsRest actors.now) rests.now }
    ensures { Says result (K.written out.old) (K.written out.new) (K.faults out.old) (K.faults out.new)
        (phase_text queues.now actors.now logs.now rests.now) }
{
    write_logs(out, logs, queues, actors)?;
    write_rests(out, rests, actors)
}
