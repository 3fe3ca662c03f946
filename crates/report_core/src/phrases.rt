//! What a line answers, in words.
ghost use Rattle.std.specs.Prelude.{◌++◌, codes};
ghost use Rattle.std.specs.Fmt.{decimal};
ghost use Rattle.outside_io.specs.Says.{Says};
ghost use Rattle.report_core.specs.Words.{said_if, span_text, words, Fits, IsSpan};

use crate::answers::{Answer, Dropped, Span};
use crate::pieces::{say_number_and, say_span, say_then_number, say_then_state, say_two_numbers};
use byte_lists::Bytes;
use outside_io::{Failed, Sink, write_all};

/// Writes the words of a put that was done.
fn say_accepted<K: Sink>(
    out: &mut K,
    id: u64,
    flowed: bool,
    queues: &[Bytes],
    drops: &[Dropped],
    acquired: Span,
) -> Result<(), Failed>
    requires { IsSpan queues.now drops.now acquired }
    ensures { Says result (K.written out.old) (K.written out.new)
        (K.faults out.old) (K.faults out.new)
        (codes "ok " ++ (decimal id ++ (said_if flowed (codes " flowed") ++ span_text queues.now drops.now acquired))) }
{
    say_number_and(out, b"ok ", id, flowed, b" flowed")?;
    say_span(out, queues, drops, acquired)
}

/// Writes the words of a commit that was done.
fn say_committed<K: Sink>(
    out: &mut K,
    queues: &[Bytes],
    drops: &[Dropped],
    acquired: Span,
) -> Result<(), Failed>
    requires { IsSpan queues.now drops.now acquired }
    ensures { Says result (K.written out.old) (K.written out.new)
        (K.faults out.old) (K.faults out.new)
        (codes "committed" ++ span_text queues.now drops.now acquired) }
{
    write_all(out, b"committed")?;
    say_span(out, queues, drops, acquired)
}

/// Writes an answer's words.
pub(crate) fn say_words<K: Sink>(
    out: &mut K,
    queues: &[Bytes],
    actors: &[Bytes],
    drops: &[Dropped],
    answer: Answer,
) -> Result<(), Failed>
    requires { Fits queues.now actors.now drops.now answer }
    ensures { Says result (K.written out.old) (K.written out.new)
        (K.faults out.old) (K.faults out.new) (words queues.now actors.now drops.now answer) }
{
    match answer {
        Answer::Accepted {
            id,
            flowed,
            acquired,
        } => { say_accepted(out, id, flowed, queues, drops, acquired) }
        Answer::Staged { id, flowed } => say_number_and(out, b"staged ", id, flowed, b" flowed"),
        Answer::Rejected { depth } => say_two_numbers(
            out,
            b"rejected ",
            depth.entries,
            depth.bytes,
        ),
        Answer::Blocked { depth } => say_two_numbers(out, b"blocked ", depth.entries, depth.bytes),
        Answer::Failed => write_all(out, b"failed"),
        Answer::TooLong => write_all(out, b"too-long"),
        Answer::Got { id, number } => say_two_numbers(out, b"got ", id, number as u64),
        Answer::Empty => write_all(out, b"empty"),
        Answer::NoCredit => write_all(out, b"no-credit"),
        Answer::Closed => write_all(out, b"closed"),
        Answer::FailedId { id, held } => say_number_and(out, b"failed ", id, held, b" held"),
        Answer::Acked { id } => say_then_number(out, b"acked ", id),
        Answer::NotHeld => write_all(out, b"not-held"),
        Answer::Stolen { state } => say_then_state(out, b"stolen ", actors, state),
        Answer::Released { id } => say_then_number(out, b"released ", id),
        Answer::Outdated { id } => say_then_number(out, b"outdated ", id),
        Answer::Unlocked { id } => say_then_number(out, b"unlocked ", id),
        Answer::Locked { id } => say_then_number(out, b"locked ", id),
        Answer::Stole { id } => say_then_number(out, b"stole ", id),
        Answer::NotStealable { state } => say_then_state(out, b"not-stealable ", actors, state),
        Answer::Moved { state } => say_then_state(out, b"moved ", actors, state),
        Answer::Absent => write_all(out, b"absent"),
        Answer::Begun => write_all(out, b"begun"),
        Answer::Already => write_all(out, b"already"),
        Answer::Committed { acquired } => say_committed(out, queues, drops, acquired),
        Answer::NoTransaction => write_all(out, b"no-transaction"),
        Answer::RolledBack => write_all(out, b"rolled-back"),
    }
}
