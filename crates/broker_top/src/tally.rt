//! Counts what the lines of phases answered.
ghost use Rattle.std.specs.Prelude.{◌≡◌, ◌≤◌, ◌∷◌, ℕ, [], flat_map, length};
ghost use Rattle.queue_model.specs.Table.{most_entries};
ghost use Rattle.defs_read.specs.Allowed.{most_queues};
ghost use Rattle.phase_queues.specs.Left.{many_left, rows_left};
ghost use Rattle.broker_top.specs.Summary.{HasRoom, counted, entries_in, nothing_counted, plus};

use acts_core::RestEntry;
use phase_text::Log;
use report_core::Answer;
use txn_core::Parcel;

/// How many lines put a message, got one and acknowledged one.
#[derive(Clone, Copy, Debug, PartialEq, Eq)]
pub(crate) struct Tally {
    pub(crate) put: u64,
    pub(crate) got: u64,
    pub(crate) acked: u64,
}

/// A tally of no lines.
pub(crate) fn nothing_counted() -> Tally
    ensures { result ≡ nothing_counted }
{
    Tally {
        put: 0,
        got: 0,
        acked: 0,
    }
}

/// Counts a line.
fn add_line(line: &(u64, Answer), tally: &mut Tally)
    requires { HasRoom tally.old 1 }
    ensures { tally.new ≡ plus tally.old (counted (line.now ∷ [])) }
{
    match line.1 {
        Answer::Accepted { .. } => tally.put += 1,
        Answer::Got { .. } => tally.got += 1,
        Answer::Acked { .. } => tally.acked += 1,
        _ => {}
    }
}

/// Counts the lines of an actor.
fn add_lines(lines: &[(u64, Answer)], tally: &mut Tally)
    requires { HasRoom tally.old (length lines.now) }
    ensures { tally.new ≡ plus tally.old (counted lines.now) }
{
    'lines: for line in lines {
        add_line(line, tally);
    }
}

/// Counts the lines of all actors.
pub(crate) fn add_logs(logs: &[Log], tally: &mut Tally)
    requires { HasRoom tally.old (length (flat_map (λ log. log.lines.items) logs.now)) }
    ensures { tally.new ≡ plus tally.old (counted (flat_map (λ log. log.lines.items) logs.now)) }
{
    'logs: for log in logs {
        add_lines(&log.lines, tally);
    }
}

/// How many entries are left of all queues.
pub(crate) fn entries_in(left: &[Vec<RestEntry<Parcel>>]) -> u64
    requires queues { length left.now ≤ most_queues }
    requires few { (q : ℕ) → many_left q left.now ≤ most_entries }
    ensures { result ≡ entries_in (rows_left left.now) }
{
    let mut entries = 0;
    'queues: for queue in left {
        entries += queue.len() as u64;
    }
    entries
}
