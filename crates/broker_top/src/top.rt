//! The top calls.
ghost use Rattle.std.specs.Prelude.{◌≡◌, [], Option, map, string_bytes, vec_len};
ghost use Rattle.broker_top.specs.Commands.{CommandEnds};
ghost use Rattle.journal_commands.specs.Disks.{medium};
ghost use Rattle.broker_top.specs.Ends.{Ends, TaskEnds};
ghost use Rattle.command_line.specs.JournalTasks.{JournalTask, asked_journal};
ghost use Rattle.command_line.specs.Tasks.{Task, asked, run, selecting};
ghost use Rattle.command_line.specs.Wanted.{Asks};
ghost use Rattle.broker_top.specs.World.{world};

use crate::generated::run_generated;
use crate::input::read_input;
use crate::job::read_job;
use crate::phases::{Stopped, run_phases};
use crate::select::select_messages;
use crate::telling::{refuse, tell_unread};
use byte_lists::NoMemory;
use command_line::{Asked, is_listed, is_select, read_words};
use command_status::{Status, refuse_words, tell_no_memory};
use disk_core::Disk;
use journal_commands::{initialize, tell_journal};
use outside_io::{Gate, Sink, Source};
use std::alloc::Global;
use std::sync::Wait;
use std::thread::Threads;
use target_core::{Roster, Target};

/// Reads a script, runs it, and writes the text of each phase as it ends. Gives the targets back that were not closed.
fn run_script<R: Threads + Wait + Clone + Send + Sync + Drop, S: Source, K: Sink, G: Gate>(
    rt: &R,
    alloc: Global,
    input: &mut S,
    out: &mut K,
    gate: &G,
    targets: Vec<Box<dyn Target>>,
) -> (Status, Vec<Box<dyn Target>>)
    requires targets { vec_len targets ≡ 64 }
    ensures { TaskEnds run result.0
        (world S.left S.faults K.written K.faults input.old out.old
        (map seat targets.items))
        (world S.left S.faults K.written K.faults input.new out.new
        (map seat result.1.items)) }
{
    let bytes = match read_input(alloc, input) {
        Ok(bytes) => bytes,
        Err(unread) => return (tell_unread(out, unread), targets),
    };
    let job = match read_job(alloc, &bytes) {
        Ok(job) => job,
        Err(fault) => return (refuse(alloc, out, fault), targets),
    };
    drop(bytes);
    let mut roster = Roster::of(targets);
    let status = match run_phases(rt, alloc, out, job, &mut roster, gate) {
        Ok(()) => Status::Done,
        Err(Stopped::NoMemory) => tell_no_memory(out),
        Err(Stopped::WriteFault) => Status::WriteFault,
    };
    (status, roster.finish())
}

/// Does what was asked for.
fn do_asked<R: Threads + Wait + Clone + Send + Sync + Drop, S: Source, K: Sink, D: Disk, G: Gate>(
    rt: &R,
    alloc: Global,
    asked: Asked,
    input: &mut S,
    out: &mut K,
    disk: D,
    gate: &G,
    targets: Vec<Box<dyn Target>>,
) -> (Status, D, Vec<Box<dyn Target>>)
    requires targets { vec_len targets ≡ 64 }
    requires asked { (task : Option Task) × (journal : Option JournalTask) × Asks asked task journal }
    ensures { (task : Option Task) (journal : Option JournalTask) → Asks asked.entry task journal →
        CommandEnds journal task result.0
        (world S.left S.faults K.written K.faults input.old out.old
        (map seat targets.items))
        (world S.left S.faults K.written K.faults input.new out.new
        (map seat result.2.items))
        (medium D.seen D.images D.moment D.since D.trail D.faults D.syncs disk)
        (medium D.seen D.images D.moment D.since D.trail D.faults D.syncs result.1) }
{
    match asked {
        Asked::Run => {
            let (status, targets) = run_script(rt, alloc, input, out, gate, targets);
            (status, disk, targets)
        }
        Asked::Select(text) => (select_messages(alloc, text, input, out), disk, targets),
        Asked::Generate { number, count } => {
            let (status, targets) = run_generated(rt, alloc, number, count, out, gate, targets);
            (status, disk, targets)
        }
        Asked::Init(_) => {
            let (status, disk) = initialize(alloc, out, disk);
            (status, disk, targets)
        }
        Asked::Recover(_) => {
            let (status, disk) = tell_journal(alloc, out, disk);
            (status, disk, targets)
        }
    }
}

/// Does all that the program does for these words of its command line: for `run` it reads the whole input, tests every
/// line, and runs the phases of the script, whose actors are threads of `rt` that run beside each other and pass the
/// gate before and after each line. It writes the text of each phase as the phase ends, or a fault line. For `select`
/// and a text it does what [`select_command`] does. For `gen`, a number and a count it runs the script that the number
/// makes for so many messages, in the same way, reads nothing, and writes one line that tells of the run. For `init` and
/// a path it does what [`init_command`] does with this disk, and for `recover` and a path what [`recover_command`] does.
/// Gives the disk back; the other commands don't touch it.
///
/// Asks for 64 targets: that of each consumer, by its number over all queues. Those that no line closed come back, in
/// their order, each with what it was handed.
///
/// docs/SCRIPT.md, "Statuses", says when each status comes. The input has at most [`INPUT_LIMIT`] bytes.
///
/// [`INPUT_LIMIT`]: crate::INPUT_LIMIT
/// [`init_command`]: crate::init_command
/// [`recover_command`]: crate::recover_command
pub fn run_command<
    R: Threads + Wait + Clone + Send + Sync + Drop,
    S: Source,
    K: Sink,
    D: Disk,
    G: Gate,
>(
    rt: &R,
    alloc: Global,
    words: &[String],
    input: &mut S,
    out: &mut K,
    disk: D,
    gate: &G,
    targets: Vec<Box<dyn Target>>,
) -> (Status, D, Vec<Box<dyn Target>>)
    requires targets { vec_len targets ≡ 64 }
    ensures { CommandEnds (asked_journal (map string_bytes words.now)) (asked (map string_bytes words.now))
        result.0
        (world S.left S.faults K.written K.faults input.old out.old
        (map seat targets.items))
        (world S.left S.faults K.written K.faults input.new out.new
        (map seat result.2.items))
        (medium D.seen D.images D.moment D.since D.trail D.faults D.syncs disk)
        (medium D.seen D.images D.moment D.since D.trail D.faults D.syncs result.1) }
{
    if !is_listed(words) {
        return (refuse_words(out), disk, targets);
    }
    match read_words(alloc, words) {
        Ok(asked) => do_asked(rt, alloc, asked, input, out, disk, gate, targets),
        Err(NoMemory) => (tell_no_memory(out), disk, targets),
    }
}

/// Tells of messages what a selector is, for the words `select` and the selector's text: it tests the text, reads the
/// whole input, tests every line, and writes `true`, `false` or `unknown` for each message, or a fault line. All other
/// words are refused.
///
/// docs/SCRIPT.md has the lines under "The command `select`", and says under "Statuses" when each status comes. The
/// input has at most [`INPUT_LIMIT`] bytes.
///
/// [`INPUT_LIMIT`]: crate::INPUT_LIMIT
pub fn select_command<S: Source, K: Sink>(
    alloc: Global,
    words: &[String],
    input: &mut S,
    out: &mut K,
) -> Status
    ensures { Ends (selecting (asked (map string_bytes words.now))) result
        (world S.left S.faults K.written K.faults input.old out.old [])
        (world S.left S.faults K.written K.faults input.new out.new []) }
{
    if !is_select(words) {
        return refuse_words(out);
    }
    match read_words(alloc, words) {
        Ok(Asked::Select(text)) => select_messages(alloc, text, input, out),
        Ok(_) => unreachable!(),
        Err(NoMemory) => tell_no_memory(out),
    }
}
