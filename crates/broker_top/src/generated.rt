//! Runs the script that a number makes, and writes its summary.
ghost use Rattle.std.specs.Prelude.{◌≡◌, ◌^◌, ◌<◌, ◌≤◌, IfOk, length, map, string_bytes, vec_len};
ghost use Rattle.gen_core.specs.Generated.{body_bytes};
ghost use Rattle.std.specs.Option.{option_map};
ghost use Rattle.defs_read.specs.Defined.{queues_in};
ghost use Rattle.script_read.specs.Allowed.{all_ops, ops_in};
ghost use Rattle.script_read.specs.Phases.{actors_in};
ghost use Rattle.broker_top.specs.Generated.{Tallies, TalliesOne, script_of};
ghost use Rattle.broker_top.specs.GeneratedEnds.{EndsGenerated, TellsSummary, TellsTallied};
ghost use Rattle.broker_top.specs.Job.{IsRunnable, script_in};
ghost use Rattle.broker_top.specs.OnePhase.{MayPlay};
ghost use Rattle.broker_top.specs.Summary.{HasRoom, summary_line};

use crate::job::Job;
use crate::phases::none_left;
use crate::tally::{Tally, add_logs, entries_in, nothing_counted};
use acts_core::RestEntry;
use byte_lists::NoMemory;
use command_status::{Status, tell, tell_no_memory};
use defs_read::Defs;
use gen_core::{MOST_MESSAGES, body_bytes, generate};
use outside_io::{Gate, Sink};
use phase_core::{PhaseEnd, play_phase};
use script_read::Phase;
use std::alloc::Global;
use std::collections::VecDeque;
use std::sync::Wait;
use std::thread::Threads;
use target_core::{Roster, Target};
use txn_core::Parcel;

/// Runs a phase and counts its answers. Gives the entries with which the next one opens.
fn tally_one<R: Threads + Wait + Clone + Send + Sync + Drop, G: Gate>(
    rt: &R,
    alloc: Global,
    defs: &Defs,
    phase: Phase,
    left: Vec<Vec<RestEntry<Parcel>>>,
    roster: &mut Roster,
    gate: &G,
    tally: &mut Tally,
) -> Result<Vec<Vec<RestEntry<Parcel>>>, NoMemory>
    requires may { MayPlay (queues_in defs.now) left.items (actors_in phase) }
    requires room { HasRoom tally.old (length (ops_in (actors_in phase))) }
    ensures { TalliesOne result (queues_in defs.now) left.items (actors_in phase)
        (map (option_map (λ b. seat (b.vtable, b.value))) roster.old.slots)
        (map (option_map (λ b. seat (b.vtable, b.value))) roster.new.slots)
        tally.old tally.new }
{
    let end = play_phase(rt, alloc, defs, phase, left, roster, gate)?;
    add_logs(&end.logs, tally);
    let PhaseEnd { left, .. } = end;
    Ok(left)
}

/// Runs all phases in order, each from what the one before it left, and counts the answers of all. Gives the counts, and
/// how many entries are left at the end. A phase that began doesn't stop for want of memory.
fn tally_phases<R: Threads + Wait + Clone + Send + Sync + Drop, G: Gate>(
    rt: &R,
    alloc: Global,
    job: Job,
    roster: &mut Roster,
    gate: &G,
) -> Result<(Tally, u64), NoMemory>
    requires runs { IsRunnable (script_in job) }
    requires few { length (all_ops (script_in job).phases) < 2 ^ 64 }
    ensures { Tallies result (script_in job)
        (map (option_map (λ b. seat (b.vtable, b.value))) roster.old.slots)
        (map (option_map (λ b. seat (b.vtable, b.value))) roster.new.slots) }
{
    let Job { defs, script } = job;
    let Ok(mut left) = none_left(alloc, &defs) else {
        return Err(NoMemory);
    };
    let mut tally = nothing_counted();
    let mut phases = VecDeque::from(script.phases);
    'phases: while let Some(phase) = phases.pop_front() {
        match tally_one(rt, alloc, &defs, phase, left, roster, gate, &mut tally) {
            Ok(next) => left = next,
            Err(NoMemory) => return Err(NoMemory),
        }
    }
    Ok((tally, entries_in(&left)))
}

/// What is run of the script that this number makes for so many messages.
fn generated(alloc: Global, number: u64, count: u64) -> Result<Job, NoMemory>
    requires some { 1 ≤ count }
    requires few { count ≤ MOST_MESSAGES }
    ensures script { IfOk result (λ job. script_in job ≡ script_of number count) }
    ensures runs { IfOk result (λ job. IsRunnable (script_in job)) }
{
    let (defs, script) = generate(alloc, number, count)?;
    Ok(Job { defs, script })
}

/// Runs the script that this number makes for so many messages. Gives the counts of its answers, and how many entries
/// are left.
fn tally_generated<R: Threads + Wait + Clone + Send + Sync + Drop, G: Gate>(
    rt: &R,
    alloc: Global,
    number: u64,
    count: u64,
    roster: &mut Roster,
    gate: &G,
) -> Result<(Tally, u64), NoMemory>
    requires some { 1 ≤ count }
    requires few { count ≤ MOST_MESSAGES }
    ensures { Tallies result (script_of number count)
        (map (option_map (λ b. seat (b.vtable, b.value))) roster.old.slots)
        (map (option_map (λ b. seat (b.vtable, b.value))) roster.new.slots) }
{
    let Ok(job) = generated(alloc, number, count) else {
        return Err(NoMemory);
    };
    tally_phases(rt, alloc, job, roster, gate)
}

/// Makes the line that tells of a run.
fn summary_line(
    alloc: Global,
    number: u64,
    count: u64,
    tally: Tally,
    left: u64,
    bytes: u64,
) -> Result<String, NoMemory>
    ensures { IfOk result (λ line.
        string_bytes line ≡ summary_line number count tally left bytes) }
{
    let Tally { put, got, acked } = tally;
    match format!(in alloc;
        "gen {number} {count}: put {put} got {got} acked {acked} left {left} bytes {bytes}\n"
    ) {
        Ok(line) => Ok(line),
        Err(_) => Err(NoMemory),
    }
}

/// Tells of the run of the script that this number makes for so many messages.
fn tell_summary<K: Sink>(
    alloc: Global,
    out: &mut K,
    number: u64,
    count: u64,
    tally: Tally,
    left: u64,
) -> Status
    requires few { count ≤ MOST_MESSAGES }
    ensures { TellsSummary
        (summary_line number count tally left (body_bytes number count)) result
        (K.written out.old) (K.written out.new) (K.faults out.old) (K.faults out.new) }
{
    let bytes = body_bytes(number, count);
    match summary_line(alloc, number, count, tally, left, bytes) {
        Ok(line) => tell(out, Status::Done, line.as_bytes()),
        Err(NoMemory) => tell_no_memory(out),
    }
}

/// Tells of a run by its counts, or of want of memory.
fn tell_tallied<K: Sink>(
    alloc: Global,
    out: &mut K,
    number: u64,
    count: u64,
    tallied: Result<(Tally, u64), NoMemory>,
) -> Status
    requires few { count ≤ MOST_MESSAGES }
    ensures { TellsTallied tallied number count result
        (K.written out.old) (K.written out.new) (K.faults out.old) (K.faults out.new) }
{
    match tallied {
        Ok((tally, left)) => tell_summary(alloc, out, number, count, tally, left),
        Err(NoMemory) => tell_no_memory(out),
    }
}

/// Runs the script that this number makes for so many messages, and writes the summary of the run when it has ended.
/// Gives the targets back that were not closed. Reads nothing.
pub(crate) fn run_generated<R: Threads + Wait + Clone + Send + Sync + Drop, K: Sink, G: Gate>(
    rt: &R,
    alloc: Global,
    number: u64,
    count: u64,
    out: &mut K,
    gate: &G,
    targets: Vec<Box<dyn Target>>,
) -> (Status, Vec<Box<dyn Target>>)
    requires targets { vec_len targets ≡ 64 }
    requires some { 1 ≤ count }
    requires few { count ≤ MOST_MESSAGES }
    ensures { EndsGenerated number count result.0
        (map seat targets.items) (map seat result.1.items)
        (K.written out.old) (K.written out.new) (K.faults out.old) (K.faults out.new) }
{
    let mut roster = Roster::of(targets);
    let tallied = tally_generated(rt, alloc, number, count, &mut roster, gate);
    let status = tell_tallied(alloc, out, number, count, tallied);
    (status, roster.finish())
}
