//! Runs the phases of a script, and writes the text of each as it ends.
ghost use Rattle.std.specs.Prelude.{◌≡◌, map, IfOk};
ghost use Rattle.std.specs.List.{All};
ghost use Rattle.std.specs.Option.{option_map};
ghost use Rattle.defs_read.specs.Defined.{queues_in};
ghost use Rattle.outside_io.specs.Says.{Says};
ghost use Rattle.phase_text.specs.Logs.{FitsLog, FitsRest, phase_text};
ghost use Rattle.script_read.specs.Phases.{actors_in};
ghost use Rattle.account_core.specs.Texts.{queue_names};
ghost use Rattle.broker_top.specs.Job.{IsRunnable, script_in};
ghost use Rattle.broker_top.specs.OnePhase.{IsEmpty, MayPlay, RunsOne};
ghost use Rattle.broker_top.specs.Phases.{RunsPhases};

use crate::job::Job;
use acts_core::RestEntry;
use byte_lists::{Bytes, NoMemory};
use defs_read::Defs;
use outside_io::{Failed, Gate, Sink};
use phase_core::{PhaseEnd, play_phase};
use phase_text::write_phase;
use script_read::Phase;
use std::alloc::Global;
use std::collections::VecDeque;
use std::sync::Wait;
use std::thread::Threads;
use target_core::Roster;
use txn_core::Parcel;

/// Why phases don't go on.
#[derive(Clone, Copy, Debug, PartialEq, Eq)]
pub(crate) enum Stopped {
    /// Memory ran out before a phase began.
    NoMemory,
    /// The sink failed.
    WriteFault,
}

/// A copy of a name.
fn copy_of(alloc: Global, name: &Bytes) -> Result<Bytes, NoMemory>
    ensures { IfOk result (λ copy. copy ≡ name.now) }
{
    Bytes::of(alloc, name.as_slice())
}

/// The names of the queues.
fn queue_names(alloc: Global, defs: &Defs) -> Result<Vec<Bytes>, NoMemory>
    ensures { IfOk result (λ names. names.items ≡ queue_names (queues_in defs.now)) }
{
    let queues = defs.queues.as_slice();
    let Ok(mut names) = Vec::with_capacity(alloc, queues.len()) else {
        return Err(NoMemory);
    };
    'queues: for queue in queues {
        names.push_reserved(copy_of(alloc, &queue.name)?);
    }
    Ok(names)
}

/// The names of a phase's actors.
fn actor_names(alloc: Global, phase: &Phase) -> Result<Vec<Bytes>, NoMemory>
    ensures { IfOk result (λ names. names.items ≡ map (λ actor. actor.0) (actors_in phase.now)) }
{
    let actors = phase.actors.as_slice();
    let Ok(mut names) = Vec::with_capacity(alloc, actors.len()) else {
        return Err(NoMemory);
    };
    'actors: for actor in actors {
        names.push_reserved(copy_of(alloc, &actor.0)?);
    }
    Ok(names)
}

/// A list of no entries for each queue.
pub(crate) fn none_left(alloc: Global, defs: &Defs) -> Result<Vec<Vec<RestEntry<Parcel>>>, NoMemory>
    ensures { IfOk result (λ left. IsEmpty (queues_in defs.now) left.items) }
{
    let Ok(mut left) = Vec::with_capacity(alloc, defs.queues.len()) else {
        return Err(NoMemory);
    };
    let queues = defs.queues.as_slice();
    'queues: for _queue in queues {
        left.push_reserved(Vec::new(alloc));
    }
    Ok(left)
}

/// Writes the text of a phase.
fn tell_phase<K: Sink>(
    out: &mut K,
    queues: &[Bytes],
    actors: &[Bytes],
    end: &PhaseEnd,
) -> Result<(), Failed>
    requires logs { All (FitsLog queues.now actors.now) end.now.logs.items }
    requires rests { All (FitsRest actors.now) end.now.rests.items }
    ensures { Says result (K.written out.old) (K.written out.new) (K.faults out.old) (K.faults out.new)
        (phase_text queues.now actors.now end.now.logs.items end.now.rests.items) }
{
    write_phase(
        out,
        end.logs.as_slice(),
        end.rests.as_slice(),
        queues,
        actors,
    )
}

/// Runs a phase and writes its text. Gives the entries with which the next one opens.
fn run_one<R: Threads + Wait + Clone + Send + Sync + Drop, K: Sink, G: Gate>(
    rt: &R,
    alloc: Global,
    out: &mut K,
    defs: &Defs,
    queues: &[Bytes],
    phase: Phase,
    left: Vec<Vec<RestEntry<Parcel>>>,
    roster: &mut Roster,
    gate: &G,
) -> Result<Vec<Vec<RestEntry<Parcel>>>, Stopped>
    requires names { queues.now ≡ queue_names (queues_in defs.now) }
    requires may { MayPlay (queues_in defs.now) left.items (actors_in phase) }
    ensures { RunsOne result (queues_in defs.now) left.items (actors_in phase)
        (map (option_map (λ b. seat (b.vtable, b.value))) roster.old.slots)
        (map (option_map (λ b. seat (b.vtable, b.value))) roster.new.slots)
        (K.written out.old) (K.written out.new) (K.faults out.old) (K.faults out.new) }
{
    let Ok(actors) = actor_names(alloc, &phase) else {
        return Err(Stopped::NoMemory);
    };
    let Ok(end) = play_phase(rt, alloc, defs, phase, left, roster, gate) else {
        return Err(Stopped::NoMemory);
    };
    match tell_phase(out, queues, &actors, &end) {
        Ok(()) => {
            let PhaseEnd { left, .. } = end;
            Ok(left)
        }
        Err(_) => Err(Stopped::WriteFault),
    }
}

/// Runs all phases in order, each from what the one before it left, and writes the text of each as it ends. A phase
/// that began doesn't stop for want of memory.
pub(crate) fn run_phases<R: Threads + Wait + Clone + Send + Sync + Drop, K: Sink, G: Gate>(
    rt: &R,
    alloc: Global,
    out: &mut K,
    job: Job,
    roster: &mut Roster,
    gate: &G,
) -> Result<(), Stopped>
    requires runs { IsRunnable (script_in job) }
    ensures { RunsPhases result (script_in job)
        (map (option_map (λ b. seat (b.vtable, b.value))) roster.old.slots)
        (map (option_map (λ b. seat (b.vtable, b.value))) roster.new.slots)
        (K.written out.old) (K.written out.new) (K.faults out.old) (K.faults out.new) }
{
    let Job { defs, script } = job;
    let Ok(queues) = queue_names(alloc, &defs) else {
        return Err(Stopped::NoMemory);
    };
    let Ok(mut left) = none_left(alloc, &defs) else {
        return Err(Stopped::NoMemory);
    };
    let mut phases = VecDeque::from(script.phases);
    'phases: while let Some(phase) = phases.pop_front() {
        match run_one(rt, alloc, out, &defs, &queues, phase, left, roster, gate) {
            Ok(next) => left = next,
            Err(stopped) => return Err(stopped),
        }
    }
    Ok(())
}
