//! A phase.
ghost use Rattle.std.specs.Prelude.{◌≡◌, ◌+◌, ◌<◌, ◌≤◌, ℕ, false, All, IfOk, OnErr, Some, [], length, map, replicate, slice_get, vec_capacity, vec_len};
ghost use Rattle.std.specs.List.{AllByRecursion};
ghost use Rattle.std.specs.Option.{option_map};
ghost use Rattle.acts_core.specs.Sight.{Sight};
ghost use Rattle.any_queue.specs.Kinds.{ServesAny, build_in, sight_in};
ghost use Rattle.defs_read.specs.Allowed.{AreAllowed};
ghost use Rattle.defs_read.specs.Defined.{queues_in};
ghost use Rattle.phase_actors.specs.Cast.{HasServedOps};
ghost use Rattle.phase_actors.specs.Passes.{IsBoss};
ghost use Rattle.account_core.specs.Accounts.{SameSeats};
ghost use Rattle.phase_core.specs.Phased.{FewEntries, IdsOnce, PlaysPhase};
ghost use Rattle.phase_core.specs.Playing.{AreUnused, HavePlayed};
ghost use Rattle.phase_queues.specs.Left.{AllMayStay};
ghost use Rattle.script_read.specs.Allowed.{IsAllowedPhase, ops_in};
ghost use Rattle.script_read.specs.Phases.{actors_in};
ghost use Rattle.line_core.specs.Places.{AreOfKinds};
ghost use Rattle.workers_core.specs.Drops.{ServesPolicies, all_rows};
ghost use Rattle.workers_core.specs.Phases.{MayDrop, MayRun, lines_of};
ghost use Rattle.workers_core.specs.Ready.{AllServe};

use crate::counting::{puts_of, rows_of};
use crate::joining::join_actors;
use acts_core::RestEntry;
use any_queue::{AnyPass, AnyQueue};
use byte_lists::NoMemory;
use defs_read::Defs;
use outside_io::Gate;
use phase_actors::make_actors;
use phase_queues::{Opened, close_queues, open_queues};
use phase_text::{Log, Rest};
use script_read::Phase;
use std::alloc::Global;
use std::sync::Wait;
use std::thread::Threads;
use target_core::Roster;
use txn_core::Parcel;
use workers_core::{Actor, run_phase};

/// What a phase leaves: what each actor's lines answered, what each queue holds, and the entries themselves, a list for
/// each queue, with which the next phase opens.
#[derive(Drop)]
pub struct PhaseEnd {
    pub logs: Vec<Log>,
    pub rests: Vec<Rest>,
    pub left: Vec<Vec<RestEntry<Parcel>>>,
}

/// Runs the actors of a phase beside each other, and then gives back what they had: their passes to the bosses, their
/// targets to the roster, and their logs. Takes no memory.
fn play_actors<R: Threads + Wait + Clone + Send + Sync + Drop, G: Gate>(
    rt: &R,
    defs: &Defs,
    queues: &[AnyQueue<Parcel, R>],
    bosses: &mut Vec<AnyPass>,
    actors: Vec<Actor<AnyQueue<Parcel, R>>>,
    roster: &mut Roster,
    logs: &mut Vec<Log>,
    gate: &G,
)
    requires as_many { length queues.now ≡ vec_len bosses.old }
    requires kinds { AreOfKinds (queues_in defs.now) (map build_in queues.now) }
    requires policies { ServesPolicies (queues_in defs.now) }
    requires serve { AllServe ServesAny queues.now bosses.old.items }
    requires bosses { (q : ℕ) (s : Sight) → slice_get (map sight_in bosses.old.items) q ≡ Some s
        → IsBoss s.opening (vec_len actors + 1) [] s }
    requires unused { (i : ℕ) (a : _) → slice_get actors.items i ≡ Some a
        → AreUnused (map sight_in bosses.old.items) (i + 1) (map sight_in a.passes.items) }
    requires may { All (λ a. (length queues.now ≡ vec_len a.passes)
        × AllServe ServesAny queues.now a.passes.items
        × MayRun (queues_in defs.now) (map sight_in a.passes.items)
        (map (option_map (λ b. seat (b.vtable, b.value))) a.roster.slots)
        a.jobs.items (vec_capacity a.held) (vec_capacity a.log)
        × MayDrop (queues_in defs.now) (all_rows (map build_in queues.now)) (lines_of a.jobs.items)
        (vec_capacity a.drops)
        × (a.held.items ≡ []) × (a.log.items ≡ []) × (a.drops.items ≡ [])
        × (a.stopped.items ≡ replicate (length (queues_in defs.now)) false)) actors.items }
    requires logs { (logs.old.items ≡ []) × (vec_len actors ≤ vec_capacity logs.old) }
    ensures serve { AllServe ServesAny queues.now bosses.new.items }
    ensures played { HavePlayed (queues_in defs.now) (map build_in queues.now)
        (map (λ a. (a.name, lines_of a.jobs.items)) actors.items)
        (map (λ a. map (option_map (λ b. seat (b.vtable, b.value))) a.roster.slots) actors.items)
        (map sight_in bosses.old.items) (map sight_in bosses.new.items)
        (map (option_map (λ b. seat (b.vtable, b.value))) roster.old.slots)
        (map (option_map (λ b. seat (b.vtable, b.value))) roster.new.slots)
        logs.new.items }
{
    let mut actors = actors;
    run_phase(rt, defs, queues, &mut actors, gate);
    join_actors(queues, bosses, actors, roster, logs);
}

/// Plays a phase: opens the queues with the entries that the phase before it left, runs the lines of its actors beside
/// each other, each actor in a thread of its own, and closes the queues. The targets of the consumers are in the roster;
/// the actors have them meanwhile.
///
/// Refuses only for want of memory, and that before the first line runs; then the targets are as they were.
pub fn play_phase<R: Threads + Wait + Clone + Send + Sync + Drop, G: Gate>(
    rt: &R,
    alloc: Global,
    defs: &Defs,
    phase: Phase,
    left: Vec<Vec<RestEntry<Parcel>>>,
    roster: &mut Roster,
    gate: &G,
) -> Result<PhaseEnd, NoMemory>
    requires allowed { AreAllowed (queues_in defs.now) }
    requires policies { ServesPolicies (queues_in defs.now) }
    requires phase { IsAllowedPhase (queues_in defs.now) false (actors_in phase) }
    requires served { AllByRecursion HasServedOps (actors_in phase) }
    requires stay { AllMayStay (queues_in defs.now) left.items }
    requires once { IdsOnce left.items (ops_in (actors_in phase)) }
    requires few { FewEntries left.items (ops_in (actors_in phase)) }
    ensures plays { IfOk result (PlaysPhase (queues_in defs.now) left.items (actors_in phase)
        (map (option_map (λ b. seat (b.vtable, b.value))) roster.old.slots)
        (map (option_map (λ b. seat (b.vtable, b.value))) roster.new.slots)) }
    ensures kept { OnErr result (SameSeats
        (map (option_map (λ b. seat (b.vtable, b.value))) roster.old.slots)
        (map (option_map (λ b. seat (b.vtable, b.value))) roster.new.slots)) }
{
    let puts = puts_of(alloc, defs, &phase)?;
    let Ok(mut logs) = Vec::with_capacity(alloc, phase.actors.len()) else {
        return Err(NoMemory);
    };
    let rows = rows_of(left.as_slice(), puts.as_slice());
    let opened = open_queues(rt, alloc, defs, left, &puts)?;
    let Opened {
        queues,
        bosses,
        rests,
        left,
    } = opened;
    let mut bosses = bosses;
    let mut rests = rests;
    let mut left = left;
    let actors = make_actors(alloc, defs, phase, rows, &queues, &mut bosses, roster)?;
    play_actors(
        rt,
        defs,
        &queues,
        &mut bosses,
        actors,
        roster,
        &mut logs,
        gate,
    );
    close_queues(queues, bosses, &mut rests, &mut left);
    Ok(PhaseEnd { logs, rests, left })
}
