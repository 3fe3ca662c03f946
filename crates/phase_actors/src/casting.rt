//! Actors are made of the lines of a phase.
ghost use Rattle.std.specs.Prelude.{ℕ, List, [], ◌∷◌, false, Some, All, IfOk, OnErr, map, length, replicate, slice_get, vec_len, vec_capacity, ◌+◌, ◌<◌, ◌≤◌, ◌≡◌};
ghost use Rattle.std.specs.List.{AllByRecursion};
ghost use Rattle.std.specs.Option.{option_map};
ghost use Rattle.defs_read.specs.Allowed.{AreAllowed};
ghost use Rattle.defs_read.specs.Defined.{queues_in};
ghost use Rattle.script_read.specs.Allowed.{IsAllowedPhase, IsOpOf, ops_in};
ghost use Rattle.script_read.specs.Phases.{actors_in};
ghost use Rattle.any_queue.specs.Kinds.{ServesAny, build_in, sight_in};
ghost use Rattle.workers_core.specs.Drops.{all_rows};
ghost use Rattle.workers_core.specs.Made.{IsServed};
ghost use Rattle.workers_core.specs.Phases.{MayDrop, MayRun, lines_of};
ghost use Rattle.workers_core.specs.Ready.{AllServe};
ghost use Rattle.phase_actors.specs.Cast.{HasServedOps, IsCast};
ghost use Rattle.phase_actors.specs.Passes.{AllMayCast, AreBosses, AreSplit};
ghost use Rattle.phase_actors.specs.Targets.{HasTargets, LacksTargets, SameTargets};

use crate::rooms::drops_of;
use crate::splitting::split_all;
use crate::targets::{give_back, move_targets, return_targets};
use any_queue::{AnyPass, AnyQueue};
use byte_lists::{Bytes, NoMemory};
use defs_read::Defs;
use script_read::{Op, Phase};
use std::alloc::Global;
use std::sync::Wait;
use target_core::Roster;
use txn_core::Parcel;
use workers_core::{Actor, Rooms, Unmade};

/// Makes the actors of a phase in their order, the first of which is caller 1. Splits a pass of each queue for each of
/// them off the boss's, with the actor's consumers, and with as many entries and rows as its lines put there; moves the
/// targets of the consumers that its lines name, where they stand, to it; and takes all memory that its lines can need.
/// The queues have room for no more than this number of rows. Refuses only for want of memory; then the roster has its
/// targets again.
pub fn make_actors<R: Wait + Send + Sync + Drop>(
    alloc: Global,
    defs: &Defs,
    phase: Phase,
    rows: u64,
    queues: &[AnyQueue<Parcel, R>],
    bosses: &mut Vec<AnyPass>,
    roster: &mut Roster,
) -> Result<Vec<Actor<AnyQueue<Parcel, R>>>, NoMemory>
    requires allowed { AreAllowed (queues_in defs.now) }
    requires phase { IsAllowedPhase (queues_in defs.now) false (actors_in phase) }
    requires served { AllByRecursion HasServedOps (actors_in phase) }
    requires queues { length queues.now ≡ length (queues_in defs.now) }
    requires rows { all_rows (map build_in queues.now) ≤ rows }
    requires bosses { vec_len bosses.old ≡ length (queues_in defs.now) }
    requires serve { AllServe ServesAny queues.now bosses.old.items }
    requires may { AllMayCast (queues_in defs.now) (actors_in phase) 1
        (map sight_in bosses.old.items) }
    ensures lines { IfOk result (λ actors.
        map (λ a. (a.name, lines_of a.jobs.items)) actors.items ≡ actors_in phase) }
    ensures cast { IfOk result (λ actors. (i : ℕ) (a : _) → slice_get actors.items i ≡ Some a
        → (a.number ≡ i + 1) × IsCast (queues_in defs.now) (map sight_in bosses.old.items)
        (map (option_map (λ b. seat (b.vtable, b.value))) roster.old.slots)
        (i + 1) a.name (lines_of a.jobs.items) (map sight_in a.passes.items)
        (map (option_map (λ b. seat (b.vtable, b.value))) a.roster.slots)) }
    ensures may { IfOk result (λ actors. All (λ a.
        (length queues.now ≡ vec_len a.passes) × AllServe ServesAny queues.now a.passes.items
        × MayRun (queues_in defs.now) (map sight_in a.passes.items)
        (map (option_map (λ b. seat (b.vtable, b.value))) a.roster.slots)
        a.jobs.items (vec_capacity a.held) (vec_capacity a.log)
        × MayDrop (queues_in defs.now) (all_rows (map build_in queues.now)) (lines_of a.jobs.items)
        (vec_capacity a.drops)
        × (a.held.items ≡ []) × (a.log.items ≡ []) × (a.drops.items ≡ [])
        × (a.stopped.items ≡ replicate (length (queues_in defs.now)) false)) actors.items) }
    ensures serve { IfOk result (λ _. AllServe ServesAny queues.now bosses.new.items) }
    ensures bosses { IfOk result (λ actors. AreBosses (map sight_in bosses.old.items)
        (vec_len actors + 1) (map sight_in bosses.new.items)) }
    ensures roster { IfOk result (λ _. LacksTargets
        (map (option_map (λ b. seat (b.vtable, b.value))) roster.old.slots)
        (ops_in (actors_in phase))
        (map (option_map (λ b. seat (b.vtable, b.value))) roster.new.slots)) }
    ensures kept { OnErr result (SameTargets
        (map (option_map (λ b. seat (b.vtable, b.value))) roster.old.slots)
        (map (option_map (λ b. seat (b.vtable, b.value))) roster.new.slots)) }
{
    let Ok(mut actors) = Vec::with_capacity(alloc, phase.actors.len()) else {
        return Err(NoMemory);
    };
    let mut number = 1;
    'actors: for (name, ops) in phase.actors {
        match make_actor(alloc, defs, name, number, ops, rows, queues, bosses, roster) {
            Ok(actor) => actors.push_reserved(actor),
            Err(NoMemory) => {
                give_back(actors, roster);
                return Err(NoMemory);
            }
        }
        number += 1;
    }
    Ok(actors)
}

/// Makes the actor of this name and these lines, the caller of this number.
fn make_actor<R: Wait + Send + Sync + Drop>(
    alloc: Global,
    defs: &Defs,
    name: Bytes,
    number: u64,
    ops: Vec<Op>,
    rows: u64,
    queues: &[AnyQueue<Parcel, R>],
    bosses: &mut Vec<AnyPass>,
    roster: &mut Roster,
) -> Result<Actor<AnyQueue<Parcel, R>>, NoMemory>
    requires allowed { AreAllowed (queues_in defs.now) }
    requires own { AllByRecursion (IsOpOf (queues_in defs.now) false name) ops.items }
    requires served { AllByRecursion (λ op. IsServed op.what) ops.items }
    requires number { number < 64 }
    requires queues { length queues.now ≡ length (queues_in defs.now) }
    requires rows { all_rows (map build_in queues.now) ≤ rows }
    requires bosses { vec_len bosses.old ≡ length (queues_in defs.now) }
    requires serve { AllServe ServesAny queues.now bosses.old.items }
    requires may { AllMayCast (queues_in defs.now) ((name, ops.items) ∷ []) number
        (map sight_in bosses.old.items) }
    ensures named { IfOk result (λ a. (a.name ≡ name) × (a.number ≡ number)) }
    ensures lines { IfOk result (λ a. lines_of a.jobs.items ≡ ops.items) }
    ensures split { IfOk result (λ a. AreSplit (queues_in defs.now) name ops.items
        (map sight_in bosses.old.items) (map sight_in bosses.new.items)
        (map sight_in a.passes.items)) }
    ensures targets { IfOk result (λ a. HasTargets
        (map (option_map (λ b. seat (b.vtable, b.value))) roster.old.slots) ops.items
        (map (option_map (λ b. seat (b.vtable, b.value))) a.roster.slots)) }
    ensures may { IfOk result (λ a.
        (length queues.now ≡ vec_len a.passes) × AllServe ServesAny queues.now a.passes.items
        × MayRun (queues_in defs.now) (map sight_in a.passes.items)
        (map (option_map (λ b. seat (b.vtable, b.value))) a.roster.slots)
        a.jobs.items (vec_capacity a.held) (vec_capacity a.log)
        × MayDrop (queues_in defs.now) (all_rows (map build_in queues.now)) (lines_of a.jobs.items)
        (vec_capacity a.drops)
        × (a.held.items ≡ []) × (a.log.items ≡ []) × (a.drops.items ≡ [])
        × (a.stopped.items ≡ replicate (length (queues_in defs.now)) false)) }
    ensures serve { IfOk result (λ _. AllServe ServesAny queues.now bosses.new.items) }
    ensures roster { IfOk result (λ _. LacksTargets
        (map (option_map (λ b. seat (b.vtable, b.value))) roster.old.slots) ops.items
        (map (option_map (λ b. seat (b.vtable, b.value))) roster.new.slots)) }
    ensures kept { OnErr result (SameTargets
        (map (option_map (λ b. seat (b.vtable, b.value))) roster.old.slots)
        (map (option_map (λ b. seat (b.vtable, b.value))) roster.new.slots)) }
{
    let drops = drops_of(defs, &ops, rows)?;
    let mut own = roster.beside(alloc)?;
    let passes = split_all(alloc, defs, &name, &ops, queues, bosses)?;
    move_targets(&ops, roster, &mut own);
    let room = Rooms { body: 0, drops };
    match Actor::make(alloc, name, number, defs, ops, passes, own, room) {
        Ok(actor) => Ok(actor),
        Err(
            Unmade {
                passes: _,
                roster: own,
            },
        ) => {
            let mut own = own;
            return_targets(&mut own, roster);
            Err(NoMemory)
        }
    }
}
