//! Phases: the actors beside each other.
ghost use Rattle.std.specs.Prelude.{ℕ, List, [], false, map, length, replicate, vec_len, vec_capacity, slice_index_or, All, ◌<◌, ◌≡◌};
ghost use Rattle.std.specs.Option.{option_map};
ghost use Rattle.defs_read.specs.Defined.{queues_in};
ghost use Rattle.line_core.specs.Places.{AreOfKinds};
ghost use Rattle.workers_core.specs.Drops.{ServesPolicies, all_rows};
ghost use Rattle.workers_core.specs.Phases.{HasRun, MayDrop, MayRun, lines_of};
ghost use Rattle.workers_core.specs.Ready.{AllServe};

use crate::actors::{Actor, run_actor};
use acts_core::SharedQueue;
use defs_read::Defs;
use outside_io::Gate;
use std::sync::Wait;
use std::thread::{self, Threads};
use txn_core::Parcel;

/// Runs the lines of each actor in order, and the actors beside each other, each in a thread of its own. Takes no
/// memory, and has no answer: what became of the lines is in the actors.
pub fn run_phase<R: Threads + Wait + Clone + Send + Sync + Drop, Q: SharedQueue<Parcel>, G: Gate>(
    rt: &R,
    defs: &Defs,
    queues: &[Q],
    actors: &mut [Actor<Q>],
    gate: &G,
)
    requires kinds { AreOfKinds (queues_in defs.now) (map Q.build queues.now) }
    requires policies { ServesPolicies (queues_in defs.now) }
    requires may { All (λ a. (length queues.now ≡ vec_len a.passes) × AllServe Q.serves queues.now a.passes.items
        × MayRun (queues_in defs.now) (map Q.sight a.passes.items)
        (map (option_map (λ b. seat (b.vtable, b.value))) a.roster.slots) a.jobs.items (vec_capacity a.held)
        (vec_capacity a.log)
        × MayDrop (queues_in defs.now) (all_rows (map Q.build queues.now)) (lines_of a.jobs.items)
        (vec_capacity a.drops)
        × (a.held.items ≡ []) × (a.log.items ≡ []) × (a.drops.items ≡ [])
        × (a.stopped.items ≡ replicate (length (queues_in defs.now)) false)) actors.old }
    ensures named { (i : ℕ) (d : _) → i < length actors.old
        → (slice_index_or actors.new i d).name ≡ (slice_index_or actors.old i d).name }
    ensures ran { (i : ℕ) (d : _) → i < length actors.old
        → AllServe Q.serves queues.now (slice_index_or actors.new i d).passes.items
        × HasRun (queues_in defs.now) (map Q.build queues.now)
        (map Q.sight (slice_index_or actors.old i d).passes.items)
        (map (option_map (λ b. seat (b.vtable, b.value))) (slice_index_or actors.old i d).roster.slots)
        (lines_of (slice_index_or actors.old i d).jobs.items) (slice_index_or actors.new i d).log.items
        (slice_index_or actors.new i d).drops.items
        (map Q.sight (slice_index_or actors.new i d).passes.items)
        (map (option_map (λ b. seat (b.vtable, b.value))) (slice_index_or actors.new i d).roster.slots) }
{
    let threads = actors.len();
    if threads == 0 {
        return;
    }
    let work = |_: usize, actor: &mut Actor<Q>|
        requires { (length queues.now ≡ vec_len actor.now.passes) × AllServe Q.serves queues.now actor.now.passes.items
            × MayRun (queues_in defs.now) (map Q.sight actor.now.passes.items)
            (map (option_map (λ b. seat (b.vtable, b.value))) actor.now.roster.slots) actor.now.jobs.items
            (vec_capacity actor.now.held) (vec_capacity actor.now.log)
            × MayDrop (queues_in defs.now) (all_rows (map Q.build queues.now)) (lines_of actor.now.jobs.items)
            (vec_capacity actor.now.drops)
            × (actor.now.held.items ≡ []) × (actor.now.log.items ≡ []) × (actor.now.drops.items ≡ [])
            × (actor.now.stopped.items ≡ replicate (length (queues_in defs.now)) false)
            × AreOfKinds (queues_in defs.now) (map Q.build queues.now) × ServesPolicies (queues_in defs.now) }
        ensures { (actor.exit.now.name ≡ actor.entry.now.name)
            × AllServe Q.serves queues.entry.now actor.exit.now.passes.items
            × HasRun (queues_in defs.entry.now) (map Q.build queues.entry.now)
            (map Q.sight actor.entry.now.passes.items)
            (map (option_map (λ b. seat (b.vtable, b.value))) actor.entry.now.roster.slots)
            (lines_of actor.entry.now.jobs.items) actor.exit.now.log.items
            actor.exit.now.drops.items
            (map Q.sight actor.exit.now.passes.items)
            (map (option_map (λ b. seat (b.vtable, b.value))) actor.exit.now.roster.slots) }
    { run_actor(defs, queues, actor, gate) };
    thread::for_each_mut(rt, actors, threads, &work);
}
