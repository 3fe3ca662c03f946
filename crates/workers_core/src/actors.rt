//! Actors.
ghost use Rattle.std.specs.Prelude.{ℕ, List, [], false, map, length, replicate, vec_len, vec_capacity, ◌≡◌};
ghost use Rattle.std.specs.Option.{option_map};
ghost use Rattle.defs_read.specs.Defined.{queues_in};
ghost use Rattle.line_core.specs.Places.{AreOfKinds};
ghost use Rattle.workers_core.specs.Drops.{ServesPolicies, all_rows};
ghost use Rattle.workers_core.specs.Phases.{HasRun, MayDrop, MayRun, lines_of};
ghost use Rattle.workers_core.specs.Ready.{AllServe};

use crate::held::Kept;
use crate::jobs::Job;
use crate::leaving::leave_all;
use crate::lines::run_jobs;
use acts_core::{Bytes, SharedQueue};
use byte_lists::Buffer;
use defs_read::Defs;
use outside_io::Gate;
use report_core::{Answer, Dropped};
use std::alloc::Global;
use std::mem;
use target_core::Roster;
use txn_core::Parcel;

/// An actor of a phase: its lines, of which the last is kept first, a pass of each queue in the order of the
/// definitions, the targets of its consumers, whether flow control has stopped it on each queue, and room for what its
/// lines need.
pub struct Actor<Q: SharedQueue<Parcel>> {
    pub name: Bytes,
    pub number: u64,
    pub jobs: Vec<Job>,
    pub passes: Vec<Q::Pass>,
    pub held: Vec<Kept>,
    pub roster: Roster,
    pub stopped: Vec<bool>,
    pub log: Vec<(u64, Answer)>,
    pub drops: Vec<Dropped>,
    pub body: Buffer,
    pub alloc: Global,
}

/// What is left of an actor: its passes and targets, the number and the answer of each line in order, and the entries
/// that its puts dropped.
pub struct ActorEnd<Q: SharedQueue<Parcel>> {
    pub passes: Vec<Q::Pass>,
    pub roster: Roster,
    pub log: Vec<(u64, Answer)>,
    pub drops: Vec<Dropped>,
}

impl<Q: SharedQueue<Parcel>> Actor<Q> {
    /// Ends the actor. Takes no memory.
    pub fn finish(self) -> ActorEnd<Q>
        ensures passes { result.passes ≡ self.passes }
        ensures roster { result.roster ≡ self.roster }
        ensures log { result.log ≡ self.log }
        ensures drops { result.drops ≡ self.drops }
    {
        let Actor {
            name: _name,
            number: _number,
            jobs: _jobs,
            passes,
            held: _held,
            roster,
            stopped: _stopped,
            log,
            drops,
            body: _body,
            alloc: _alloc,
        } = self;
        ActorEnd {
            passes,
            roster,
            log,
            drops,
        }
    }
}

/// Does an actor's lines in order, and then leaves what it has locked.
pub(crate) fn run_actor<Q: SharedQueue<Parcel>, G: Gate>(
    defs: &Defs,
    queues: &[Q],
    actor: &mut Actor<Q>,
    gate: &G,
)
    requires as_many { length queues.now ≡ vec_len actor.old.passes }
    requires serve { AllServe Q.serves queues.now actor.old.passes.items }
    requires kinds { AreOfKinds (queues_in defs.now) (map Q.build queues.now) }
    requires policies { ServesPolicies (queues_in defs.now) }
    requires may { MayRun (queues_in defs.now) (map Q.sight actor.old.passes.items)
        (map (option_map (λ b. seat (b.vtable, b.value))) actor.old.roster.slots) actor.old.jobs.items
        (vec_capacity actor.old.held) (vec_capacity actor.old.log) }
    requires drops { MayDrop (queues_in defs.now) (all_rows (map Q.build queues.now))
        (lines_of actor.old.jobs.items) (vec_capacity actor.old.drops) }
    requires fresh { (actor.old.held.items ≡ []) × (actor.old.log.items ≡ []) × (actor.old.drops.items ≡ [])
        × (actor.old.stopped.items ≡ replicate (length (queues_in defs.now)) false) }
    ensures named { actor.new.name ≡ actor.old.name }
    ensures serve { AllServe Q.serves queues.now actor.new.passes.items }
    ensures ran { HasRun (queues_in defs.now) (map Q.build queues.now) (map Q.sight actor.old.passes.items)
        (map (option_map (λ b. seat (b.vtable, b.value))) actor.old.roster.slots)
        (lines_of actor.old.jobs.items) actor.new.log.items actor.new.drops.items
        (map Q.sight actor.new.passes.items)
        (map (option_map (λ b. seat (b.vtable, b.value))) actor.new.roster.slots) }
{
    let jobs = mem::replace(&mut actor.jobs, Vec::new(actor.alloc));
    run_jobs(
        defs,
        queues,
        &mut actor.passes,
        &mut actor.held,
        &mut actor.roster,
        &mut actor.stopped,
        &mut actor.drops,
        &mut actor.log,
        jobs,
        gate,
    );
    leave_all(queues, &mut actor.passes, &mut actor.held);
}
