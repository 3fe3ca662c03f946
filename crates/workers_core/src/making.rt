//! Actors are made: what their lines need beside their words is found out, and all memory is taken.
ghost use Rattle.std.specs.Prelude.{ℕ, List, [], false, Some, IfOk, IfErr, map, length, replicate, slice_get, vec_len, vec_capacity, ◌<◌, ◌≡◌, ◌≤◌};
ghost use Rattle.std.specs.List.{AllByRecursion, count_by};
ghost use Rattle.std.specs.Option.{option_map};
ghost use Rattle.acts_core.specs.Sight.{Sight};
ghost use Rattle.defs_read.specs.Allowed.{AreAllowed, most_queues};
ghost use Rattle.defs_read.specs.Defined.{queues_in};
ghost use Rattle.script_read.specs.Allowed.{IsOpOf};
ghost use Rattle.target_core.specs.Seats.{seat_at};
ghost use Rattle.line_core.specs.Places.{IsReady, place_of};
ghost use Rattle.workers_core.specs.Jobs.{JobFits, gains, takes_for};
ghost use Rattle.workers_core.specs.Made.{ArePassesFor, IsOwnLine, IsServed, MayPutLines, SeatsStay, TakesWithin};
ghost use Rattle.workers_core.specs.Phases.{MayDrop, MayRun, lines_of};
ghost use Rattle.workers_core.specs.Ready.{MayTakeAll, Serves, ServesJob, all_gains};

use crate::actors::Actor;
use crate::held::Kept;
use crate::jobs::{Aid, Job};
use acts_core::{Bytes, SharedQueue};
use byte_lists::{Buffer, NoMemory};
use defs_read::{Defs, slip};
use report_core::{Answer, Dropped};
use script_read::{Op, What};
use std::alloc::Global;
use target_core::{CONSUMERS, Roster};
use txn_core::Parcel;

/// How much room an actor has for what its lines alone don't tell.
#[derive(Clone, Copy)]
pub struct Rooms {
    /// The bytes of its buffer for one loaded body.
    pub body: u64,
    /// The length of its list of drops: one for each of its puts to last-value queues; and where it puts to a ring, as
    /// many besides as all queues of the phase have rows.
    pub drops: u64,
}

/// What comes back where there was no memory for an actor: the passes and the targets that were handed in.
pub struct Unmade<Q: SharedQueue<Parcel>> {
    pub passes: Vec<Q::Pass>,
    pub roster: Roster,
}

/// What an actor's lines need.
#[derive(Drop)]
struct Gear {
    jobs: Vec<Job>,
    held: Vec<Kept>,
    stopped: Vec<bool>,
    log: Vec<(u64, Answer)>,
    drops: Vec<Dropped>,
    body: Buffer,
}

impl<Q: SharedQueue<Parcel>> Actor<Q> {
    /// Makes an actor of its lines, of a pass of each queue in the order of the definitions, and of the targets of the
    /// consumers that its lines name, where they are still open. Makes the slip of each put, and takes all memory that
    /// the lines can need. The passes are those of the caller of this number: each has the actor's consumers of its
    /// queue, and may reserve and draw as much as the lines put there. Refuses only for want of memory; then the
    /// passes and targets come back as they were, but for more room in some targets.
    pub fn make(
        alloc: Global,
        name: Bytes,
        number: u64,
        defs: &Defs,
        ops: Vec<Op>,
        passes: Vec<Q::Pass>,
        roster: Roster,
        room: Rooms,
    ) -> Result<Actor<Q>, Unmade<Q>>
        requires allowed { AreAllowed (queues_in defs.now) }
        requires lines { AllByRecursion (IsOpOf (queues_in defs.now) false name) ops.items }
        requires served { AllByRecursion (λ op. IsServed op.what) ops.items }
        requires passes { ArePassesFor name (queues_in defs.now) (map Q.sight passes.items) }
        requires rights { MayPutLines (map Q.sight passes.items) ops.items }
        ensures named { IfOk result (λ a. (a.name ≡ name) × (a.number ≡ number)) }
        ensures lines { IfOk result (λ a. lines_of a.jobs.items ≡ ops.items) }
        ensures passes { IfOk result (λ a. a.passes ≡ passes) }
        ensures targets { IfOk result (λ a. SeatsStay
            (map (option_map (λ b. seat (b.vtable, b.value))) roster.slots)
            (map (option_map (λ b. seat (b.vtable, b.value))) a.roster.slots)) }
        ensures empty { IfOk result (λ a. (a.held.items ≡ []) × (a.log.items ≡ []) × (a.drops.items ≡ [])) }
        ensures stopped { IfOk result (λ a. a.stopped.items ≡ replicate (length (queues_in defs.now)) false) }
        ensures rooms { IfOk result (λ a. (room.body ≤ a.body.room) × (room.drops ≤ vec_capacity a.drops)) }
        ensures drops { (rows : ℕ) → MayDrop (queues_in defs.now) rows ops.items room.drops
            → IfOk result (λ a. MayDrop (queues_in defs.now) rows (lines_of a.jobs.items) (vec_capacity a.drops)) }
        ensures may { IfOk result (λ a. MayRun (queues_in defs.now) (map Q.sight a.passes.items)
            (map (option_map (λ b. seat (b.vtable, b.value))) a.roster.slots)
            a.jobs.items (vec_capacity a.held) (vec_capacity a.log)) }
        ensures unmade { IfErr result (λ u. (u.passes ≡ passes) × SeatsStay
            (map (option_map (λ b. seat (b.vtable, b.value))) roster.slots)
            (map (option_map (λ b. seat (b.vtable, b.value))) u.roster.slots)) }
    {
        let mut roster = roster;
        match equip(alloc, defs, ops, &mut roster, room) {
            Ok(gear) => {
                let Gear {
                    jobs,
                    held,
                    stopped,
                    log,
                    drops,
                    body,
                } = gear;
                Ok(Actor {
                    name,
                    number,
                    jobs,
                    passes,
                    held,
                    roster,
                    stopped,
                    log,
                    drops,
                    body,
                    alloc,
                })
            }
            Err(NoMemory) => Err(Unmade { passes, roster }),
        }
    }
}

/// The queue of a consumer, which is numbered over all queues, and its place there.
fn place_of(defs: &Defs, consumer: u32) -> Option<(u32, u32)>
    requires few { length (queues_in defs.now) ≤ most_queues }
    ensures { result ≡ place_of (queues_in defs.now) consumer }
{
    let mut left = consumer as usize;
    'queues: for (number, def) in defs.queues.iter().enumerate() {
        let count = def.consumers.len();
        if left < count {
            return Some((number as u32, left as u32));
        }
        left -= count;
    }
    None
}

/// What a line needs beside its words.
fn aid_of(alloc: Global, defs: &Defs, op: &Op) -> Result<Aid, NoMemory>
    requires allowed { AreAllowed (queues_in defs.now) }
    requires own { IsOwnLine (queues_in defs.now) op.now }
    ensures fits { IfOk result (JobFits (queues_in defs.now) op.now.what) }
    ensures serves { (sights : List Sight) → ArePassesFor op.now.actor (queues_in defs.now) sights
        → IfOk result (Serves sights op.now.what) }
{
    match &op.what {
        What::Put { queue, message } => {
            let slip = slip(alloc, &defs.queues[*queue as usize], message)?;
            Ok(Aid::Slip(slip))
        }
        What::Take { consumer } => match place_of(defs, *consumer) {
            Some((queue, place)) => Ok(Aid::Place { queue, place }),
            None => unreachable!(),
        },
        What::Close { .. }
        | What::Ack { .. }
        | What::Release { .. }
        | What::Lock { .. }
        | What::Unlock { .. }
        | What::Steal { .. }
        | What::Begin
        | What::Commit
        | What::Rollback => Ok(Aid::Nothing),
    }
}

/// The lines, each with what it needs beside its words, the last one first.
fn jobs_of(alloc: Global, defs: &Defs, ops: Vec<Op>) -> Result<Vec<Job>, NoMemory>
    requires allowed { AreAllowed (queues_in defs.now) }
    requires own { AllByRecursion (IsOwnLine (queues_in defs.now)) ops.items }
    ensures lines { IfOk result (λ jobs. lines_of jobs.items ≡ ops.items) }
    ensures fits { IfOk result (λ jobs. AllByRecursion (λ j. JobFits (queues_in defs.now) j.op.what j.aid) jobs.items) }
    ensures serves { (sights : List Sight)
        → AllByRecursion (λ op. ArePassesFor op.actor (queues_in defs.now) sights) ops.items
        → IfOk result (λ jobs. AllByRecursion (ServesJob sights) jobs.items) }
{
    let mut ops = ops;
    let Ok(mut jobs) = Vec::with_capacity(alloc, ops.len()) else {
        return Err(NoMemory);
    };
    'lines: while let Some(op) = ops.pop() {
        let aid = aid_of(alloc, defs, &op)?;
        jobs.push_reserved(Job { op, aid });
    }
    Ok(jobs)
}

/// How many entries a line may gain.
fn gains(what: &What) -> usize
    ensures { result ≡ gains what.now }
{
    match what {
        What::Take { .. } | What::Steal { .. } => 1,
        What::Put { .. }
        | What::Close { .. }
        | What::Ack { .. }
        | What::Release { .. }
        | What::Lock { .. }
        | What::Unlock { .. }
        | What::Begin
        | What::Commit
        | What::Rollback => 0,
    }
}

/// How many entries these lines may gain.
fn all_gains(jobs: &[Job]) -> usize
    ensures { result ≡ all_gains jobs.now }
{
    let mut all = 0;
    'lines: for job in jobs {
        all += gains(&job.op.what);
    }
    all
}

/// How many takes these lines have for each consumer.
fn all_takes(jobs: &[Job]) -> [u64; CONSUMERS]
    requires { AllByRecursion (λ j. TakesWithin j.op.what) jobs.now }
    ensures { (c : ℕ) → c < 64 → slice_get result c ≡ Some (count_by (λ j. takes_for c j.op.what) jobs.now) }
{
    let mut takes = [0; CONSUMERS];
    'lines: for job in jobs {
        if let What::Take { consumer } = &job.op.what {
            takes[*consumer as usize] += 1;
        }
    }
    takes
}

/// Takes memory in each target for so many deliveries more.
fn prepare_all(roster: &mut Roster, takes: &[u64; CONSUMERS]) -> Result<(), NoMemory>
    ensures stays { SeatsStay
        (map (option_map (λ b. seat (b.vtable, b.value))) roster.old.slots)
        (map (option_map (λ b. seat (b.vtable, b.value))) roster.new.slots) }
    ensures ready { IfOk result (λ u. (c n : ℕ) → slice_get takes.now c ≡ Some n
        → IsReady n (seat_at (map (option_map (λ b. seat (b.vtable, b.value))) roster.new.slots) c)) }
{
    'consumers: for consumer in 0..CONSUMERS {
        roster.prepare(consumer as u32, takes[consumer])?;
    }
    Ok(())
}

/// Takes what the lines need.
fn equip(
    alloc: Global,
    defs: &Defs,
    ops: Vec<Op>,
    roster: &mut Roster,
    room: Rooms,
) -> Result<Gear, NoMemory>
    requires allowed { AreAllowed (queues_in defs.now) }
    requires own { AllByRecursion (IsOwnLine (queues_in defs.now)) ops.items }
    ensures lines { IfOk result (λ g. lines_of g.jobs.items ≡ ops.items) }
    ensures fits { IfOk result (λ g. AllByRecursion (λ j. JobFits (queues_in defs.now) j.op.what j.aid) g.jobs.items) }
    ensures serves { (sights : List Sight)
        → AllByRecursion (λ op. ArePassesFor op.actor (queues_in defs.now) sights) ops.items
        → IfOk result (λ g. AllByRecursion (ServesJob sights) g.jobs.items) }
    ensures stays { SeatsStay
        (map (option_map (λ b. seat (b.vtable, b.value))) roster.old.slots)
        (map (option_map (λ b. seat (b.vtable, b.value))) roster.new.slots) }
    ensures ready { IfOk result (λ g. MayTakeAll
        (map (option_map (λ b. seat (b.vtable, b.value))) roster.new.slots) g.jobs.items) }
    ensures held { IfOk result (λ g. (g.held.items ≡ []) × (all_gains g.jobs.items ≤ vec_capacity g.held)) }
    ensures log { IfOk result (λ g. (g.log.items ≡ []) × (vec_len g.jobs ≤ vec_capacity g.log)) }
    ensures stopped { IfOk result (λ g. g.stopped.items ≡ replicate (length (queues_in defs.now)) false) }
    ensures drops { IfOk result (λ g. (g.drops.items ≡ []) × (room.drops ≤ vec_capacity g.drops)) }
    ensures body { IfOk result (λ g. room.body ≤ g.body.room) }
{
    let jobs = jobs_of(alloc, defs, ops)?;
    let Ok(held) = Vec::with_capacity(alloc, all_gains(&jobs)) else {
        return Err(NoMemory);
    };
    let Ok(log) = Vec::with_capacity(alloc, jobs.len()) else {
        return Err(NoMemory);
    };
    let Ok(stopped) = Vec::from_elem(alloc, false, defs.queues.len()) else {
        return Err(NoMemory);
    };
    let Ok(drops) = Vec::with_capacity(alloc, room.drops as usize) else {
        return Err(NoMemory);
    };
    let body = Buffer::with_room(alloc, room.body)?;
    prepare_all(roster, &all_takes(&jobs))?;
    Ok(Gear {
        jobs,
        held,
        stopped,
        log,
        drops,
        body,
    })
}
