//! The lines of an actor, over all its passes.
ghost use Rattle.std.specs.Prelude.{reverse, false, ℕ, List, [], ◌∷◌, ◌++◌, map, length, slice_get, slice_set, vec_len, vec_capacity, IfSome, Some, None, ◌<◌, ◌+◌, ◌≤◌, ◌≡◌};
ghost use Rattle.std.specs.List.{AllByRecursion};
ghost use Rattle.std.specs.Option.{option_map};
ghost use Rattle.defs_read.specs.Defined.{queues_in};
ghost use Rattle.script_read.specs.declared.lines.What.TheVariants.{Close};
ghost use Rattle.line_core.specs.Places.{AreOfKinds};
ghost use Rattle.workers_core.specs.Drops.{HasRoom, ServesPolicies, all_drops, all_left, displaces, puts_to_ring};
ghost use Rattle.workers_core.specs.Held.{hands_of};
ghost use Rattle.workers_core.specs.Jobs.{JobFits, SeatReady, gains, queue_of};
ghost use Rattle.workers_core.specs.Phases.{lines_of};
ghost use Rattle.workers_core.specs.Ready.{AllServe, Holds, MayPutAll, MayTakeAll, ServesJob, Spends, all_gains};
ghost use Rattle.line_core.specs.Runs.{DidLines};

use crate::held::Kept;
use crate::jobs::{Aid, Job, on_queue};
use acts_core::SharedQueue;
use defs_read::Defs;
use outside_io::Gate;
use report_core::{Answer, Dropped};
use script_read::{Op, What};
use target_core::Roster;
use txn_core::Parcel;

/// The queue that a line is on; none for the close of a consumer.
fn queue_of(job: &Job) -> Option<u32>
    ensures { result ≡ queue_of job.now.op.what job.now.aid }
{
    match &job.op.what {
        What::Put { queue, .. }
        | What::Ack { queue, .. }
        | What::Release { queue, .. }
        | What::Lock { queue, .. }
        | What::Unlock { queue, .. }
        | What::Steal { queue, .. } => Some(*queue),
        What::Take { .. } => match &job.aid {
            Aid::Place { queue, .. } => Some(*queue),
            Aid::Nothing | Aid::Slip(_) => None,
        },
        What::Close { .. } | What::Begin | What::Commit | What::Rollback => None,
    }
}

/// Does a line: a close on the roster, and any other on its queue, by the actor's pass there.
pub(crate) fn do_job<Q: SharedQueue<Parcel>>(
    defs: &Defs,
    queues: &[Q],
    passes: &mut Vec<Q::Pass>,
    held: &mut Vec<Kept>,
    roster: &mut Roster,
    stopped: &mut Vec<bool>,
    drops: &mut Vec<Dropped>,
    job: Job,
) -> Answer
    requires as_many { length queues.now ≡ vec_len passes.old }
    requires serve { AllServe Q.serves queues.now passes.old.items }
    requires kinds { AreOfKinds (queues_in defs.now) (map Q.build queues.now) }
    requires policies { ServesPolicies (queues_in defs.now) }
    requires holds { Holds (map Q.sight passes.old.items) (hands_of held.old.items) }
    requires served { ServesJob (map Q.sight passes.old.items) job }
    requires fits { JobFits (queues_in defs.now) job.op.what job.aid }
    requires rights { MayPutAll (map Q.sight passes.old.items) (job ∷ []) }
    requires ready { SeatReady job.op.what (map (option_map (λ b. seat (b.vtable, b.value))) roster.old.slots) }
    requires room { vec_len held.old + gains job.op.what ≤ vec_capacity held.old }
    requires stopped { vec_len stopped.old ≡ length (queues_in defs.now) }
    requires drops { HasRoom (all_drops (queues_in defs.now)
        (all_left (map Q.build queues.now) (map Q.sight passes.old.items)) (job.op ∷ []))
        (vec_len drops.old) (vec_capacity drops.old) }
    ensures serve { AllServe Q.serves queues.now passes.new.items }
    ensures holds { Holds (map Q.sight passes.new.items) (hands_of held.new.items) }
    ensures spends { Spends job.op.what (map Q.sight passes.old.items) (map Q.sight passes.new.items) }
    ensures did { DidLines (queues_in defs.now) (map Q.build queues.now) (map Q.sight passes.old.items)
        (record {
          hands = hands_of held.old.items;
          seats = map (option_map (λ b. seat (b.vtable, b.value))) roster.old.slots;
          stopped = stopped.old.items;
          drops = drops.old.items;
        })
        (job.op ∷ []) (result ∷ []) (map Q.sight passes.new.items)
        (record {
          hands = hands_of held.new.items;
          seats = map (option_map (λ b. seat (b.vtable, b.value))) roster.new.slots;
          stopped = stopped.new.items;
          drops = drops.new.items;
        }) }
    ensures room { (vec_len held.new ≤ vec_len held.old + gains job.op.what)
        × (vec_capacity held.new ≡ vec_capacity held.old) }
    ensures stopped { vec_len stopped.new ≡ vec_len stopped.old }
    ensures drops { vec_capacity drops.new ≡ vec_capacity drops.old }
    ensures left { vec_len drops.new + all_left (map Q.build queues.now) (map Q.sight passes.new.items)
        ≤ vec_len drops.old + all_left (map Q.build queues.now) (map Q.sight passes.old.items) }
    ensures few { puts_to_ring (queues_in defs.now) job.op.what ≡ false
        → vec_len drops.new ≤ vec_len drops.old + displaces (queues_in defs.now) job.op.what }
{
    let number = queue_of(&job);
    let Job { op, aid } = job;
    let Op {
        line: _,
        actor: _,
        what,
    } = op;
    match number {
        None => match what {
            What::Close { consumer } => {
                roster.close(consumer);
                Answer::Closed
            }
            _ => unreachable!(),
        },
        Some(number) => {
            let queue = &queues[number as usize];
            let pass = &mut passes[number as usize];
            on_queue(
                defs, queue, pass, held, roster, stopped, drops, number, what, aid,
            )
        }
    }
}

/// Does lines in order, of which the last is the first, and keeps each line's number and answer.
pub(crate) fn run_jobs<Q: SharedQueue<Parcel>, G: Gate>(
    defs: &Defs,
    queues: &[Q],
    passes: &mut Vec<Q::Pass>,
    held: &mut Vec<Kept>,
    roster: &mut Roster,
    stopped: &mut Vec<bool>,
    drops: &mut Vec<Dropped>,
    log: &mut Vec<(u64, Answer)>,
    jobs: Vec<Job>,
    gate: &G,
)
    requires as_many { length queues.now ≡ vec_len passes.old }
    requires serve { AllServe Q.serves queues.now passes.old.items }
    requires kinds { AreOfKinds (queues_in defs.now) (map Q.build queues.now) }
    requires policies { ServesPolicies (queues_in defs.now) }
    requires holds { Holds (map Q.sight passes.old.items) (hands_of held.old.items) }
    requires served { AllByRecursion (ServesJob (map Q.sight passes.old.items)) jobs.items }
    requires fits { AllByRecursion (λ j. JobFits (queues_in defs.now) j.op.what j.aid) jobs.items }
    requires rights { MayPutAll (map Q.sight passes.old.items) jobs.items }
    requires ready { MayTakeAll (map (option_map (λ b. seat (b.vtable, b.value))) roster.old.slots) jobs.items }
    requires room { vec_len held.old + all_gains jobs.items ≤ vec_capacity held.old }
    requires stopped { vec_len stopped.old ≡ length (queues_in defs.now) }
    requires drops { HasRoom (all_drops (queues_in defs.now)
        (all_left (map Q.build queues.now) (map Q.sight passes.old.items)) (lines_of jobs.items))
        (vec_len drops.old) (vec_capacity drops.old) }
    requires log { (log.old.items ≡ []) × (vec_len jobs ≤ vec_capacity log.old) }
    ensures as_many { vec_len passes.new ≡ vec_len passes.old }
    ensures serve { AllServe Q.serves queues.now passes.new.items }
    ensures holds { Holds (map Q.sight passes.new.items) (hands_of held.new.items) }
    ensures numbers { map (λ e. e.0) log.new.items ≡ map (λ j. j.op.line) (reverse jobs.items) }
    ensures did { DidLines (queues_in defs.now) (map Q.build queues.now) (map Q.sight passes.old.items)
        (record {
          hands = hands_of held.old.items;
          seats = map (option_map (λ b. seat (b.vtable, b.value))) roster.old.slots;
          stopped = stopped.old.items;
          drops = drops.old.items;
        })
        (map (λ j. j.op) (reverse jobs.items)) (map (λ e. e.1) log.new.items) (map Q.sight passes.new.items)
        (record {
          hands = hands_of held.new.items;
          seats = map (option_map (λ b. seat (b.vtable, b.value))) roster.new.slots;
          stopped = stopped.new.items;
          drops = drops.new.items;
        }) }
{
    let mut jobs = jobs;
    'lines: while let Some(job) = jobs.pop() {
        let line = job.op.line;
        gate.before(line);
        let answer = do_job(defs, queues, passes, held, roster, stopped, drops, job);
        log.push_reserved((line, answer));
        gate.after(line);
    }
}
