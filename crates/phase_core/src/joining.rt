//! What actors had is given back when they have run.
ghost use Rattle.std.specs.Prelude.{◌≡◌, ◌≢◌, ◌+◌, ◌<◌, ◌≤◌, ℕ, Some, [], length, map, slice_get, vec_capacity, vec_len};
ghost use Rattle.std.specs.Option.{option_map};
ghost use Rattle.acts_core.specs.Sight.{Sight};
ghost use Rattle.any_queue.specs.Kinds.{ServesAny, sight_in};
ghost use Rattle.any_queue.specs.Parting.{IsJoined};
ghost use Rattle.phase_actors.specs.Passes.{IsBoss};
ghost use Rattle.phase_actors.specs.Targets.{TakesBack};
ghost use Rattle.phase_core.specs.Joining.{AreJoined, AreOfCaller, HaveJoined, HaveReturned, SameOpenings};
ghost use Rattle.workers_core.specs.Ready.{AllServe};

use any_queue::{AnyPass, AnyQueue};
use phase_actors::return_targets;
use phase_text::Log;
use std::sync::Wait;
use target_core::Roster;
use txn_core::Parcel;
use workers_core::Actor;

/// Joins a pass into the boss's of the queue of this number.
fn join_pass<R: Wait + Send + Sync + Drop>(
    queues: &[AnyQueue<Parcel, R>],
    bosses: &mut Vec<AnyPass>,
    number: usize,
    pass: AnyPass,
)
    requires as_many { length queues.now ≡ vec_len bosses.old }
    requires within { number < length queues.now }
    requires serve { AllServe ServesAny queues.now bosses.old.items }
    requires serves { (queue : _) → slice_get queues.now number ≡ Some queue
        → ServesAny queue pass }
    requires opening { (s : Sight) → slice_get (map sight_in bosses.old.items) number ≡ Some s
        → (sight_in pass).opening ≡ s.opening }
    ensures as_many { vec_len bosses.new ≡ vec_len bosses.old }
    ensures serve { AllServe ServesAny queues.now bosses.new.items }
    ensures joined { (s t : Sight) → slice_get (map sight_in bosses.old.items) number ≡ Some s
        → slice_get (map sight_in bosses.new.items) number ≡ Some t → IsJoined s (sight_in pass) t }
    ensures others { (q : ℕ) → q ≢ number
        → slice_get (map sight_in bosses.new.items) q
        ≡ slice_get (map sight_in bosses.old.items) q }
{
    let queue = &queues[number];
    let boss = &mut bosses[number];
    queue.join(boss, pass);
}

/// Joins an actor's passes, one of each queue, into the bosses'.
fn join_passes<R: Wait + Send + Sync + Drop>(
    queues: &[AnyQueue<Parcel, R>],
    bosses: &mut Vec<AnyPass>,
    passes: Vec<AnyPass>,
)
    requires as_many { length queues.now ≡ vec_len bosses.old }
    requires one_each { length queues.now ≡ vec_len passes }
    requires serve { AllServe ServesAny queues.now bosses.old.items }
    requires serves { AllServe ServesAny queues.now passes.items }
    requires openings { SameOpenings (map sight_in bosses.old.items) (map sight_in passes.items) }
    ensures serve { AllServe ServesAny queues.now bosses.new.items }
    ensures joined { AreJoined (map sight_in bosses.old.items) (map sight_in passes.items)
        (map sight_in bosses.new.items) }
{
    let mut passes = passes;
    'passes: while let Some(pass) = passes.pop() {
        join_pass(queues, bosses, passes.len(), pass);
    }
}

/// Gives back what an actor had that has run: its passes to the bosses, and its targets to the roster. What is left is
/// its log, with what it dropped.
fn join_actor<R: Wait + Send + Sync + Drop>(
    queues: &[AnyQueue<Parcel, R>],
    bosses: &mut Vec<AnyPass>,
    actor: Actor<AnyQueue<Parcel, R>>,
    roster: &mut Roster,
) -> Log
    requires as_many { length queues.now ≡ vec_len bosses.old }
    requires one_each { length queues.now ≡ vec_len actor.passes }
    requires serve { AllServe ServesAny queues.now bosses.old.items }
    requires serves { AllServe ServesAny queues.now actor.passes.items }
    requires openings { SameOpenings (map sight_in bosses.old.items)
        (map sight_in actor.passes.items) }
    ensures serve { AllServe ServesAny queues.now bosses.new.items }
    ensures joined { AreJoined (map sight_in bosses.old.items) (map sight_in actor.passes.items)
        (map sight_in bosses.new.items) }
    ensures targets { TakesBack
        (map (option_map (λ b. seat (b.vtable, b.value))) roster.old.slots)
        (map (option_map (λ b. seat (b.vtable, b.value))) actor.roster.slots)
        (map (option_map (λ b. seat (b.vtable, b.value))) roster.new.slots) }
    ensures log { (result.name ≡ actor.name) × (result.lines.items ≡ actor.log.items)
        × (result.drops.items ≡ actor.drops.items) }
{
    let Actor {
        name,
        number: _number,
        jobs: _jobs,
        passes,
        held: _held,
        roster: own,
        stopped: _stopped,
        log,
        drops,
        body: _body,
        alloc: _alloc,
    } = actor;
    join_passes(queues, bosses, passes);
    let mut own = own;
    return_targets(&mut own, roster);
    Log {
        name,
        lines: log,
        drops,
    }
}

/// Gives back what all actors of a phase had when they have run: joins their passes into the bosses', moves their
/// targets back to the roster, and keeps the log of each, in their order. The first is caller 1. Takes no memory.
pub(crate) fn join_actors<R: Wait + Send + Sync + Drop>(
    queues: &[AnyQueue<Parcel, R>],
    bosses: &mut Vec<AnyPass>,
    actors: Vec<Actor<AnyQueue<Parcel, R>>>,
    roster: &mut Roster,
    logs: &mut Vec<Log>,
)
    requires as_many { length queues.now ≡ vec_len bosses.old }
    requires serve { AllServe ServesAny queues.now bosses.old.items }
    requires bosses { (q : ℕ) (s : Sight) → slice_get (map sight_in bosses.old.items) q ≡ Some s
        → IsBoss s.opening (vec_len actors + 1) [] s }
    requires serves { (i : ℕ) (a : _) → slice_get actors.items i ≡ Some a
        → AllServe ServesAny queues.now a.passes.items }
    requires passes { (i : ℕ) (a : _) → slice_get actors.items i ≡ Some a
        → AreOfCaller (map sight_in bosses.old.items) (i + 1) (map sight_in a.passes.items) }
    requires logs { (logs.old.items ≡ []) × (vec_len actors ≤ vec_capacity logs.old) }
    ensures serve { AllServe ServesAny queues.now bosses.new.items }
    ensures joined { HaveJoined (map (λ a. map sight_in a.passes.items) actors.items)
        (map sight_in bosses.old.items) (map sight_in bosses.new.items) }
    ensures targets { HaveReturned
        (map (option_map (λ b. seat (b.vtable, b.value))) roster.old.slots)
        (map (λ a. map (option_map (λ b. seat (b.vtable, b.value))) a.roster.slots) actors.items)
        (map (option_map (λ b. seat (b.vtable, b.value))) roster.new.slots) }
    ensures names { map (λ l. l.name) logs.new.items ≡ map (λ a. a.name) actors.items }
    ensures logs { map (λ l. l.lines.items) logs.new.items ≡ map (λ a. a.log.items) actors.items }
    ensures drops { map (λ l. l.drops.items) logs.new.items ≡ map (λ a. a.drops.items) actors.items }
{
    let mut actors = actors;
    actors.reverse();
    'actors: while let Some(actor) = actors.pop() {
        let log = join_actor(queues, bosses, actor, roster);
        logs.push_reserved(log);
    }
    actors.destroy_empty();
}
