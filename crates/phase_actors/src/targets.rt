//! Targets go from the roster of a run to the actors of a phase, and back.
ghost use Rattle.std.specs.Prelude.{ℕ, List, map, ◌<◌, ◌≡◌};
ghost use Rattle.std.specs.List.{AllByRecursion};
ghost use Rattle.std.specs.Option.{option_map};
ghost use Rattle.target_core.specs.Seats.{IsBare, seat_at};
ghost use Rattle.phase_actors.specs.Targets.{MovesOne, MovesNamed, NamesWithin, TakesBack, all_back, named_in};

use any_queue::AnyQueue;
use script_read::{Op, What};
use std::sync::Wait;
use target_core::{CONSUMERS, Roster};
use txn_core::Parcel;
use workers_core::Actor;

/// The consumer that a line names.
fn consumer_of(what: &What) -> Option<u32>
    ensures { result ≡ named_in what.now }
{
    match what {
        What::Take { consumer } | What::Close { consumer } => Some(*consumer),
        What::Put { .. }
        | What::Ack { .. }
        | What::Release { .. }
        | What::Lock { .. }
        | What::Unlock { .. }
        | What::Steal { .. }
        | What::Begin
        | What::Commit
        | What::Rollback => None,
    }
}

/// Moves the target of a consumer, if one stands, to a roster in which none stands there.
fn move_target(consumer: u32, from: &mut Roster, to: &mut Roster)
    requires number { consumer < 64 }
    ensures { MovesOne consumer
        (map (option_map (λ b. seat (b.vtable, b.value))) from.old.slots)
        (map (option_map (λ b. seat (b.vtable, b.value))) to.old.slots)
        (map (option_map (λ b. seat (b.vtable, b.value))) from.new.slots)
        (map (option_map (λ b. seat (b.vtable, b.value))) to.new.slots) }
{
    if to.room(consumer).is_none() && from.room(consumer).is_some() {
        from.move_to(consumer, to);
    }
}

/// Moves the targets of the consumers that these lines name, where they stand, to a roster that has none.
pub(crate) fn move_targets(ops: &[Op], from: &mut Roster, to: &mut Roster)
    requires numbers { AllByRecursion (λ op. NamesWithin op.what) ops.now }
    requires bare { IsBare (map (option_map (λ b. seat (b.vtable, b.value))) to.old.slots) }
    ensures { MovesNamed ops.now
        (map (option_map (λ b. seat (b.vtable, b.value))) from.old.slots)
        (map (option_map (λ b. seat (b.vtable, b.value))) from.new.slots)
        (map (option_map (λ b. seat (b.vtable, b.value))) to.new.slots) }
{
    'lines: for op in ops {
        if let Some(consumer) = consumer_of(&op.what) {
            move_target(consumer, from, to);
        }
    }
}

/// Moves each target of a roster to another, where none stands in its place there. Takes no memory.
pub fn return_targets(from: &mut Roster, to: &mut Roster)
    ensures { TakesBack
        (map (option_map (λ b. seat (b.vtable, b.value))) to.old.slots)
        (map (option_map (λ b. seat (b.vtable, b.value))) from.old.slots)
        (map (option_map (λ b. seat (b.vtable, b.value))) to.new.slots) }
{
    'consumers: for consumer in 0..CONSUMERS {
        move_target(consumer as u32, from, to);
    }
}

/// Moves the targets of actors that will not run back to the roster.
pub(crate) fn give_back<R: Wait + Send + Sync + Drop>(
    actors: Vec<Actor<AnyQueue<Parcel, R>>>,
    roster: &mut Roster,
)
    ensures { (c : ℕ)
        → seat_at (map (option_map (λ b. seat (b.vtable, b.value))) roster.new.slots) c
        ≡ all_back c (seat_at (map (option_map (λ b. seat (b.vtable, b.value))) roster.old.slots) c)
        (map (λ a. map (option_map (λ b. seat (b.vtable, b.value))) a.roster.slots) actors.items) }
{
    let mut actors = actors;
    'actors: while let Some(actor) = actors.pop() {
        let Actor {
            name: _name,
            number: _number,
            jobs: _jobs,
            passes: _passes,
            held: _held,
            roster: own,
            stopped: _stopped,
            log: _log,
            drops: _drops,
            body: _body,
            alloc: _alloc,
        } = actor;
        let mut own = own;
        return_targets(&mut own, roster);
    }
    actors.destroy_empty();
}
