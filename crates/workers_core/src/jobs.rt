//! Lines with what was found out about them before their phase began.
ghost use Rattle.std.specs.Prelude.{ℕ, List, Some, None, true, false, vec_len, vec_capacity, map, length, slice_get, slice_set, ◌<◌, ◌+◌, ◌≤◌, ◌≡◌};
ghost use Rattle.std.specs.Option.{option_map};
ghost use Rattle.defs_read.specs.Defined.{Defined, queues_in};
ghost use Rattle.target_core.specs.Seats.{seat_at};
ghost use Rattle.line_core.specs.Places.{kind_of};
ghost use Rattle.workers_core.specs.Drops.{HasRoom, ServesPolicies, displaces, droppable, left_to, puts_to_ring};
ghost use Rattle.workers_core.specs.Held.{hands_of};
ghost use Rattle.workers_core.specs.Hold.{Hold, KeepsOthers};
ghost use Rattle.workers_core.specs.Jobs.{JobFits, MayDo, SeatReady, gains, is_put};
ghost use Rattle.line_core.specs.Runs.{DidOn};

use crate::acks::{ack_line, release_line};
use crate::held::Kept;
use crate::locks::{lock_line, unlock_line};
use crate::puts::put_line;
use crate::steals::steal_line;
use crate::takes::take_line;
use acts_core::{SharedQueue, Slip};
use defs_read::Defs;
use report_core::{Answer, Dropped};
use script_read::{Op, What};
use target_core::Roster;
use txn_core::Parcel;

/// What a line needs beside its words: a put the slip of its message, and a take its consumer's queue and its place
/// there.
#[derive(Drop)]
pub enum Aid {
    Nothing,
    Slip(Slip),
    Place { queue: u32, place: u32 },
}

/// A line, and what it needs beside its words.
#[derive(Drop)]
pub struct Job {
    pub op: Op,
    pub aid: Aid,
}

/// Does a line on a queue.
pub(crate) fn on_queue<Q: SharedQueue<Parcel>>(
    defs: &Defs,
    queue: &Q,
    pass: &mut Q::Pass,
    held: &mut Vec<Kept>,
    roster: &mut Roster,
    stopped: &mut Vec<bool>,
    drops: &mut Vec<Dropped>,
    number: u32,
    what: What,
    aid: Aid,
) -> Answer
    requires serves { Q.serves queue.now pass.old }
    requires hold { Hold (Q.sight pass.old) number (hands_of held.old.items) }
    requires kind { (def : Defined) → slice_get (queues_in defs.now) number ≡ Some def
        → (Q.build queue.now).kind ≡ kind_of def.kind }
    requires policies { ServesPolicies (queues_in defs.now) }
    requires fits { JobFits (queues_in defs.now) what aid }
    requires may { MayDo number (Q.sight pass.old) what aid }
    requires ready { SeatReady what (map (option_map (λ b. seat (b.vtable, b.value))) roster.old.slots) }
    requires room { vec_len held.old + gains what ≤ vec_capacity held.old }
    requires stopped { vec_len stopped.old ≡ length (queues_in defs.now) }
    requires drops { is_put what ≡ true → (def : Defined) → slice_get (queues_in defs.now) number ≡ Some def
        → HasRoom (droppable def.limits (Q.build queue.now) (Q.sight pass.old)) (vec_len drops.old)
        (vec_capacity drops.old) }
    ensures serves { Q.serves queue.now pass.new }
    ensures hold { Hold (Q.sight pass.new) number (hands_of held.new.items) }
    ensures others { KeepsOthers number (hands_of held.old.items) (hands_of held.new.items) }
    ensures did { DidOn (queues_in defs.now) (Q.build queue.now) number (Q.sight pass.old)
        (record {
          hands = hands_of held.old.items;
          seats = map (option_map (λ b. seat (b.vtable, b.value))) roster.old.slots;
          stopped = stopped.old.items;
          drops = drops.old.items;
        })
        what result (Q.sight pass.new)
        (record {
          hands = hands_of held.new.items;
          seats = map (option_map (λ b. seat (b.vtable, b.value))) roster.new.slots;
          stopped = stopped.new.items;
          drops = drops.new.items;
        }) }
    ensures room { (vec_len held.new ≤ vec_len held.old + gains what)
        × (vec_capacity held.new ≡ vec_capacity held.old) }
    ensures stopped { vec_len stopped.new ≡ vec_len stopped.old }
    ensures drops { vec_capacity drops.new ≡ vec_capacity drops.old }
    ensures left { is_put what ≡ true
        → vec_len drops.new + left_to (Q.build queue.now) (Q.sight pass.new)
        ≤ vec_len drops.old + left_to (Q.build queue.now) (Q.sight pass.old) }
    ensures few { puts_to_ring (queues_in defs.now) what ≡ false
        → vec_len drops.new ≤ vec_len drops.old + displaces (queues_in defs.now) what }
    ensures same { is_put what ≡ false → vec_len drops.new ≡ vec_len drops.old }
{
    match what {
        What::Put {
            queue: _queue,
            message,
        } => match aid {
            Aid::Slip(slip) => put_line(
                defs, queue, pass, held, stopped, drops, number, message, slip,
            ),
            Aid::Nothing | Aid::Place { .. } => unreachable!(),
        },
        What::Take { consumer } => match aid {
            Aid::Place { queue: _, place } => take_line(
                queue, pass, held, roster, number, place, consumer,
            ),
            Aid::Nothing | Aid::Slip(_) => unreachable!(),
        },
        What::Ack { queue: _queue, id } => ack_line(queue, pass, held, number, id),
        What::Release { queue: _queue, id } => release_line(queue, pass, held, number, id),
        What::Lock { queue: _queue, id } => lock_line(queue, pass, held, number, id),
        What::Unlock { queue: _queue, id } => unlock_line(queue, pass, held, number, id),
        What::Steal { queue: _queue, id } => steal_line(queue, pass, held, number, id),
        What::Close { .. } | What::Begin | What::Commit | What::Rollback => unreachable!(),
    }
}
