//! Takes: an entry goes into the hands, and its body to the consumer's target.
ghost use Rattle.std.specs.Prelude.{ℕ, Bool, List, vec_len, vec_capacity, map, slice_set, Some, None, ◌<◌, ◌+◌, ◌≤◌, ◌≡◌};
ghost use Rattle.std.specs.Option.{option_map};
ghost use mathlib.Core.List.{Mem};
ghost use Rattle.defs_read.specs.Defined.{Defined};
ghost use Rattle.report_core.specs.declared.answers.Dropped.{Dropped};
ghost use Rattle.script_read.specs.declared.lines.What.TheVariants.{Take};
ghost use Rattle.target_core.specs.Seats.{Seat, seat_at, served};
ghost use Rattle.target_core.specs.declared.deliveries.Delivery.{Delivery};
ghost use Rattle.txn_core.specs.Parcels.{load_of};
ghost use Rattle.workers_core.specs.Held.{hands_of};
ghost use Rattle.workers_core.specs.Hold.{Hold, KeepsOthers};
ghost use Rattle.line_core.specs.Places.{IsDelivery, IsReady, place_of};
ghost use Rattle.line_core.specs.Runs.{DidOn};

use crate::held::{Kept, gain};
use acts_core::{Cargo, Next, SharedQueue};
use report_core::Answer;
use target_core::{Delivery, Handed, Roster, sum};
use txn_core::Parcel;

/// Hands an entry of a queue to its consumer's target, which has room.
fn hand_over(roster: &mut Roster, queue: u32, consumer: u32, cargo: &Parcel)
    requires number { consumer < 64 }
    requires room { (s : Seat)
        × (seat_at (map (option_map (λ b. seat (b.vtable, b.value))) roster.old.slots) consumer ≡ Some s)
        × (0 < s.room) }
    ensures handed { (s : Seat)
        → seat_at (map (option_map (λ b. seat (b.vtable, b.value))) roster.old.slots) consumer ≡ Some s
        → (d : Delivery) × IsDelivery consumer queue (load_of cargo.now).count (load_of cargo.now) d
        × (map (option_map (λ b. seat (b.vtable, b.value))) roster.new.slots
        ≡ slice_set (map (option_map (λ b. seat (b.vtable, b.value))) roster.old.slots)
        consumer (Some (served s d))) }
{
    let message = cargo.message();
    let body = message.body();
    let delivery = Delivery {
        consumer,
        queue,
        id: cargo.id(),
        delivered: cargo.delivered(),
        length: body.len() as u64,
        sum: sum(body),
    };
    match roster.hand(delivery, body) {
        Handed::Taken => {}
        Handed::NoCredit | Handed::Closed => unreachable!(),
    }
}

/// Does a take line: for the consumer of this number, which is the one of this place in the queue.
pub(crate) fn take_line<Q: SharedQueue<Parcel>>(
    queue: &Q,
    pass: &mut Q::Pass,
    held: &mut Vec<Kept>,
    roster: &mut Roster,
    number: u32,
    place: u32,
    consumer: u32,
) -> Answer
    requires serves { Q.serves queue.now pass.old }
    requires hold { Hold (Q.sight pass.old) number (hands_of held.old.items) }
    requires place { Mem place (Q.sight pass.old).consumers }
    requires number { consumer < 64 }
    requires ready { IsReady 1 (seat_at (map (option_map (λ b. seat (b.vtable, b.value))) roster.old.slots) consumer) }
    requires room { vec_len held.old < vec_capacity held.old }
    ensures serves { Q.serves queue.now pass.new }
    ensures hold { Hold (Q.sight pass.new) number (hands_of held.new.items) }
    ensures others { KeepsOthers number (hands_of held.old.items) (hands_of held.new.items) }
    ensures did { (defs : List Defined) (stopped : List Bool) (drops : List Dropped)
        → place_of defs consumer ≡ Some (number, place)
        → DidOn defs (Q.build queue.now) number (Q.sight pass.old)
        (record {
          hands = hands_of held.old.items;
          seats = map (option_map (λ b. seat (b.vtable, b.value))) roster.old.slots;
          stopped = stopped;
          drops = drops;
        })
        (Take consumer) result (Q.sight pass.new)
        (record {
          hands = hands_of held.new.items;
          seats = map (option_map (λ b. seat (b.vtable, b.value))) roster.new.slots;
          stopped = stopped;
          drops = drops;
        }) }
    ensures room { (vec_len held.new ≤ vec_len held.old + 1) × (vec_capacity held.new ≡ vec_capacity held.old) }
{
    match roster.room(consumer) {
        None => Answer::Closed,
        Some(0) => Answer::NoCredit,
        Some(_) => match queue.next(pass, place) {
            Next::Empty => Answer::Empty,
            Next::Got { row, cargo } => {
                let mut cargo = cargo;
                cargo.raise();
                let id = cargo.id();
                let count = cargo.count();
                hand_over(roster, number, consumer, &cargo);
                gain(
                    held,
                    Kept {
                        queue: number,
                        row,
                        id,
                        cargo: Some(cargo),
                    },
                );
                Answer::Got { id, number: count }
            }
        },
    }
}
