//! Puts.
ghost use Rattle.std.specs.Prelude.{ℕ, List, None, Some, false, map, length, slice_get, slice_set, vec_len, vec_capacity, ◌<◌, ◌+◌, ◌≤◌, ◌≡◌};
ghost use Rattle.acts_core.specs.Asked.{KeyFits, MayPut};
ghost use Rattle.acts_core.specs.Sight.{known};
ghost use Rattle.defs_read.specs.Defined.{Defined, queues_in};
ghost use Rattle.defs_read.specs.Slips.{IsSlip};
ghost use Rattle.message_core.specs.Spelling.{Content};
ghost use Rattle.overflow_core.specs.Limits.{is_ring};
ghost use Rattle.queue_model.specs.Table.{FitsQueue};
ghost use Rattle.report_core.specs.declared.answers.Answer.TheVariants.{Accepted};
ghost use Rattle.script_read.specs.declared.lines.What.TheVariants.{Put};
ghost use Rattle.txn_core.specs.Parcels.{load_of, shown};
ghost use Rattle.line_core.specs.Fits.{Standing, fresh, span_of};
ghost use Rattle.line_core.specs.Places.{kind_of};
ghost use Rattle.line_core.specs.Runs.{DidOn};
ghost use Rattle.workers_core.specs.Drops.{HasRoom, IsServedPolicy, ServesPolicies, displaced_by, droppable, left_to};
ghost use Rattle.workers_core.specs.Held.{hands_of};
ghost use Rattle.workers_core.specs.Hold.{Hold, KeepsOthers};
ghost use Rattle.workers_core.specs.Lines.{Enters, EntersWith, IsSlipOn};

use crate::drops::{drop_older, trim};
use crate::held::Kept;
use acts_core::{Limits, Placed, SharedQueue, Slip};
use defs_read::Defs;
use message_core::Message;
use overflow_core::{Verdict, admit};
use report_core::{Answer, Dropped, Span};
use txn_core::Parcel;

/// Puts an entry that was admitted in place of its reservation, and drops what has to go for it.
fn enter<Q: SharedQueue<Parcel>>(
    queue: &Q,
    pass: &mut Q::Pass,
    limits: &Limits,
    held: &mut Vec<Kept>,
    drops: &mut Vec<Dropped>,
    number: u32,
    slip: Slip,
    cargo: Parcel,
) -> Answer
    requires serves { Q.serves queue.now pass.old }
    requires hold { Hold (Q.sight pass.old) number (hands_of held.old.items) }
    requires may { MayPut (Q.build queue.now).kind (known (Q.sight pass.old)) (Q.sight pass.old).caller
        slip (load_of cargo) }
    requires share { 0 < (Q.sight pass.old).share }
    requires room { HasRoom (droppable limits.now (Q.build queue.now) (Q.sight pass.old)) (vec_len drops.old)
        (vec_capacity drops.old) }
    ensures serves { Q.serves queue.now pass.new }
    ensures hold { Hold (Q.sight pass.new) number (hands_of held.new.items) }
    ensures others { KeepsOthers number (hands_of held.old.items) (hands_of held.new.items) }
    ensures did { EntersWith limits.now slip (load_of cargo) (Q.build queue.now) number
        (Q.sight pass.old) (hands_of held.old.items) drops.old.items
        (Q.sight pass.new) (hands_of held.new.items) drops.new.items result }
    ensures room { (vec_len held.new ≤ vec_len held.old) × (vec_capacity held.new ≡ vec_capacity held.old)
        × (vec_capacity drops.new ≡ vec_capacity drops.old) }
    ensures few { is_ring limits.now ≡ false
        → vec_len drops.new ≤ vec_len drops.old + displaced_by (Q.build queue.now).kind }
{
    let id = slip.id;
    let from = drops.len() as u32;
    match queue.put(pass, slip, cargo) {
        Placed::At { row: _, displaced } => {
            drop_older(queue, pass, held, drops, number, displaced);
            trim(queue, pass, limits, held, drops, number);
            let to = drops.len() as u32;
            Answer::Accepted {
                id,
                flowed: false,
                acquired: Span { from, to },
            }
        }
        Placed::Spent(_cargo) => unreachable!(),
    }
}

/// Does a put by the limits of its queue: the message has this slip there, and the parcel is of it. `stopped` is whether
/// flow control has stopped the actor on the queue.
fn put_by<Q: SharedQueue<Parcel>>(
    queue: &Q,
    pass: &mut Q::Pass,
    limits: &Limits,
    held: &mut Vec<Kept>,
    stopped: &mut bool,
    drops: &mut Vec<Dropped>,
    number: u32,
    slip: Slip,
    cargo: Parcel,
) -> Answer
    requires serves { Q.serves queue.now pass.old }
    requires hold { Hold (Q.sight pass.old) number (hands_of held.old.items) }
    requires policy { IsServedPolicy limits.now.policy }
    requires fits { FitsQueue (Q.sight pass.old).opening.lists (Q.sight pass.old).opening.consumers slip }
    requires key { KeyFits (Q.build queue.now).kind slip.key }
    requires same { (slip.id ≡ (load_of cargo).id) × (slip.size ≡ (load_of cargo).size) }
    requires allowed { 0 < (Q.sight pass.old).allowance }
    requires share { 0 < (Q.sight pass.old).share }
    requires room { HasRoom (droppable limits.now (Q.build queue.now) (Q.sight pass.old)) (vec_len drops.old)
        (vec_capacity drops.old) }
    ensures serves { Q.serves queue.now pass.new }
    ensures hold { Hold (Q.sight pass.new) number (hands_of held.new.items) }
    ensures others { KeepsOthers number (hands_of held.old.items) (hands_of held.new.items) }
    ensures did { (defs : List Defined) (s : Standing) (def : Defined) (m : Content)
        → slice_get defs number ≡ Some def → def.limits ≡ limits.now → IsSlip def m slip
        → m.persistent ≡ (shown cargo).message.persistent → load_of cargo ≡ fresh m
        → s.hands ≡ hands_of held.old.items → slice_get s.stopped number ≡ Some stopped.old
        → s.drops ≡ drops.old.items
        → DidOn defs (Q.build queue.now) number (Q.sight pass.old) s (Put number m) result (Q.sight pass.new)
        (record s {
          hands = hands_of held.new.items;
          stopped = slice_set s.stopped number stopped.new;
          drops = drops.new.items;
        }) }
    ensures room { (vec_len held.new ≤ vec_len held.old) × (vec_capacity held.new ≡ vec_capacity held.old)
        × (vec_capacity drops.new ≡ vec_capacity drops.old) }
    ensures left { vec_len drops.new + left_to (Q.build queue.now) (Q.sight pass.new)
        ≤ vec_len drops.old + left_to (Q.build queue.now) (Q.sight pass.old) }
    ensures few { is_ring limits.now ≡ false
        → vec_len drops.new ≤ vec_len drops.old + displaced_by (Q.build queue.now).kind }
{
    let persistent = cargo.persistent();
    match admit(queue, pass, limits, stopped, persistent, slip.size) {
        Verdict::Admitted => enter(queue, pass, limits, held, drops, number, slip, cargo),
        Verdict::Rejected(depth) => Answer::Rejected { depth },
        Verdict::Blocked(depth) => Answer::Blocked { depth },
        Verdict::Flowed => unreachable!(),
    }
}

/// Does a put line: the message has this slip in the queue of this number.
pub(crate) fn put_line<Q: SharedQueue<Parcel>>(
    defs: &Defs,
    queue: &Q,
    pass: &mut Q::Pass,
    held: &mut Vec<Kept>,
    stopped: &mut Vec<bool>,
    drops: &mut Vec<Dropped>,
    number: u32,
    message: Message,
    slip: Slip,
) -> Answer
    requires serves { Q.serves queue.now pass.old }
    requires hold { Hold (Q.sight pass.old) number (hands_of held.old.items) }
    requires policies { ServesPolicies (queues_in defs.now) }
    requires slip { IsSlipOn (queues_in defs.now) (Q.build queue.now) number message slip }
    requires fits { FitsQueue (Q.sight pass.old).opening.lists (Q.sight pass.old).opening.consumers slip }
    requires stopped { vec_len stopped.old ≡ length (queues_in defs.now) }
    requires allowed { 0 < (Q.sight pass.old).allowance }
    requires share { 0 < (Q.sight pass.old).share }
    requires room { (def : Defined) → slice_get (queues_in defs.now) number ≡ Some def
        → HasRoom (droppable def.limits (Q.build queue.now) (Q.sight pass.old)) (vec_len drops.old)
        (vec_capacity drops.old) }
    ensures serves { Q.serves queue.now pass.new }
    ensures hold { Hold (Q.sight pass.new) number (hands_of held.new.items) }
    ensures others { KeepsOthers number (hands_of held.old.items) (hands_of held.new.items) }
    ensures did { (s : Standing) → s.hands ≡ hands_of held.old.items → s.stopped ≡ stopped.old.items
        → s.drops ≡ drops.old.items
        → DidOn (queues_in defs.now) (Q.build queue.now) number (Q.sight pass.old) s (Put number message) result
        (Q.sight pass.new)
        (record s {
          hands = hands_of held.new.items;
          stopped = stopped.new.items;
          drops = drops.new.items;
        }) }
    ensures stopped { vec_len stopped.new ≡ vec_len stopped.old }
    ensures room { (vec_len held.new ≤ vec_len held.old) × (vec_capacity held.new ≡ vec_capacity held.old)
        × (vec_capacity drops.new ≡ vec_capacity drops.old) }
    ensures left { vec_len drops.new + left_to (Q.build queue.now) (Q.sight pass.new)
        ≤ vec_len drops.old + left_to (Q.build queue.now) (Q.sight pass.old) }
    ensures few { (def : Defined) → slice_get (queues_in defs.now) number ≡ Some def → is_ring def.limits ≡ false
        → vec_len drops.new ≤ vec_len drops.old + displaced_by (kind_of def.kind) }
{
    let limits = &defs.queues[number as usize].limits;
    let stop = &mut stopped[number as usize];
    let cargo = Parcel::of(message, None, 0);
    put_by(queue, pass, limits, held, stop, drops, number, slip, cargo)
}
