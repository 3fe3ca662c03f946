//! The executable state of a queue: the plain program of the table of acts.
ghost use Rattle.std.specs.Prelude.{◌≡◌, ◌↔◌, IsTrue, IfOk, OnOk, OnErr, IfErr};
ghost use Rattle.queue_model.specs.State.{empty, entries};
ghost use Rattle.queue_model.specs.Table.{acted, Can, CanEnqueue};

use crate::deeds::{Act, Deed, Unapplied};
use crate::field_lists;
use crate::limits::MOST_ENTRIES;
use crate::queues::{Bell, Reservation};
use crate::rows::{Row, RowState, Slip};
use byte_lists::{MOST_BYTES, NoMemory};
use std::alloc::Global;
use std::marker::Model;

/// A queue's state that a program can keep and change, one deed at a time. It is meant for small
/// queues: each deed looks through the rows.
#[derive(Debug, Drop)]
pub struct QueueState {
    lists: u32,
    consumers: u32,
    rows: Vec<Row>,
    reserved: Vec<Reservation>,
    bells: Vec<Bell>,
}

impl Model for QueueState {
    ghost use Rattle.queue_model.specs.declared.queues.Queue.{Queue};
    ghost use Rattle.queue_model.specs.Sound.{Sound};

    ghost Value = { Queue };

    ghost view = { λ s. record { lists = s.lists; consumers = s.consumers; rows = s.rows.items; reserved = s.reserved.items; bells = s.bells.items } };

    ghost invariant = { λ s. Sound (record { lists = s.lists; consumers = s.consumers; rows = s.rows.items; reserved = s.reserved.items; bells = s.bells.items }) };
}

impl QueueState {
    ghost use Rattle.queue_model.specs.Applied.{Applies};

    /// A queue with so many lists and consumers, and nothing in it. Refuses only for want of memory.
    pub fn fresh(alloc: Global, lists: u32, consumers: u32) -> Result<QueueState, NoMemory>
        ensures { IfOk result (λ q. q ≡ empty lists consumers) }
    {
        Ok(QueueState {
            lists,
            consumers,
            rows: Vec::new(alloc),
            reserved: Vec::new(alloc),
            bells: Vec::new(alloc),
        })
    }

    /// Applies one deed, as the table of acts says. `Illegal` comes exactly where the table has no step
    /// for it, and `NoMemory` only where it has one. Either hands the deed back, and the state is as
    /// before.
    pub fn apply(&mut self, deed: Deed) -> Result<(), Unapplied>
        ensures { Applies result self.old self.new deed }
    {
        if !self.can(deed.caller, &deed.act) {
            return Err(Unapplied::Illegal(deed));
        }
        let Deed { caller, act } = deed;
        match self.perform(caller, act) {
            Ok(()) => Ok(()),
            Err(act) => Err(Unapplied::NoMemory(Deed { caller, act })),
        }
    }

    /// Whether the act of this caller has a step.
    fn can(&self, caller: u64, act: &Act) -> bool
        ensures { IsTrue result ↔ Can self.now caller act.now }
    {
        match act {
            Act::Acq { row } => field_lists::is_in(&self.rows, *row, RowState::Available),
            Act::Lock { row } => field_lists::is_in(&self.rows, *row, RowState::Unlocked(caller)),
            Act::Unlock { row, .. } => field_lists::is_in(
                &self.rows,
                *row,
                RowState::Locked(caller),
            ),
            Act::Steal { row } => field_lists::is_unlocked(&self.rows, *row),
            Act::Rel { row, .. } => field_lists::is_in(&self.rows, *row, RowState::Locked(caller)),
            Act::Deq { row } => field_lists::is_in(&self.rows, *row, RowState::Locked(caller)),
            Act::Del { row } => field_lists::is_in(&self.rows, *row, RowState::Dequeued),
            Act::Reserve { size } => *size <= MOST_BYTES && self.entries() < MOST_ENTRIES,
            Act::GiveBack { size } => field_lists::can_give(&self.reserved, caller, *size),
            Act::Enq { row, slip, .. } => self.can_enqueue(caller, *row, slip),
            Act::Bell { row, consumer } => {
                field_lists::has_row(&self.rows, *row) && *consumer < self.consumers
            }
            Act::Take { consumer, list } => *consumer < self.consumers && *list < self.lists,
        }
    }

    /// The entries of the depth.
    fn entries(&self) -> u64
        ensures { result ≡ entries self.now }
    {
        field_lists::counted_rows(&self.rows) as u64 + field_lists::reserved_entries(&self.reserved)
    }

    /// Whether a new row of this number and slip may come.
    fn can_enqueue(&self, caller: u64, row: u64, slip: &Slip) -> bool
        ensures { IsTrue result ↔ CanEnqueue self.now caller row slip.now }
    {
        !field_lists::has_row(&self.rows, row)
            && slip.size <= MOST_BYTES
            && slip.list < self.lists
            && field_lists::fits_mask(slip.mask, self.consumers)
            && field_lists::can_give(&self.reserved, caller, slip.size)
    }

    /// Does the step of an act that has one. Want of memory alone refuses, and hands the act back.
    fn perform(&mut self, caller: u64, act: Act) -> Result<(), Act>
        requires { Can self.old caller act }
        ensures ok { OnOk result (self.new ≡ acted self.old caller act) }
        ensures err { IfErr result (λ refused. refused ≡ act) }
        ensures same { OnErr result (self.new ≡ self.old) }
    {
        match act {
            Act::Acq { row } => {
                field_lists::set_state(&mut self.rows, row, RowState::Locked(caller));
                Ok(())
            }
            Act::Lock { row } => {
                field_lists::set_state(&mut self.rows, row, RowState::Locked(caller));
                Ok(())
            }
            Act::Steal { row } => {
                field_lists::set_state(&mut self.rows, row, RowState::Locked(caller));
                Ok(())
            }
            Act::Del { row } => {
                field_lists::set_state(&mut self.rows, row, RowState::Deleted);
                Ok(())
            }
            Act::Unlock { row, count } => {
                field_lists::leave_in(&mut self.rows, row, RowState::Unlocked(caller), count);
                Ok(())
            }
            Act::Rel { row, count } => {
                field_lists::leave_in(&mut self.rows, row, RowState::Available, count);
                Ok(())
            }
            Act::Deq { row } => {
                if self.reserved.reserve(1).is_err() {
                    return Err(Act::Deq { row });
                }
                field_lists::dequeue(&mut self.rows, &mut self.reserved, caller, row);
                Ok(())
            }
            Act::Reserve { size } => {
                if self.reserved.reserve(1).is_err() {
                    return Err(Act::Reserve { size });
                }
                field_lists::add_reserved(&mut self.reserved, caller, size);
                Ok(())
            }
            Act::GiveBack { size } => {
                field_lists::take_reserved(&mut self.reserved, caller, size);
                Ok(())
            }
            Act::Enq {
                row,
                slip,
                content,
                origin,
                count,
            } => {
                if self.rows.reserve(1).is_err() {
                    return Err(Act::Enq {
                        row,
                        slip,
                        content,
                        origin,
                        count,
                    });
                }
                field_lists::take_reserved(&mut self.reserved, caller, slip.size);
                self.rows.push_reserved(Row {
                    number: row,
                    slip,
                    state: RowState::Available,
                    content,
                    origin,
                    count,
                });
                Ok(())
            }
            Act::Bell { row, consumer } => {
                if self.bells.reserve(1).is_err() {
                    return Err(Act::Bell { row, consumer });
                }
                let bell = field_lists::bell_for(&self.rows, row, consumer);
                field_lists::ring(&mut self.bells, bell);
                Ok(())
            }
            Act::Take { consumer, list } => {
                field_lists::take_bell(&mut self.bells, consumer, list);
                Ok(())
            }
        }
    }
}
