//! What a transaction will do once it is committed.
ghost use Rattle.std.specs.Prelude.{◌≡◌, ◌+◌, ◌≤◌, ◌++◌, ◌∷◌, [], List, Some, None, IfOk, MatchOption};
ghost use Rattle.txn_core.specs.Staged.{Popped};

use crate::parcels::Parcel;
use byte_lists::NoMemory;
use message_core::Message;
use queue_model::Slip;
use std::alloc::Global;
use std::collections::VecDeque;
use std::marker::Model;

/// A put or an acknowledgement of a transaction that isn't committed yet.
#[derive(Drop)]
pub enum Staged {
    /// A message for a queue, with the slip of its entry. A persistent one has its body at `within` in the transaction;
    /// else that is 0. `flowed` tells that the body is given up once the message is committed.
    Put {
        queue: u32,
        slip: Slip,
        message: Message,
        within: u32,
        flowed: bool,
    },
    /// A row of a queue, with the parcel that it gave.
    Ack {
        queue: u32,
        row: u64,
        parcel: Parcel,
    },
}

/// A transaction's puts and acknowledgements, in the order of its lines, with room that was taken before. Contracts see the
/// list, and how many more it takes.
#[derive(Drop)]
pub struct Staging {
    lines: VecDeque<Staged>,
}

impl Model for Staging {
    ghost use Rattle.std.specs.Prelude.{◌≤◌, ◌-◌, length};
    ghost use Rattle.std.specs.VecDeque.{deque_capacity};
    ghost use Rattle.txn_core.specs.Staged.{StagedList};

    ghost Value = { StagedList };

    ghost view = { λ s. record {
      list = s.lines.items;
      room = deque_capacity s.lines - length s.lines.items;
    } };
}

impl Staging {
    /// An empty list with room for at least so many. Refuses only for want of memory.
    pub fn with_room(alloc: Global, lines: u64) -> Result<Staging, NoMemory>
        ensures empty { IfOk result (λ s. s.list ≡ []) }
        ensures room { IfOk result (λ s. lines ≤ s.room) }
    {
        match VecDeque::with_capacity(alloc, lines as usize) {
            Ok(lines) => Ok(Staging { lines }),
            Err(_) => Err(NoMemory),
        }
    }

    /// Puts it at the end, which takes one of the room. Takes no memory.
    pub fn push(&mut self, staged: Staged)
        requires { 1 ≤ self.old.room }
        ensures list { self.new.list ≡ self.old.list ++ staged ∷ [] }
        ensures room { self.new.room + 1 ≡ self.old.room }
    {
        self.lines.push_back_reserved(staged);
    }

    /// Takes the first out and gives its room back. None exactly where there is none.
    pub fn pop_first(&mut self) -> Option<Staged>
        ensures { Popped result self.old self.new }
    {
        self.lines.pop_front()
    }
}
