//! The targets of all consumers.
ghost use Rattle.std.specs.Prelude.{◌≡◌, ◌+◌, ◌<◌, ◌↔◌, ◌++◌, length, map, vec_len, vec_capacity, ◌≤◌, Some, None, IfOk, IsTrue, IsSome, slice_set};
ghost use Rattle.std.specs.Option.{option_map, option_to_list};
ghost use Rattle.target_core.specs.Seats.{all_of, seat_at, HasRoomWithin, IsBare, standing, sum_of};
ghost use Rattle.target_core.specs.Hands.{HandsPlace, HandsRoster, PreparesPlace, PreparesRoster};

use crate::deliveries::Delivery;
use crate::target::Target;
use byte_lists::NoMemory;
use std::alloc::Global;
use std::array;

/// How many consumers a roster has places for.
pub const CONSUMERS: usize = 64;

/// What a roster says to a delivery.
#[derive(Clone, Copy, Debug, PartialEq, Eq)]
pub enum Handed {
    /// The consumer's target took it.
    Taken,
    /// The consumer's target has no room.
    NoCredit,
    /// No target stands there.
    Closed,
}

/// The targets of the consumers, which are numbered from 0 to 63.
#[derive(Drop)]
pub struct Roster {
    /// The target of each consumer, by number; None where it was closed or moved away.
    pub slots: [Option<Box<dyn Target>>; 64],
    // Room for as many targets as there are places.
    spare: Vec<Box<dyn Target>>,
    ghost places: { length slots ≡ 64 },
    ghost empty: { vec_len spare ≡ 0 },
    ghost roomy: { 64 ≤ vec_capacity spare },
}

impl Roster {
    /// A roster of these targets: one for each consumer, in their order. Takes no memory.
    pub fn of(targets: Vec<Box<dyn Target>>) -> Roster
        requires { vec_len targets ≡ 64 }
        ensures { map (option_map seat) result.slots ≡ all_of (map seat targets.items) }
    {
        let mut spare = targets;
        let mut slots = no_targets();
        for i in (0..CONSUMERS).rev() {
            slots[i] = spare.pop();
        }
        Roster { slots, spare }
    }

    /// A roster in which no target stands. Refuses only for want of memory.
    pub fn bare(alloc: Global) -> Result<Roster, NoMemory>
        ensures { IfOk result (λ r. IsBare (map (option_map seat) r.slots)) }
    {
        let Ok(spare) = Vec::with_capacity(alloc, CONSUMERS) else {
            return Err(NoMemory);
        };
        Ok(Roster {
            slots: no_targets(),
            spare,
        })
    }

    /// Another roster for the targets of this one, in which none stands yet. Refuses only for want of memory.
    pub fn beside(&self, alloc: Global) -> Result<Roster, NoMemory>
        ensures { IfOk result (λ r. IsBare (map (option_map seat) r.slots)) }
    {
        let Ok(spare) = Vec::with_capacity(alloc, CONSUMERS) else {
            return Err(NoMemory);
        };
        Ok(Roster {
            slots: no_targets(),
            spare,
        })
    }

    /// Moves the target of a consumer to another roster, which has none for it. Takes no memory.
    pub fn move_to(&mut self, consumer: u32, other: &mut Roster)
        requires number { consumer < 64 }
        requires here { IsSome (seat_at (map (option_map seat) self.old.slots) consumer) }
        requires there { seat_at (map (option_map seat) other.old.slots) consumer ≡ None }
        ensures here { map (option_map seat) self.new.slots ≡
            slice_set (map (option_map seat) self.old.slots) consumer None }
        ensures there { map (option_map seat) other.new.slots ≡
            slice_set (map (option_map seat) other.old.slots) consumer
            (seat_at (map (option_map seat) self.old.slots) consumer) }
    {
        other.slots[consumer as usize] = self.slots[consumer as usize].take();
    }

    /// Takes memory in the target of a consumer for so many deliveries more, and does nothing where none
    /// stands. Refuses only for want of memory.
    pub fn prepare(&mut self, consumer: u32, more: u64) -> Result<(), NoMemory>
        requires { consumer < 64 }
        ensures { PreparesRoster result consumer more
            (map (option_map seat) self.old.slots) (map (option_map seat) self.new.slots) }
    {
        prepare_slot(&mut self.slots[consumer as usize], more)
    }

    /// Hands a delivery to the target of its consumer: Taken; NoCredit exactly where the target has no room;
    /// Closed exactly where none stands. The body is the one of which the delivery tells. Takes no memory.
    pub fn hand(&mut self, delivery: Delivery, body: &[u8]) -> Handed
        requires number { delivery.consumer < 64 }
        requires length { delivery.length ≡ length body.now }
        requires sum { delivery.sum ≡ sum_of body.now }
        ensures { HandsRoster result
            (map (option_map seat) self.old.slots) (map (option_map seat) self.new.slots) delivery }
    {
        hand_slot(&mut self.slots[delivery.consumer as usize], delivery, body)
    }

    /// The room of a consumer's target, which is not above what its limit leaves; None exactly where none stands.
    pub fn room(&self, consumer: u32) -> Option<u64>
        requires { consumer < 64 }
        ensures within { HasRoomWithin (seat_at (map (option_map seat) self.now.slots) consumer) }
        ensures room { result ≡ option_map (λ s. s.room) (seat_at (map (option_map seat) self.now.slots) consumer) }
    {
        room_of(&self.slots[consumer as usize])
    }

    /// Drops the target of a consumer, and answers whether one stood there.
    pub fn close(&mut self, consumer: u32) -> bool
        requires { consumer < 64 }
        ensures stood { IsTrue result ↔ IsSome (seat_at (map (option_map seat) self.old.slots) consumer) }
        ensures drops { map (option_map seat) self.new.slots ≡
            slice_set (map (option_map seat) self.old.slots) consumer None }
    {
        self.slots[consumer as usize].take().is_some()
    }

    /// The targets that stand, by consumer number. Takes no memory.
    pub fn finish(self) -> Vec<Box<dyn Target>>
        ensures { map seat result.items ≡ standing (map (option_map seat) self.slots) }
    {
        let Roster { slots, spare } = self;
        let mut slots = slots;
        let mut targets = spare;
        for i in 0..CONSUMERS {
            put_back(&mut targets, slots[i].take());
        }
        targets
    }
}

// Places in which no target stands.
fn no_targets() -> [Option<Box<dyn Target>>; 64]
    ensures bare { IsBare (map (option_map seat) result) }
    ensures places { length result ≡ 64 }
{
    array::from_fn(
        |_: usize| -> Option<Box<dyn Target>>
            ensures { result ≡ None }
        { None },
    )
}

// Puts a target, if it is one, behind the others, in room that is there.
fn put_back(targets: &mut Vec<Box<dyn Target>>, target: Option<Box<dyn Target>>)
    requires { vec_len targets.old < vec_capacity targets.old }
    ensures items { targets.new.items ≡ targets.old.items ++ option_to_list target }
    ensures len { vec_len targets.new ≤ vec_len targets.old + 1 }
    ensures room { vec_capacity targets.new ≡ vec_capacity targets.old }
{
    match target {
        None => {}
        Some(target) => targets.push_reserved(target),
    }
}

// What the target in a place says to a delivery.
fn hand_slot(slot: &mut Option<Box<dyn Target>>, delivery: Delivery, body: &[u8]) -> Handed
    requires length { delivery.length ≡ length body.now }
    requires sum { delivery.sum ≡ sum_of body.now }
    ensures { HandsPlace result (option_map seat slot.old) (option_map seat slot.new) delivery }
{
    match slot {
        None => Handed::Closed,
        Some(target) => {
            if target.hand(delivery, body) {
                Handed::Taken
            } else {
                Handed::NoCredit
            }
        }
    }
}

// The room of the target in a place.
fn room_of(slot: &Option<Box<dyn Target>>) -> Option<u64>
    ensures within { HasRoomWithin (option_map seat slot.now) }
    ensures room { result ≡ option_map (λ s. s.room) (option_map seat slot.now) }
{
    match slot {
        None => None,
        Some(target) => Some(target.room()),
    }
}

// Takes memory in the target in a place.
fn prepare_slot(slot: &mut Option<Box<dyn Target>>, more: u64) -> Result<(), NoMemory>
    ensures { PreparesPlace result more (option_map seat slot.old) (option_map seat slot.new) }
{
    match slot {
        None => Ok(()),
        Some(target) => target.prepare(more),
    }
}
