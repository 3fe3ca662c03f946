//! A target that keeps its deliveries.
ghost use Rattle.std.specs.Prelude.{◌≡◌, length};
ghost use Rattle.target_core.specs.Seats.{empty_seat, left_of, IsWithin};
ghost use Rattle.target_core.specs.Hands.{HandsOver, Prepares};

use crate::deliveries::Delivery;
use crate::target::Target;
use byte_lists::NoMemory;
use std::alloc::Global;
use std::marker::Model;

/// A target that keeps its deliveries in memory.
#[derive(Debug, Drop)]
pub struct PlainTarget {
    deliveries: Vec<Delivery>,
    room: u64,
    limit: Option<u64>,
}

impl Model for PlainTarget {
    ghost use Rattle.std.specs.Prelude.{◌+◌, ◌≤◌, vec_len, vec_capacity};
    ghost use Rattle.target_core.specs.Seats.{Seat, IsWithin};

    ghost Value = { Seat };

    ghost view = { λ t. record { deliveries = t.deliveries.items; room = t.room; limit = t.limit } };

    ghost invariant = { λ t. (vec_len t.deliveries + t.room ≤ vec_capacity t.deliveries)
        × IsWithin t.limit (vec_len t.deliveries) t.room };
}

impl PlainTarget {
    /// A target with this limit, without deliveries. Takes no memory.
    pub fn make(alloc: Global, limit: Option<u64>) -> PlainTarget
        ensures { result ≡ empty_seat limit }
    {
        PlainTarget {
            deliveries: Vec::new(alloc),
            room: 0,
            limit,
        }
    }

    /// What it was handed, in order.
    pub fn deliveries(&self) -> &[Delivery]
        ensures { result.now ≡ self.now.deliveries }
    {
        self.deliveries.as_slice()
    }
}

impl Target for PlainTarget {
    ghost seat = { λ t. t };

    fn room(&self) -> u64
        ensures room { result ≡ self.now.room }
        ensures within { IsWithin self.now.limit (length self.now.deliveries) result }
    {
        self.room
    }

    fn prepare(&mut self, more: u64) -> Result<(), NoMemory>
        ensures { Prepares result more self.old self.new }
    {
        let room = up_to_limit(self.limit, self.deliveries.len() as u64, more);
        if room <= self.room {
            return Ok(());
        }
        match self.deliveries.reserve(room as usize) {
            Ok(()) => {
                self.room = room;
                Ok(())
            }
            Err(_) => Err(NoMemory),
        }
    }

    fn hand(&mut self, delivery: Delivery, _body: &[u8]) -> bool
        ensures { HandsOver result self.old self.new delivery }
    {
        if self.room == 0 {
            return false;
        }
        self.room -= 1;
        self.deliveries.push_reserved(delivery);
        true
    }
}

// As many of these as a limit leaves behind so many.
fn up_to_limit(limit: Option<u64>, taken: u64, more: u64) -> u64
    ensures value { result ≡ left_of limit taken more }
    ensures within { IsWithin limit taken result }
{
    match limit {
        None => more,
        Some(limit) => more.min(limit.saturating_sub(taken)),
    }
}
