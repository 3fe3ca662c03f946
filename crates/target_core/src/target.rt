//! What a consumer is.
ghost use Rattle.std.specs.Prelude.{◌≡◌, length};
ghost use Rattle.target_core.specs.Seats.{Seat, IsWithin, sum_of};
ghost use Rattle.target_core.specs.Hands.{HandsOver, Prepares};

use crate::deliveries::Delivery;
use byte_lists::NoMemory;

/// What takes deliveries. Contracts see the list of its deliveries, its room, and its limit, which never
/// changes. The room is the number of deliveries that it has memory for, and is never above what the limit
/// leaves.
pub trait Target: Send + Drop {
    /// What contracts see of the target.
    ghost seat: { Self → Seat };

    /// How many deliveries more it has memory for.
    fn room(&self) -> u64
        ensures room { result ≡ (seat self.now).room }
        ensures within { IsWithin (seat self.now).limit (length (seat self.now).deliveries) result };

    /// Takes memory for so many deliveries more, or for as many as the limit leaves. What it has stays, and
    /// its room never shrinks. Refuses only for want of memory.
    fn prepare(&mut self, more: u64) -> Result<(), NoMemory>
        ensures { Prepares result more (seat self.old) (seat self.new) };

    /// Takes a delivery, exactly where it has room: then the list of its deliveries has grown by this one, and
    /// the room is one less. Else it answers false, and nothing changes. The body is the one of which the
    /// delivery tells. Takes no memory.
    fn hand(&mut self, delivery: Delivery, body: &[u8]) -> bool
        requires length { delivery.length ≡ length body.now }
        requires sum { delivery.sum ≡ sum_of body.now }
        ensures { HandsOver result (seat self.old) (seat self.new) delivery };
}
