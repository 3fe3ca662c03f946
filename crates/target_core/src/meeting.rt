//! Two targets that wait for each other.
ghost use Rattle.std.specs.Prelude.{◌≡◌, length, None, IfOk};
ghost use Rattle.target_core.specs.Seats.{empty_seat, IsWithin};
ghost use Rattle.target_core.specs.Hands.{HandsOver, Prepares};

use crate::deliveries::Delivery;
use crate::plain::PlainTarget;
use crate::target::Target;
use byte_lists::NoMemory;
use std::alloc::Global;
use std::marker::Model;
use std::sync::Arc;
use std::sync::atomic::{AtomicBool, AtomicU64, Ordering};
use std::thread;

/// How many deliveries meet.
const MEETING: u64 = 2;

// What two targets and their watch share.
#[derive(Drop)]
struct Meeting {
    // How many deliveries have come to either target.
    come: AtomicU64,
    late: AtomicBool,
}

/// A target without a limit, one of two that share a number. Each delivery to either adds one to the number, and
/// then looks at it until it is at least 2, so that the first delivery to one waits for the first to the
/// other. It looks at most so many times. For tests: where no delivery came too late, neither of the first
/// two ended before the other had begun.
#[derive(Drop)]
pub struct MeetTarget {
    kept: PlainTarget,
    meeting: Arc<Meeting, Global>,
    turns: u64,
}

impl Model for MeetTarget {
    ghost use Rattle.target_core.specs.Seats.{Seat};

    ghost Value = { Seat };

    ghost view = { λ t. t.kept };
}

/// What tells whether two targets met.
#[derive(Drop)]
pub struct MeetWatch {
    meeting: Arc<Meeting, Global>,
}

impl MeetTarget {
    /// Two targets that share a number, which is 0, and a watch over them. Each looks at most `turns` times.
    /// Refuses only for want of memory.
    pub fn pair(alloc: Global, turns: u64) -> Result<(MeetTarget, MeetTarget, MeetWatch), NoMemory>
        ensures first { IfOk result (λ m. m.0 ≡ empty_seat None) }
        ensures second { IfOk result (λ m. m.1 ≡ empty_seat None) }
    {
        let meeting = Meeting {
            come: AtomicU64::new(0),
            late: AtomicBool::new(false),
        };
        let Ok(meeting) = Arc::new(alloc, meeting) else {
            return Err(NoMemory);
        };
        let first = MeetTarget::of(alloc, &meeting, turns)?;
        let second = MeetTarget::of(alloc, &meeting, turns)?;
        Ok((first, second, MeetWatch { meeting }))
    }

    fn of(alloc: Global, meeting: &Arc<Meeting, Global>, turns: u64) -> Result<MeetTarget, NoMemory>
        ensures { IfOk result (λ t. t ≡ empty_seat None) }
    {
        let Ok(meeting) = Arc::try_clone(meeting) else {
            return Err(NoMemory);
        };
        Ok(MeetTarget {
            kept: PlainTarget::make(alloc, None),
            meeting,
            turns,
        })
    }

    // Tells the other target that a delivery came, and waits for one to it.
    fn meet(&self) {
        self.meeting.come.fetch_add(1, Ordering::SeqCst);
        for _ in 0..self.turns {
            if self.meeting.come.load(Ordering::SeqCst) >= MEETING {
                return;
            }
            thread::yield_now();
        }
        self.meeting.late.store(true, Ordering::SeqCst);
    }
}

impl MeetWatch {
    /// Whether a delivery ever stopped looking before the number was 2.
    pub fn late(&self) -> bool {
        self.meeting.late.load(Ordering::SeqCst)
    }
}

impl Target for MeetTarget {
    ghost seat = { λ t. t };

    fn room(&self) -> u64
        ensures room { result ≡ self.now.room }
        ensures within { IsWithin self.now.limit (length self.now.deliveries) result }
    {
        self.kept.room()
    }

    fn prepare(&mut self, more: u64) -> Result<(), NoMemory>
        ensures { Prepares result more self.old self.new }
    {
        self.kept.prepare(more)
    }

    fn hand(&mut self, delivery: Delivery, body: &[u8]) -> bool
        ensures { HandsOver result self.old self.new delivery }
    {
        self.meet();
        self.kept.hand(delivery, body)
    }
}
