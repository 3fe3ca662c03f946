//! Gates, where an actor may have to wait before it does a line of a script.
use std::sync::atomic::{AtomicBool, AtomicU64, Ordering};
use std::thread;

/// What an actor comes to with each line of a script. It has no answer and no count of faults, so a gate
/// changes when a line is done, and never what is done. Several threads use it at once.
pub trait Gate: Sync {
    /// An actor is about to do the line with this number. It may have to wait here.
    fn before(&self, line: u64);

    /// The answer to the line with this number is in the actor's log.
    fn after(&self, line: u64);
}

/// A gate at which nobody waits.
#[derive(Clone, Copy, Debug)]
pub struct FreeGate;

impl Gate for FreeGate {
    fn before(&self, _line: u64) {}

    fn after(&self, _line: u64) {}
}

/// A gate that lets lines pass in the order of their numbers, whichever actors do them. A line passes once
/// every line from the first up to the one before it was answered, in line order. A line that waited too long
/// passes all the same, and the gate remembers that one did. It takes no lock.
#[derive(Drop)]
pub struct LineGate {
    // The line whose turn it is: all lines from the first up to the one before it were answered, in line order.
    next: AtomicU64,
    turns: u64,
    late: AtomicBool,
}

impl LineGate {
    /// A gate for the lines from `first` on, which looks at most `turns` times whether a line may pass.
    pub fn make(first: u64, turns: u64) -> LineGate {
        LineGate {
            next: AtomicU64::new(first),
            turns,
            late: AtomicBool::new(false),
        }
    }

    /// Whether a line ever passed because it had waited too long.
    pub fn late(&self) -> bool {
        self.late.load(Ordering::SeqCst)
    }
}

impl Gate for LineGate {
    /// Gives its turn up between two looks.
    fn before(&self, line: u64) {
        for _ in 0..self.turns {
            if line <= self.next.load(Ordering::SeqCst) {
                return;
            }
            thread::yield_now();
        }
        self.late.store(true, Ordering::SeqCst);
    }

    /// A line that passed before its turn isn't counted, so that every line behind it comes too late as well.
    fn after(&self, line: u64) {
        let after = line.saturating_add(1);
        let _ = self
            .next
            .compare_exchange(line, after, Ordering::SeqCst, Ordering::SeqCst);
    }
}
