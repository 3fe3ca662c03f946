//! The answers of the policies.
ghost use Rattle.std.specs.Prelude.{◌≡◌};
ghost use Rattle.overflow_core.specs.Limits.{is_refusal};

use acts_core::Depth;

/// What becomes of a put. A depth is that which the put's own reservation showed, without it.
#[derive(Clone, Copy, Debug, PartialEq, Eq)]
pub enum Verdict {
    /// The message may be put.
    Admitted,
    /// It may be put, and its body is to be kept on disk alone.
    Flowed,
    /// It is refused, since the queue is over its limits with it.
    Rejected(Depth),
    /// It is refused, and the producer is stopped until the queue is well below its limits.
    Blocked(Depth),
}

impl Verdict {
    /// Whether the message is not to be put.
    pub fn is_refusal(&self) -> bool
        ensures { result ≡ is_refusal self.now }
    {
        match self {
            Verdict::Admitted => false,
            Verdict::Flowed => false,
            Verdict::Rejected(_) => true,
            Verdict::Blocked(_) => true,
        }
    }
}

/// What a ring that was looked at needs.
#[derive(Debug, Drop)]
pub enum Trim<C> {
    /// Nothing: the queue is within its limits, or it is no ring.
    Fits,
    /// It is beyond its limits. This is its oldest entry, which the caller now holds.
    Over { row: u64, cargo: C },
    /// It is beyond its limits, and no entry was to be had.
    Nothing,
}
