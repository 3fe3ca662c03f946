//! A text in memory, as a sink.
ghost use Rattle.std.specs.Prelude.{◌≡◌, ◌<◌, [], Some, MatchOption, length};
ghost use Rattle.broker_top.specs.Text.{written_of};

use outside_io::{Failed, Sink};
use std::alloc::Global;

/// A text that grows in memory. It refuses only for want of memory, and then it is not whole any more.
#[derive(Debug, Drop)]
pub(crate) struct Text {
    bytes: Vec<u8>,
    refusals: u64,
}

impl Text {
    /// An empty text. Takes no memory.
    pub(crate) fn new(alloc: Global) -> Text
        ensures text { written_of result ≡ Some [] }
        ensures refusals { result.refusals ≡ 0 }
    {
        Text {
            bytes: Vec::new(alloc),
            refusals: 0,
        }
    }

    /// The bytes of the text; none exactly where it ever refused.
    pub(crate) fn whole(self) -> Option<Vec<u8>>
        ensures { MatchOption result (0 < self.refusals) (λ bytes. (self.refusals ≡ 0) × (written_of self ≡ Some bytes.items)) }
    {
        if self.refusals > 0 {
            return None;
        }
        let Text { bytes, .. } = self;
        Some(bytes)
    }
}

impl Sink for Text {
    ghost use Rattle.broker_top.specs.Text.{written_of};

    ghost written = { written_of };

    ghost faults = { λ t. t.refusals };

    fn write(&mut self, bytes: &[u8]) -> Result<usize, Failed> {
        if self.refusals == u64::MAX {
            return Ok(bytes.len());
        }
        match self.bytes.extend_from_slice(bytes) {
            Ok(()) => Ok(bytes.len()),
            Err(_) => {
                self.refusals += 1;
                Err(Failed)
            }
        }
    }
}
