//! Reads the whole input, up to a limit.
ghost use Rattle.std.specs.Prelude.{◌≡◌, ◌<◌, length, IfErr, IfOk, OnOk, vec_len};
ghost use Rattle.broker_top.specs.Input.{IsWhole, LeavesUnread, ReadsTurn, TurnFaults};

use outside_io::Source;
use std::alloc::{AllocError, Global};

/// The greatest input, in bytes.
pub const INPUT_LIMIT: usize = 67_108_864;

/// Why an input was not read whole.
#[derive(Clone, Copy, Debug, PartialEq, Eq)]
pub(crate) enum Unread {
    /// It has more than [`INPUT_LIMIT`] bytes.
    TooLarge,
    /// The source failed.
    Fault,
    /// Memory ran out.
    NoMemory,
}

/// How many bytes are asked of the source at once, at most.
const CHUNK: usize = 65_536;

/// Reads to the end of the source, or to the byte after the limit. Each turn takes a byte at least.
pub(crate) fn read_input<S: Source>(alloc: Global, source: &mut S) -> Result<Vec<u8>, Unread>
    ensures whole { IfOk result (λ bytes. IsWhole bytes.items (S.left source.old) (S.left source.new)) }
    ensures kept { OnOk result (S.faults source.new ≡ S.faults source.old) }
    ensures unread { IfErr result (λ unread. LeavesUnread unread (S.left source.old) (S.left source.new) (S.faults source.old) (S.faults source.new)) }
{
    let Ok(mut chunk) = zeros(alloc, CHUNK) else {
        return Err(Unread::NoMemory);
    };
    let mut kept = Vec::new(alloc);
    'reading: while kept.len() <= INPUT_LIMIT {
        let room = CHUNK.min(INPUT_LIMIT + 1 - kept.len());
        match read_turn(source, &mut chunk[..room], &mut kept) {
            Turn::More => {}
            Turn::End => return Ok(kept),
            Turn::Fault => return Err(Unread::Fault),
            Turn::NoMemory => return Err(Unread::NoMemory),
        }
    }
    Err(Unread::TooLarge)
}

/// So many zeros.
fn zeros(alloc: Global, count: usize) -> Result<Vec<u8>, AllocError>
    ensures { IfOk result (λ zeros. vec_len zeros ≡ count) }
{
    vec![in alloc; 0u8; count]
}

/// What came of one read.
enum Turn {
    More,
    End,
    Fault,
    NoMemory,
}

/// Reads once, and keeps what came.
fn read_turn<S: Source>(source: &mut S, buffer: &mut [u8], kept: &mut Vec<u8>) -> Turn
    requires { 0 < length buffer.old }
    ensures told { ReadsTurn (length buffer.old) result (S.left source.old) (S.left source.new) kept.old.items kept.new.items }
    ensures faults { TurnFaults result (S.faults source.old) (S.faults source.new) }
{
    match source.read(buffer) {
        Ok(0) => Turn::End,
        Ok(count) => match kept.extend_from_slice(&buffer[..count]) {
            Ok(()) => Turn::More,
            Err(_) => Turn::NoMemory,
        },
        Err(_) => Turn::Fault,
    }
}
