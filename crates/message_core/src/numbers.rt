//! Numbers and bytes, read from the front of a byte list. Numbers are big-endian.
ghost use Rattle.std.specs.Prelude.{IfErr};
ghost use Rattle.std.specs.Int.{w16, w32, w64};
ghost use Rattle.message_core.specs.Reading.{Gives, IsAtFront, number_at, byte_at, bytes_at};

use byte_lists::NoMemory;
use std::alloc::AllocFailed;
use thiserror::Error;

/// Why bytes were not read: memory ran out, or a field is at fault.
#[derive(Debug, Drop, Error)]
pub enum ReadFault {
    #[error("out of memory")]
    NoMemory,
    /// So many bytes are left from the first byte of the first field that is at fault.
    #[error("a fault where {0} bytes are left")]
    Left(usize),
}

impl From<NoMemory> for ReadFault {
    ghost use Rattle.std.specs.Prelude.{◌≡◌};
    ghost use Rattle.message_core.specs.declared.numbers.ReadFault.TheVariants as read;

    ghost from_gives = { λ _ e. e ≡ read.NoMemory };

    fn from(_fault: NoMemory) -> ReadFault {
        ReadFault::NoMemory
    }
}

impl<T: Drop> From<AllocFailed<T>> for ReadFault {
    ghost use Rattle.std.specs.Prelude.{◌≡◌};
    ghost use Rattle.message_core.specs.declared.numbers.ReadFault.TheVariants as read;

    ghost from_gives = { λ _ e. e ≡ read.NoMemory };

    fn from(_fault: AllocFailed<T>) -> ReadFault {
        ReadFault::NoMemory
    }
}

/// The number in the first two bytes, and the bytes after it. Takes no memory: the one fault is that there are
/// fewer bytes.
pub fn u16_of(bytes: &[u8]) -> Result<(u16, &[u8]), ReadFault>
    ensures given { Gives (λ x. (x.0, x.1.now)) result (number_at w16 bytes.now) }
    ensures fault { IfErr result (λ e. IsAtFront e bytes.now) }
{
    if bytes.len() < 2 {
        return Err(ReadFault::Left(bytes.len()));
    }
    let (front, rest) = bytes.split_at(2);
    Ok((u16::from_be_bytes([front[0], front[1]]), rest))
}

/// The number in the first four bytes, and the bytes after it. Takes no memory: the one fault is that there are
/// fewer bytes.
pub fn u32_of(bytes: &[u8]) -> Result<(u32, &[u8]), ReadFault>
    ensures given { Gives (λ x. (x.0, x.1.now)) result (number_at w32 bytes.now) }
    ensures fault { IfErr result (λ e. IsAtFront e bytes.now) }
{
    if bytes.len() < 4 {
        return Err(ReadFault::Left(bytes.len()));
    }
    let (front, rest) = bytes.split_at(4);
    let number = u32::from_be_bytes([front[0], front[1], front[2], front[3]]);
    Ok((number, rest))
}

/// The number in the first eight bytes, and the bytes after it. Takes no memory: the one fault is that there are
/// fewer bytes.
pub fn u64_of(bytes: &[u8]) -> Result<(u64, &[u8]), ReadFault>
    ensures given { Gives (λ x. (x.0, x.1.now)) result (number_at w64 bytes.now) }
    ensures fault { IfErr result (λ e. IsAtFront e bytes.now) }
{
    if bytes.len() < 8 {
        return Err(ReadFault::Left(bytes.len()));
    }
    let (front, rest) = bytes.split_at(8);
    let number = u64::from_be_bytes([
        front[0], front[1], front[2], front[3], front[4], front[5], front[6], front[7],
    ]);
    Ok((number, rest))
}

/// The first byte, and the bytes after it. Takes no memory: the one fault is that there is none.
pub fn byte_of(bytes: &[u8]) -> Result<(u8, &[u8]), ReadFault>
    ensures given { Gives (λ x. (x.0, x.1.now)) result (byte_at bytes.now) }
    ensures fault { IfErr result (λ e. IsAtFront e bytes.now) }
{
    match bytes {
        [] => Err(ReadFault::Left(0)),
        [first, rest @ ..] => Ok((*first, rest)),
    }
}

/// The first so many bytes, and the bytes after them. Takes no memory: the one fault is that there are
/// fewer bytes.
pub fn bytes_of(count: usize, bytes: &[u8]) -> Result<(&[u8], &[u8]), ReadFault>
    ensures given { Gives (λ x. (x.0.now, x.1.now)) result (bytes_at count bytes.now) }
    ensures fault { IfErr result (λ e. IsAtFront e bytes.now) }
{
    if bytes.len() < count {
        return Err(ReadFault::Left(bytes.len()));
    }
    Ok(bytes.split_at(count))
}
