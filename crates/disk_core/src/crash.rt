//! What a crash leaves of a disk in memory.
ghost use Rattle.std.specs.Prelude.{◌≡◌, ◌+◌, ◌≤◌, ◌++◌, ℕ, List, length, take, drop, vec_len, IfOk, OnOk};
ghost use Rattle.std.specs.List.{All};
ghost use Rattle.disk_core.specs.Images.{Torn};
ghost use Rattle.disk_core.specs.Trails.{write, content, IsImage};
ghost use Rattle.disk_core.specs.Memory.{steps_of, IsWithin, IsWrite};

use crate::memory::Move;
use byte_lists::{Bytes, NoMemory};
use std::alloc::Global;

/// How many ways there are in which a crash leaves a write.
const WAYS: u64 = 8;

/// What may stand behind the end of what was there.
const OTHER: [u8; 3] = [1, 255, 0];

/// The first so many moves.
pub(crate) fn first_moves(moves: &[Move], count: usize) -> &[Move]
    requires { count ≤ length moves.now }
    ensures { result.now ≡ take count moves.now }
{
    &moves[..count]
}

/// One image after these moves, by the pick.
pub(crate) fn image_after(
    alloc: Global,
    first: &[u8],
    written: &[u8],
    moves: &[Move],
    pick: u64,
) -> Result<Bytes, NoMemory>
    requires { All (IsWithin (length written.now)) moves.now }
    ensures image { IfOk result (IsImage first.now (steps_of written.now moves.now)) }
    ensures whole { pick ≡ 1 → IfOk result (λ c. c ≡ content first.now (steps_of written.now moves.now)) }
{
    let kept = kept_whole(moves, pick);
    let mut image = copied(alloc, first)?;
    replay(&mut image, written, moves, kept)?;
    tear(alloc, &mut image, written, moves, kept, pick)?;
    Ok(Bytes::from_vec(image))
}

// How many of the moves a crash leaves whole for sure: those up to the last sync, or all for pick 1.
fn kept_whole(moves: &[Move], pick: u64) -> usize
    ensures within { result ≤ length moves.now }
    ensures writes { All IsWrite (drop result moves.now) }
    ensures all { pick ≡ 1 → result ≡ length moves.now }
{
    let mut at = moves.len();
    if pick == 1 {
        return at;
    }
    while at > 0 {
        if let Move::Sync = moves[at - 1] {
            return at;
        }
        at -= 1;
    }
    0
}

// The bytes of a write.
fn bytes_of(written: &[u8], from: usize, len: usize) -> &[u8]
    requires { from + len ≤ length written.now }
    ensures { result.now ≡ take len (drop from written.now) }
{
    &written[from..from + len]
}

// Makes each write of the first so many moves, whole.
fn replay(image: &mut Vec<u8>, written: &[u8], moves: &[Move], kept: usize) -> Result<(), NoMemory>
    requires within { All (IsWithin (length written.now)) moves.now }
    requires kept { kept ≤ length moves.now }
    ensures { OnOk result (image.new.items
        ≡ content image.old.items (steps_of written.now (take kept moves.now))) }
{
    for i in 0..kept {
        match moves[i] {
            Move::Write { at, from, len } => put(image, at, bytes_of(written, from, len))?,
            Move::Sync => {}
        }
    }
    Ok(())
}

// Leaves of each write behind the first so many moves what a crash may leave, by the digits of the pick.
fn tear(
    alloc: Global,
    image: &mut Vec<u8>,
    written: &[u8],
    moves: &[Move],
    kept: usize,
    pick: u64,
) -> Result<(), NoMemory>
    requires within { All (IsWithin (length written.now)) moves.now }
    requires kept { kept ≤ length moves.now }
    requires writes { All IsWrite (drop kept moves.now) }
    ensures image { OnOk result ((first : List ℕ) →
        IsImage first (steps_of written.now (take kept moves.now)) image.old.items →
        IsImage first (steps_of written.now moves.now) image.new.items) }
    ensures nothing { kept ≡ length moves.now → OnOk result (image.new.items ≡ image.old.items) }
{
    let mut digits = pick;
    for i in kept..moves.len() {
        let way = if pick < WAYS { pick } else { digits % WAYS };
        digits /= WAYS;
        match moves[i] {
            Move::Write { at, from, len } => {
                let bytes = bytes_of(written, from, len);
                tear_one(alloc, image, at, bytes, way)?;
            }
            Move::Sync => {}
        }
    }
    Ok(())
}

// Leaves of a write what a crash may leave, in one of the ways.
fn tear_one(
    alloc: Global,
    image: &mut Vec<u8>,
    at: usize,
    bytes: &[u8],
    way: u64,
) -> Result<(), NoMemory>
    ensures { OnOk result (Torn at (length bytes.now) image.old.items image.new.items) }
{
    if at > image.len() {
        return Ok(());
    }
    let part = part_of(alloc, bytes, way)?;
    put(image, at, part.as_slice())?;
    if way < WAYS / 2 {
        return Ok(());
    }
    put_behind(image, &OTHER)?;
    Ok(())
}

// What stands in the range of a write, in one of the ways: nothing of it, all, its front, or other bytes. Each
// comes once with nothing behind the end, and once with other bytes there.
fn part_of(alloc: Global, bytes: &[u8], way: u64) -> Result<Vec<u8>, NoMemory>
    ensures { IfOk result (λ v. vec_len v ≤ length bytes.now) }
{
    match way % 4 {
        0 => Ok(Vec::new(alloc)),
        1 => copied(alloc, bytes),
        2 => copied(alloc, &bytes[..bytes.len() / 2]),
        _ => filled(alloc, bytes.len()),
    }
}

// A copy of the bytes.
fn copied(alloc: Global, bytes: &[u8]) -> Result<Vec<u8>, NoMemory>
    ensures { IfOk result (λ v. v.items ≡ bytes.now) }
{
    match Vec::from_slice(alloc, bytes) {
        Ok(items) => Ok(items),
        Err(_) => Err(NoMemory),
    }
}

// So many bytes that aren't those of a write.
fn filled(alloc: Global, len: usize) -> Result<Vec<u8>, NoMemory>
    ensures { IfOk result (λ v. vec_len v ≤ len) }
{
    match vec![in alloc; 255u8; len] {
        Ok(items) => Ok(items),
        Err(_) => Err(NoMemory),
    }
}

// Puts the bytes over what is there from that place on.
fn put(image: &mut Vec<u8>, at: usize, bytes: &[u8]) -> Result<(), NoMemory>
    ensures { OnOk result (image.new.items ≡ write at bytes.now image.old.items) }
{
    let at = at.min(image.len());
    let count = bytes.len().min(image.len() - at);
    image[at..at + count].copy_from_slice(&bytes[..count]);
    put_behind(image, &bytes[count..])
}

// Puts the bytes at the end.
fn put_behind(image: &mut Vec<u8>, bytes: &[u8]) -> Result<(), NoMemory>
    ensures { OnOk result (image.new.items ≡ image.old.items ++ bytes.now) }
{
    match image.extend_from_slice(bytes) {
        Ok(()) => Ok(()),
        Err(_) => Err(NoMemory),
    }
}
