//! A disk in memory, which fails at the calls that it is told to fail at.
ghost use Rattle.std.specs.Prelude.{true, false, nat_lt, ◌≡◌, ◌+◌, ◌<◌, ◌≤◌, ◌^◌, ◌∷◌, [], ◌⊎◌, ◌↔◌, length, take, drop, min, vec_len, vec_capacity, IfOk, OnOk, OnErr, IsErr, IfSome, IsTrue};
ghost use Rattle.std.specs.List.{All};
ghost use Rattle.outside_io.specs.Told.{HasCause, WhileTold};
ghost use Rattle.outside_io.specs.Counts.{last_count, next_call, IsSpent};
ghost use Rattle.disk_core.specs.Images.{Holds, Torn, Follows, Only, NoMore, Still, Elapses, IsTold};
ghost use Rattle.disk_core.specs.Trails.{write, content, IsImage, up_to, Extends};
ghost use Rattle.disk_core.specs.Memory.{seen_of, images_of, moment_of, since_of, trail_of, steps_of, IsDue, IsWithin, FailsNext, RefusesNext};
ghost use Rattle.disk_core.specs.declared.trails.Step.TheVariants.{Write, Sync};

use crate::crash::{first_moves, image_after};
use crate::disk::Disk;
use byte_lists::{Bytes, NoMemory};
use outside_io::Failed;
use std::alloc::Global;
use std::marker::Model;

/// A call that changed what a crash may leave. The bytes of a write stand in a list of all that were written.
#[derive(Clone, Copy, Debug)]
pub(crate) enum Move {
    /// So many bytes, from that place of the list on, were written at a place of the disk.
    Write { at: usize, from: usize, len: usize },
    /// A sync succeeded.
    Sync,
}

/// A disk in memory. Each call has a number, from 0. The calls fail whose numbers are in its list, each call
/// after the first `calls`, and a write with which the bytes written in all would be more than `room`; no other
/// does. A call that fails changes no byte. After 2^64 - 1 failed calls it answers Ok for ever, does nothing
/// and tells nothing.
#[derive(Debug, Drop)]
pub struct MemoryDisk {
    first: Bytes,
    seen: Vec<u8>,
    written: Vec<u8>,
    moves: Vec<Move>,
    call: u64,
    calls: u64,
    room: usize,
    failing: Vec<u64>,
    faults: u64,
    syncs: u64,
}

impl Model for MemoryDisk {
    ghost use Rattle.std.specs.Prelude.{◌≡◌, ◌+◌, ◌≤◌, ◌<◌, ◌^◌, length, vec_len, vec_capacity};
    ghost use Rattle.std.specs.List.{All};
    ghost use Rattle.disk_core.specs.Trails.{content};
    ghost use Rattle.disk_core.specs.Memory.{DiskView, steps_of, IsWithin};

    ghost Value = { DiskView };

    ghost view = { λ d. record {
      first = d.first;
      steps = steps_of d.written.items d.moves.items;
      call = d.call;
      calls = d.calls;
      written = length d.written.items;
      room = d.room;
      failing = d.failing.items;
      faults = d.faults;
      syncs = d.syncs;
    } };

    ghost invariant = { λ d. (d.seen.items ≡ content d.first (steps_of d.written.items d.moves.items))
        × All (IsWithin (length d.written.items)) d.moves.items
        × (vec_len d.written ≤ d.room) × (d.room ≤ vec_capacity d.written)
        × (vec_len d.moves ≤ d.call) × (d.calls ≤ vec_capacity d.moves)
        × (vec_len d.seen ≤ length d.first + vec_len d.written)
        × (length d.first + d.room ≤ vec_capacity d.seen)
        × (vec_len d.seen < 2 ^ 63) };
}

impl MemoryDisk {
    /// A disk with these bytes, which fails at the calls with the numbers of `failing`, at each call after the first
    /// `calls`, and at a write with which the bytes written in all would be more than `room`. It takes all its
    /// memory now, and refuses only for want of it, as where it could have 2^63 bytes or more.
    pub fn of(
        alloc: Global,
        bytes: Bytes,
        calls: u64,
        room: u64,
        failing: Vec<u64>,
    ) -> Result<MemoryDisk, NoMemory>
        ensures { IfOk result (λ d. d ≡ record {
          first = bytes;
          steps = [];
          call = 0;
          calls = calls;
          written = 0;
          room = room;
          failing = failing.items;
          faults = 0;
          syncs = 0;
        }) }
    {
        let room = room as usize;
        let Some(most) = bytes.as_slice().len().checked_add(room) else {
            return Err(NoMemory);
        };
        if most >= 1 << 63 {
            return Err(NoMemory);
        }
        let mut seen = with_room(alloc, most)?;
        seen.extend_from_slice(bytes.as_slice()).unwrap();
        let written = with_room(alloc, room)?;
        let moves = with_room(alloc, calls as usize)?;
        Ok(MemoryDisk {
            first: bytes,
            seen,
            written,
            moves,
            call: 0,
            calls,
            room,
            failing,
            faults: 0,
            syncs: 0,
        })
    }

    /// How many calls were made of it. The number stays at 2^64 - 1 once it is there.
    pub fn calls(&self) -> u64
        ensures { result ≡ self.now.call }
    {
        self.call
    }

    /// How many moments there were: one more than the writes and syncs that succeeded. The first has number 0.
    pub fn moments(&self) -> u64
        ensures { result ≡ moment_of self.now + 1 }
    {
        self.moves.len() as u64 + 1
    }

    /// One image of the moment of that number, which there was. Of the writes since the last sync before it, pick 0
    /// leaves out all and pick 1 keeps all; by a pick from 2 to 7 each is kept in part, torn or followed by other
    /// bytes; and a greater pick has for each a digit of base 8, the lowest for the oldest. A write that would begin
    /// behind the image's end is left out. Refuses only for want of memory.
    pub fn image(&self, alloc: Global, moment: u64, pick: u64) -> Result<Bytes, NoMemory>
        requires { moment ≤ moment_of self.now }
        ensures image { IfOk result (IsImage self.now.first (up_to moment self.now.steps)) }
        ensures whole { pick ≡ 1 →
            IfOk result (λ c. c ≡ content self.now.first (up_to moment self.now.steps)) }
    {
        let moves = first_moves(self.moves.as_slice(), moment as usize);
        image_after(
            alloc,
            self.first.as_slice(),
            self.written.as_slice(),
            moves,
            pick,
        )
    }
}

// An empty list with room for so many.
fn with_room<T>(alloc: Global, room: usize) -> Result<Vec<T>, NoMemory>
    ensures empty { IfOk result (λ v. v.items ≡ []) }
    ensures room { IfOk result (λ v. room ≤ vec_capacity v) }
{
    match Vec::with_capacity(alloc, room) {
        Ok(items) => Ok(items),
        Err(_) => Err(NoMemory),
    }
}

impl Disk for MemoryDisk {
    ghost use Rattle.disk_core.specs.MemoryLaws.{only_now, counts_now, from_later, reads, has_told, within, traced, tracing, counted};

    ghost seen = { seen_of };

    ghost images = { images_of };

    ghost moment = { moment_of };

    ghost since = { since_of };

    ghost trail = { trail_of };

    ghost faults = { λ d. d.faults };

    ghost syncs = { λ d. d.syncs };

    ghost only_now = { only_now };

    ghost counts_now = { counts_now };

    ghost from_later = { from_later };

    ghost reads = { reads };

    ghost tells = { has_told };

    ghost within = { within };

    ghost traced = { traced };

    ghost tracing = { tracing };

    ghost counted = { counted };

    fn len(&mut self) -> Result<u64, Failed>
        // What every disk keeps.
        ensures len { IfOk result (λ n. IfSome (seen_of self.old) (λ b. n ≡ length b)) }
        ensures bound { IfOk result (λ n. n < 2 ^ 63) }
        ensures still { Still (seen_of self.old) (seen_of self.new) }
        ensures images { NoMore (images_of self.old) (images_of self.new) }
        ensures trail { Extends (trail_of self.old) (trail_of self.new) }
        ensures time { Elapses (IsTold (seen_of self.new)) (moment_of self.old) (moment_of self.new)
            (since_of self.old) (since_of self.new) (images_of self.old) (images_of self.new) }
        ensures cause { HasCause self.old.faults self.new.faults result }
        ensures syncs { self.new.syncs ≡ self.old.syncs }

        // Which calls fail, and what each leaves.
        ensures fails { IsErr result ↔ FailsNext self.old }
        ensures failed { OnErr result (self.new ≡ record self.old {
          call = next_call self.old.call;
          faults = self.old.faults + 1;
        }) }
        ensures kept { self.old.faults < last_count →
            OnOk result (self.new ≡ record self.old { call = next_call self.old.call }) }
        ensures spent { IsSpent self.old.faults → (result ≡ Ok 0) × (self.new ≡ self.old) }
    {
        if self.faults == u64::MAX {
            return Ok(0);
        }
        let fails = is_due(self.failing.as_slice(), self.calls, self.call);
        count_call(&mut self.call, &mut self.faults, fails)?;
        Ok(self.seen.len() as u64)
    }

    fn read_at(&mut self, at: u64, buffer: &mut [u8]) -> Result<usize, Failed>
        // What every disk keeps.
        ensures bound { IfOk result (λ n. n ≤ length buffer.new) }
        ensures read { IfOk result (λ n. IfSome (seen_of self.old) (λ b.
            (take n buffer.new ≡ take (length buffer.new) (drop at b))
            × (n ≡ min (length buffer.new) (length (drop at b))))) }
        ensures still { Still (seen_of self.old) (seen_of self.new) }
        ensures images { NoMore (images_of self.old) (images_of self.new) }
        ensures trail { Extends (trail_of self.old) (trail_of self.new) }
        ensures time { Elapses (IsTold (seen_of self.new)) (moment_of self.old) (moment_of self.new)
            (since_of self.old) (since_of self.new) (images_of self.old) (images_of self.new) }
        ensures cause { HasCause self.old.faults self.new.faults result }
        ensures syncs { self.new.syncs ≡ self.old.syncs }

        // Which calls fail, and what each leaves.
        ensures fails { IsErr result ↔ FailsNext self.old }
        ensures failed { OnErr result ((buffer.new ≡ buffer.old) × (self.new ≡ record self.old {
          call = next_call self.old.call;
          faults = self.old.faults + 1;
        })) }
        ensures kept { self.old.faults < last_count →
            OnOk result (self.new ≡ record self.old { call = next_call self.old.call }) }
        ensures behind { IfOk result (λ n. drop n buffer.new ≡ drop n buffer.old) }
        ensures spent { IsSpent self.old.faults →
            (result ≡ Ok 0) × (self.new ≡ self.old) × (buffer.new ≡ buffer.old) }
    {
        if self.faults == u64::MAX {
            return Ok(0);
        }
        let fails = is_due(self.failing.as_slice(), self.calls, self.call);
        count_call(&mut self.call, &mut self.faults, fails)?;
        if at >= self.seen.len() as u64 {
            return Ok(0);
        }
        Ok(copy_front(&self.seen.as_slice()[at as usize..], buffer))
    }

    fn write_at(&mut self, at: u64, bytes: &[u8]) -> Result<(), Failed>
        requires { IfSome (seen_of self.old) (λ b. at ≤ length b) }

        // What every disk keeps.
        ensures written { OnOk result (WhileTold (seen_of self.old) (seen_of self.new) (Holds at bytes.now)) }
        ensures torn { WhileTold (seen_of self.old) (seen_of self.new) (Torn at (length bytes.now)) }
        ensures images { Follows (Torn at (length bytes.now)) (images_of self.old) (images_of self.new) }
        ensures trail { Extends (trail_of self.old) (trail_of self.new) }
        ensures time { Elapses (IsTold (seen_of self.new)) (moment_of self.old) (moment_of self.new)
            (since_of self.old) (since_of self.new) (images_of self.old) (images_of self.new) }
        ensures cause { HasCause self.old.faults self.new.faults result }
        ensures syncs { self.new.syncs ≡ self.old.syncs }

        // Which calls fail, and what each leaves.
        ensures fails { IsErr result ↔ RefusesNext self.old (length bytes.now) }
        ensures failed { OnErr result (self.new ≡ record self.old {
          call = next_call self.old.call;
          faults = self.old.faults + 1;
        }) }
        ensures kept { self.old.faults < last_count → OnOk result (self.new ≡ record self.old {
          steps = Write at bytes.now ∷ self.old.steps;
          call = next_call self.old.call;
          written = self.old.written + length bytes.now;
        }) }
        ensures spent { IsSpent self.old.faults → (result ≡ Ok tt) × (self.new ≡ self.old) }
    {
        if self.faults == u64::MAX {
            return Ok(());
        }
        let left = self.room - self.written.len();
        let fails = is_refused(
            self.failing.as_slice(),
            self.calls,
            self.call,
            left,
            bytes.len(),
        );
        count_call(&mut self.call, &mut self.faults, fails)?;
        let at = at as usize;
        overwrite(&mut self.seen, at, bytes);
        record_write(&mut self.written, &mut self.moves, at, bytes);
        Ok(())
    }

    fn sync(&mut self) -> Result<(), Failed>
        // What every disk keeps.
        ensures durable { OnOk result (Only (seen_of self.new) (images_of self.new)) }
        ensures still { Still (seen_of self.old) (seen_of self.new) }
        ensures images { NoMore (images_of self.old) (images_of self.new) }
        ensures trail { Extends (trail_of self.old) (trail_of self.new) }
        ensures time { Elapses (IsTold (seen_of self.new)) (moment_of self.old) (moment_of self.new)
            (since_of self.old) (since_of self.new) (images_of self.old) (images_of self.new) }
        ensures cause { HasCause self.old.faults self.new.faults result }
        ensures counted { (self.old.syncs ≤ self.new.syncs) × (self.new.syncs ≤ self.old.syncs + 1) }

        // Which calls fail, and what each leaves.
        ensures fails { IsErr result ↔ FailsNext self.old }
        ensures failed { OnErr result (self.new ≡ record self.old {
          call = next_call self.old.call;
          faults = self.old.faults + 1;
          syncs = next_call self.old.syncs;
        }) }
        ensures kept { self.old.faults < last_count → OnOk result (self.new ≡ record self.old {
          steps = Sync ∷ self.old.steps;
          call = next_call self.old.call;
          syncs = next_call self.old.syncs;
        }) }
        ensures spent { IsSpent self.old.faults → (result ≡ Ok tt) × (self.new ≡ self.old) }
    {
        if self.faults == u64::MAX {
            return Ok(());
        }
        self.syncs = self.syncs.saturating_add(1);
        let fails = is_due(self.failing.as_slice(), self.calls, self.call);
        count_call(&mut self.call, &mut self.faults, fails)?;
        self.moves.push(Move::Sync).unwrap();
        Ok(())
    }
}

// Whether the call of this number fails for its number.
fn is_due(failing: &[u64], calls: u64, call: u64) -> bool
    ensures { IsTrue result ↔ IsDue failing.now calls call }
{
    call >= calls || failing.contains(&call)
}

// Whether a write of so many bytes fails, where so many are left.
fn is_refused(failing: &[u64], calls: u64, call: u64, left: usize, bytes: usize) -> bool
    ensures { IsTrue result ↔ ((left < bytes) ⊎ IsDue failing.now calls call) }
{
    left < bytes || is_due(failing, calls, call)
}

// Counts a call that reaches the disk, and its failure where it fails.
fn count_call(call: &mut u64, faults: &mut u64, fails: bool) -> Result<(), Failed>
    requires { faults.old < last_count }
    ensures fails { IsErr result ↔ IsTrue fails }
    ensures call { call.new ≡ next_call call.old }
    ensures failed { OnErr result (faults.new ≡ faults.old + 1) }
    ensures stays { OnOk result (faults.new ≡ faults.old) }
    ensures told { nat_lt faults.old last_count ≡ true }
{
    *call = call.saturating_add(1);
    if fails {
        *faults += 1;
        return Err(Failed);
    }
    Ok(())
}

// Copies as many bytes as both have room for to the front of `into`.
fn copy_front(from: &[u8], into: &mut [u8]) -> usize
    ensures count { result ≡ min (length into.old) (length from.now) }
    ensures front { take result into.new ≡ take (length into.old) from.now }
    ensures behind { drop result into.new ≡ drop result into.old }
    ensures len { length into.new ≡ length into.old }
{
    let count = into.len().min(from.len());
    into[..count].copy_from_slice(&from[..count]);
    count
}

// Puts the bytes over what is there from that place on, in room that is there.
fn overwrite(seen: &mut Vec<u8>, at: usize, bytes: &[u8])
    requires at { at ≤ length seen.old.items }
    requires room { vec_len seen.old + length bytes.now ≤ vec_capacity seen.old }
    ensures items { seen.new.items ≡ write at bytes.now seen.old.items }
    ensures len { vec_len seen.new ≤ vec_len seen.old + length bytes.now }
    ensures room { vec_capacity seen.old ≤ vec_capacity seen.new }
{
    let count = bytes.len().min(seen.len() - at);
    seen[at..at + count].copy_from_slice(&bytes[..count]);
    seen.extend_from_slice(&bytes[count..]).unwrap();
}

// Keeps a write, in room that is there.
#[tactic(auto, using(crate::proofs::Moves::steps_push, crate::proofs::Moves::within_push))]
fn record_write(written: &mut Vec<u8>, moves: &mut Vec<Move>, at: usize, bytes: &[u8])
    requires within { All (IsWithin (length written.old.items)) moves.old.items }
    requires room { vec_len written.old + length bytes.now ≤ vec_capacity written.old }
    requires moves { vec_len moves.old < vec_capacity moves.old }
    ensures steps { steps_of written.new.items moves.new.items
        ≡ Write at bytes.now ∷ steps_of written.old.items moves.old.items }
    ensures within { All (IsWithin (length written.new.items)) moves.new.items }
    ensures len { vec_len written.new ≡ vec_len written.old + length bytes.now }
    ensures count { vec_len moves.new ≡ vec_len moves.old + 1 }
    ensures room { vec_capacity written.old ≤ vec_capacity written.new }
    ensures most { vec_capacity moves.old ≤ vec_capacity moves.new }
{
    let from = written.len();
    written.extend_from_slice(bytes).unwrap();
    moves
        .push(Move::Write {
            at,
            from,
            len: bytes.len(),
        })
        .unwrap();
}
