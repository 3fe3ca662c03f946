//! Reading what the disk of a journal holds.
ghost use Rattle.std.specs.Prelude.{◌≡◌, ◌+◌, ◌≤◌, ◌++◌, length, take, drop, IfOk, IfErr, IfSome, OnOk};
ghost use Rattle.outside_io.specs.Told.{HasCause};
ghost use Rattle.journal_core.specs.Opening.{ReadFits};
ghost use Rattle.journal_core.specs.Reading.{padded, OnlyReads};
ghost use Rattle.journal_core.specs.declared.journal.Trust.TheVariants.{Clean};

use crate::faults::OpenFault;
use crate::journal::Journal;
use byte_lists::{Buffer, Bytes};
use disk_core::Disk;
use journal_format::DeviceFault;
use std::alloc::Global;

/// How many bytes are read at once into a buffer.
const CHUNK: usize = 4096;

impl<D: Disk> Journal<D> {
    /// Makes `into` hold `len` bytes, for which it has to have room: those that a read gives from `at` on, and zeros
    /// for what is past the end. Answers DeviceFault where a call of the disk failed; then `into` may hold
    /// anything. Takes no memory.
    pub fn read_body(&mut self, at: u64, into: &mut Buffer, len: u32) -> Result<(), DeviceFault>
        requires { len ≤ into.old.room }
        ensures given { OnOk result (IfSome (D.seen self.new.disk)
            (λ b. into.new.bytes ≡ padded len (drop at b))) }
        ensures len { OnOk result (length into.new.bytes ≡ len) }
        ensures room { into.old.room ≤ into.new.room }
        ensures reads { OnlyReads D.seen D.images D.moment D.since D.trail D.syncs
            self.old.disk self.new.disk }
        ensures same { (self.new.gate ≡ self.old.gate) × (self.new.trust ≡ self.old.trust) }
        ensures cause { HasCause (D.faults self.old.disk) (D.faults self.new.disk) result }
    {
        fill(&mut self.disk, at, into, len as usize)
    }

    /// The bytes of a clean journal, from the first one up to and with the closed gate, as a read gives them. Refuses
    /// with DeviceFault where a call of the disk failed, and for want of memory.
    pub fn bytes(&mut self, alloc: Global) -> Result<Bytes, OpenFault>
        requires { self.old.trust ≡ Clean }
        ensures bytes { IfOk result (λ x. IfSome (D.seen self.old.disk)
            (λ b. x ≡ take (self.old.gate + 1) b)) }
        ensures refused { IfErr result (λ e. ReadFits e (D.faults self.old.disk) (D.faults self.new.disk)) }
        ensures faults { OnOk result (D.faults self.new.disk ≡ D.faults self.old.disk) }
        ensures reads { OnlyReads D.seen D.images D.moment D.since D.trail D.syncs
            self.old.disk self.new.disk }
        ensures same { (self.new.gate ≡ self.old.gate) × (self.new.trust ≡ self.old.trust) }
    {
        let count = self.gate.saturating_add(1);
        match read_first(alloc, &mut self.disk, count) {
            Ok(bytes) => Ok(Bytes::from_vec(bytes)),
            Err(fault) => Err(fault),
        }
    }
}

/// All bytes of the disk.
pub(crate) fn read_whole<D: Disk>(alloc: Global, disk: &mut D) -> Result<Vec<u8>, OpenFault>
    ensures bytes { IfOk result (λ v. IfSome (D.seen disk.new) (λ b. v.items ≡ b)) }
    ensures refused { IfErr result (λ e. ReadFits e (D.faults disk.old) (D.faults disk.new)) }
    ensures faults { OnOk result (D.faults disk.new ≡ D.faults disk.old) }
    ensures reads { OnlyReads D.seen D.images D.moment D.since D.trail D.syncs disk.old disk.new }
{
    match disk.len() {
        Ok(len) => read_first(alloc, disk, len),
        Err(_) => Err(OpenFault::DeviceFault),
    }
}

// The first so many bytes of the disk, fewer where there aren't so many.
fn read_first<D: Disk>(alloc: Global, disk: &mut D, count: u64) -> Result<Vec<u8>, OpenFault>
    ensures bytes { IfOk result (λ v. IfSome (D.seen disk.old) (λ b. v.items ≡ take count b)) }
    ensures refused { IfErr result (λ e. ReadFits e (D.faults disk.old) (D.faults disk.new)) }
    ensures faults { OnOk result (D.faults disk.new ≡ D.faults disk.old) }
    ensures reads { OnlyReads D.seen D.images D.moment D.since D.trail D.syncs disk.old disk.new }
{
    match vec![in alloc; 0u8; count as usize] {
        Ok(bytes) => read_into(disk, bytes),
        Err(_) => Err(OpenFault::NoMemory),
    }
}

// As many of the disk's first bytes as the list has, in their place.
fn read_into<D: Disk>(disk: &mut D, bytes: Vec<u8>) -> Result<Vec<u8>, OpenFault>
    ensures bytes { IfOk result (λ v. IfSome (D.seen disk.old) (λ b. v.items ≡ take (length bytes.items) b)) }
    ensures refused { IfErr result (λ e. ReadFits e (D.faults disk.old) (D.faults disk.new)) }
    ensures faults { OnOk result (D.faults disk.new ≡ D.faults disk.old) }
    ensures reads { OnlyReads D.seen D.images D.moment D.since D.trail D.syncs disk.old disk.new }
{
    let mut bytes = bytes;
    match disk.read_at(0, bytes.as_mut_slice()) {
        Ok(count) => {
            bytes.truncate(count);
            Ok(bytes)
        }
        Err(_) => Err(OpenFault::DeviceFault),
    }
}

// Makes `into` hold so many bytes from that place on, with zeros for those past the end.
fn fill<D: Disk>(disk: &mut D, at: u64, into: &mut Buffer, len: usize) -> Result<(), DeviceFault>
    requires { len ≤ into.old.room }
    ensures given { OnOk result (IfSome (D.seen disk.new) (λ b. into.new.bytes ≡ padded len (drop at b))) }
    ensures len { OnOk result (length into.new.bytes ≡ len) }
    ensures room { into.old.room ≤ into.new.room }
    ensures reads { OnlyReads D.seen D.images D.moment D.since D.trail D.syncs disk.old disk.new }
    ensures cause { HasCause (D.faults disk.old) (D.faults disk.new) result }
{
    into.clear();
    let mut place = at;
    let mut left = len;
    'chunks: while left > 0 {
        let count = left.min(CHUNK);
        add_part(disk, place, into, count)?;
        left -= count;
        place = place.saturating_add(count as u64);
    }
    Ok(())
}

// Puts so many bytes from that place on at the end, with zeros for those past the disk's end.
fn add_part<D: Disk>(
    disk: &mut D,
    at: u64,
    into: &mut Buffer,
    count: usize,
) -> Result<(), DeviceFault>
    requires part { count ≤ CHUNK }
    requires room { length into.old.bytes + count ≤ into.old.room }
    ensures given { OnOk result (IfSome (D.seen disk.old)
        (λ b. into.new.bytes ≡ into.old.bytes ++ padded count (drop at b))) }
    ensures len { OnOk result (length into.new.bytes ≡ length into.old.bytes + count) }
    ensures room { into.old.room ≤ into.new.room }
    ensures reads { OnlyReads D.seen D.images D.moment D.since D.trail D.syncs disk.old disk.new }
    ensures cause { HasCause (D.faults disk.old) (D.faults disk.new) result }
{
    let mut chunk = [0u8; CHUNK];
    let part = &mut chunk[..count];
    read_part(disk, at, part)?;
    into.append(part);
    Ok(())
}

// Fills the buffer from that place on, with zeros for what is past the end.
fn read_part<D: Disk>(disk: &mut D, at: u64, buffer: &mut [u8]) -> Result<(), DeviceFault>
    ensures given { OnOk result (IfSome (D.seen disk.old)
        (λ b. buffer.new ≡ padded (length buffer.old) (drop at b))) }
    ensures len { length buffer.new ≡ length buffer.old }
    ensures reads { OnlyReads D.seen D.images D.moment D.since D.trail D.syncs disk.old disk.new }
    ensures cause { HasCause (D.faults disk.old) (D.faults disk.new) result }
{
    match disk.read_at(at, buffer) {
        Ok(count) => {
            buffer[count..].fill(0);
            Ok(())
        }
        Err(_) => Err(DeviceFault),
    }
}
