//! The journal with what a commit needs, as it lies under the lock.
ghost use Rattle.std.specs.Prelude.{◌≡◌, ◌+◌, ◌-◌, ◌<◌, ◌≤◌, ℕ, length, drop, IfSome, OnOk};
ghost use Rattle.journal_format.specs.Spelling.{txn_bytes};
ghost use Rattle.journal_core.specs.declared.journal.Trust.TheVariants.{Clean};
ghost use Rattle.journal_core.specs.Reading.{padded};
ghost use Rattle.commit_table.specs.Turns.{Goes, commit_events, read_events, is_stored};
ghost use Rattle.commit_table.specs.Deskwork.{IsReceipt, settlement};

use crate::answers::Settled;
use acts_core::Receipt;
use byte_lists::Buffer;
use disk_core::Disk;
use journal_core::Journal;
use journal_format::{DeviceFault, Txn};
use std::slice;

/// A journal, the buffer by way of which it is written, and how many commits were made.
#[derive(Drop)]
pub struct Desk<D: Disk + Drop> {
    pub(crate) journal: Journal<D>,
    pub(crate) scratch: Buffer,
    pub(crate) count: u64,
}

impl<D: Disk + Drop> Desk<D> {
    /// Repairs the journal if it is unclean, and appends the transaction. Whatever it answers, the journal goes on to
    /// carry the history, with the transaction's Sub and its Settle.
    pub(crate) fn commit(&mut self, txn: &Txn) -> Settled
        requires some { 1 ≤ length txn.now.items }
        requires room { length (txn_bytes txn.now.items) + 13 ≤ self.old.scratch.room }
        requires few { self.old.count < 4294967295 }
        ensures goes { (caller : ℕ) →
            Goes D.seen D.images D.moment D.since D.trail D.faults D.syncs self.old self.new
            (commit_events caller txn.now.items (is_stored result) (D.moment self.new.journal.disk)
            (D.syncs self.new.journal.disk - D.syncs self.old.journal.disk)
            (D.faults self.new.journal.disk - D.faults self.old.journal.disk)) }
        ensures receipt { IsReceipt result self.old.count self.old.journal.gate }
        ensures syncs { D.syncs self.new.journal.disk ≤ D.syncs self.old.journal.disk + 3 }
        ensures quick { self.old.journal.trust ≡ Clean →
            D.syncs self.new.journal.disk ≤ D.syncs self.old.journal.disk + 2 }
    {
        let ticket = self.count;
        let answer = self.journal.commit(slice::from_ref(txn), &mut self.scratch);
        self.count += 1;
        settled_by(answer, ticket)
    }

    /// Makes `into` hold `len` bytes, for which it has to have room: those that a read gives from `at` on, and zeros for
    /// what is past the end. The journal goes on to carry the history, with a Lost where a call of the disk failed.
    pub(crate) fn read_body(
        &mut self,
        at: u64,
        into: &mut Buffer,
        len: u32,
    ) -> Result<(), DeviceFault>
        requires { len ≤ into.old.room }
        ensures goes { (caller : ℕ) →
            Goes D.seen D.images D.moment D.since D.trail D.faults D.syncs self.old self.new
            (read_events caller result
            (D.faults self.new.journal.disk - D.faults self.old.journal.disk)) }
        ensures given { OnOk result (IfSome (D.seen self.new.journal.disk)
            (λ x. into.new.bytes ≡ padded len (drop at x))) }
        ensures len { OnOk result (length into.new.bytes ≡ len) }
        ensures room { into.old.room ≤ into.new.room }
    {
        self.journal.read_body(at, into, len)
    }
}

/// What became of a ticket, by the answer of the journal.
fn settled_by(answer: Result<u64, DeviceFault>, ticket: u64) -> Settled
    ensures { result ≡ settlement answer ticket }
{
    match answer {
        Ok(at) => Settled::Stored(Receipt { ticket, at }),
        Err(_) => Settled::Failed,
    }
}
