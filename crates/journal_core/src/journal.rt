//! A journal on a disk.
ghost use Rattle.std.specs.Prelude.{◌≡◌, ◌+◌, ◌-◌, ◌≤◌, ◌++◌, ◌∷◌, ◌↔◌, [], ℕ, List, length, min, is_ok, IsTrue, IfOk, IfSome, OnOk, OnErr};
ghost use Rattle.std.specs.List.{All, flat_map};
ghost use Rattle.outside_io.specs.Counts.{last_count};
ghost use Rattle.outside_io.specs.Told.{HasCause};
ghost use Rattle.disk_core.specs.Trails.{Extends};
ghost use Rattle.disk_core.specs.Images.{Over, Still, NoMore};
ghost use Rattle.journal_format.specs.Spelling.{Txn as Listed, txn_bytes, batch_bytes};
ghost use Rattle.journal_format.specs.Batches.{lists_of};
ghost use Rattle.journal_format.specs.Journal.{IsJournal};
ghost use Rattle.journal_format.specs.declared.events.Event.{Event};
ghost use Rattle.journal_core.specs.Stands.{Stands, IsEither, IsBody, KeepsFront, Gives};
ghost use Rattle.journal_core.specs.History.{after};
ghost use Rattle.journal_core.specs.Kept.{Agrees, Kept, settled};
ghost use Rattle.journal_core.specs.declared.journal.Trust.TheVariants.{Clean, Gate};

use crate::steps::{mend, write_behind};
use byte_lists::Buffer;
use disk_core::Disk;
use journal_format::batches::write_batch;
use journal_format::{DeviceFault, Txn};
use std::marker::Model;

/// How far an append had come that failed.
#[derive(Clone, Copy, Debug, PartialEq, Eq)]
pub enum Trust {
    /// None failed since the last repair.
    Clean,
    /// It had not come to its gate write.
    Body,
    /// It had come to its gate write.
    Gate,
}

/// A journal: commits on a disk. Contracts see the disk, the place of the gate behind the last batch, and how far
/// an append had come that failed. In each image of its disk the commits are the same, or, where an append that
/// failed had come to its gate write, those or those and all of its batch.
#[derive(Drop)]
pub struct Journal<D: Disk> {
    pub(crate) disk: D,
    pub(crate) gate: u64,
    pub(crate) trust: Trust,
}

impl<D: Disk> Model for Journal<D> {
    ghost use Rattle.std.specs.Prelude.{List};
    ghost use Rattle.journal_format.specs.Spelling.{Txn};
    ghost use Rattle.journal_core.specs.Stands.{JournalView, Stands};

    ghost Value = { JournalView D };

    ghost view = { λ j. record { disk = j.disk; gate = j.gate; trust = j.trust } };

    ghost invariant = { λ j. (C : List Txn) × (A : List Txn) × Stands (D.images j.disk) j.gate j.trust C A };
}

impl<D: Disk> Journal<D> {
    /// Appends a batch of from 1 to 4,294,967,295 transactions of at least one item each, to a clean journal, by way of
    /// a buffer with room for it. Writes the body with the next gate closed, syncs, opens the gate, syncs. Answers
    /// the place of the first transaction. After DeviceFault, which comes where a call of the disk failed, the
    /// journal is unclean. Takes no memory.
    pub fn append(&mut self, txns: &[Txn], scratch: &mut Buffer) -> Result<u64, DeviceFault>
        requires clean { self.old.trust ≡ Clean }
        requires some { 1 ≤ length txns.now }
        requires few { length txns.now ≤ 4294967295 }
        requires items { All (λ t. 1 ≤ length t.items) txns.now }
        requires room { length (batch_bytes (lists_of txns.now)) + 1 ≤ scratch.old.room }

        // In every image of every moment of the call the commits are those before, or those before and all of these.
        ensures moments { (C A : List Listed) →
            Stands (D.images self.old.disk) self.old.gate self.old.trust C A →
            Over D.moment D.since self.old.disk self.new.disk (IsEither C (lists_of txns.now)) }
        // After Ok every image has them, and a read gives them from the answered place on.
        ensures ok { OnOk result ((C A : List Listed) →
            Stands (D.images self.old.disk) self.old.gate self.old.trust C A →
            Stands (D.images self.new.disk) self.new.gate self.new.trust
            (C ++ lists_of txns.now) (lists_of txns.now)) }
        ensures gives { OnOk result (IfSome (D.seen self.new.disk)
            (Gives (self.old.gate + 13) (flat_map txn_bytes (lists_of txns.now)))) }
        ensures err { OnErr result ((C A : List Listed) →
            Stands (D.images self.old.disk) self.old.gate self.old.trust C A →
            Stands (D.images self.new.disk) self.new.gate self.new.trust C (lists_of txns.now)) }
        ensures clean { OnOk result (self.new.trust ≡ Clean) }
        ensures unclean { OnErr result (self.new.trust ≡ Clean → ⊥) }
        ensures place { IfOk result (λ at. at ≡ min (self.old.gate + 13) last_count) }
        ensures gate { OnOk result (self.new.gate
            ≡ min (self.old.gate + (length (batch_bytes (lists_of txns.now)) + 1)) last_count) }
        ensures stays { OnErr result (self.new.gate ≡ self.old.gate) }
        ensures front { KeepsFront self.old.gate (D.seen self.old.disk) (D.seen self.new.disk) }
        ensures trail { Extends (D.trail self.old.disk) (D.trail self.new.disk) }
        ensures cause { HasCause (D.faults self.old.disk) (D.faults self.new.disk) result }
        ensures syncs { (D.syncs self.old.disk ≤ D.syncs self.new.disk)
            × (D.syncs self.new.disk ≤ D.syncs self.old.disk + 2) }
        ensures room { scratch.old.room ≤ scratch.new.room }
    {
        scratch.clear();
        write_batch(txns, scratch);
        self.append_body(scratch.as_slice())
    }

    // Appends the batch whose bytes these are, with a closed gate behind them.
    fn append_body(&mut self, body: &[u8]) -> Result<u64, DeviceFault>
        requires clean { self.old.trust ≡ Clean }
        requires batch { (B : List Listed) × IsBody B body.now }
        ensures moments { (C A B : List Listed) →
            Stands (D.images self.old.disk) self.old.gate self.old.trust C A → IsBody B body.now →
            Over D.moment D.since self.old.disk self.new.disk (IsEither C B) }
        ensures ok { OnOk result ((C A B : List Listed) →
            Stands (D.images self.old.disk) self.old.gate self.old.trust C A → IsBody B body.now →
            Stands (D.images self.new.disk) self.new.gate self.new.trust (C ++ B) B) }
        ensures gives { OnOk result ((B : List Listed) → IsBody B body.now →
            IfSome (D.seen self.new.disk) (Gives (self.old.gate + 13) (flat_map txn_bytes B))) }
        ensures err { OnErr result ((C A B : List Listed) →
            Stands (D.images self.old.disk) self.old.gate self.old.trust C A → IsBody B body.now →
            Stands (D.images self.new.disk) self.new.gate self.new.trust C B) }
        ensures clean { OnOk result (self.new.trust ≡ Clean) }
        ensures unclean { OnErr result (self.new.trust ≡ Clean → ⊥) }
        ensures place { IfOk result (λ at. at ≡ min (self.old.gate + 13) last_count) }
        ensures gate { OnOk result (self.new.gate ≡ min (self.old.gate + length body.now) last_count) }
        ensures stays { OnErr result (self.new.gate ≡ self.old.gate) }
        ensures front { KeepsFront self.old.gate (D.seen self.old.disk) (D.seen self.new.disk) }
        ensures trail { Extends (D.trail self.old.disk) (D.trail self.new.disk) }
        ensures cause { HasCause (D.faults self.old.disk) (D.faults self.new.disk) result }
        ensures syncs { (D.syncs self.old.disk ≤ D.syncs self.new.disk)
            × (D.syncs self.new.disk ≤ D.syncs self.old.disk + 2) }
    {
        let gate = self.gate;
        match write_behind(&mut self.disk, gate, body) {
            Ok(next) => {
                self.gate = next;
                Ok(gate.saturating_add(FIRST_TXN))
            }
            Err(trust) => {
                self.trust = trust;
                Err(DeviceFault)
            }
        }
    }

    /// Whether no append failed since the last repair. Whatever it answers, each image stands for the journal's
    /// commits.
    pub fn is_clean(&self) -> bool
        ensures clean { IsTrue result ↔ (self.now.trust ≡ Clean) }
        ensures stands { (C A : List Listed) ×
            Stands (D.images self.now.disk) self.now.gate self.now.trust C A }
    {
        self.trust == Trust::Clean
    }

    /// Makes an unclean journal clean: closes the gate where the append that failed had come to its gate write, and
    /// then syncs. Where the append had not come so far, it is the sync alone. After Ok no image has the batch
    /// that failed. After DeviceFault, which comes where a call of the disk failed, nothing new is known. Takes no
    /// memory.
    pub fn repair(&mut self) -> Result<(), DeviceFault>
        // In every image of every moment of the call the commits are those before, or also all of that batch.
        ensures moments { (C B : List Listed) →
            Stands (D.images self.old.disk) self.old.gate self.old.trust C B →
            Over D.moment D.since self.old.disk self.new.disk (IsEither C B) }
        ensures stands { (C B : List Listed) →
            Stands (D.images self.old.disk) self.old.gate self.old.trust C B →
            Stands (D.images self.new.disk) self.new.gate self.new.trust C B }
        ensures ok { OnOk result (self.new.trust ≡ Clean) }
        ensures err { OnErr result (self.new.trust ≡ self.old.trust) }
        ensures gate { self.new.gate ≡ self.old.gate }
        ensures alone { (self.old.trust ≡ Gate → ⊥) → Still (D.seen self.old.disk) (D.seen self.new.disk)
            × NoMore (D.images self.old.disk) (D.images self.new.disk) }
        ensures front { KeepsFront self.old.gate (D.seen self.old.disk) (D.seen self.new.disk) }
        ensures trail { Extends (D.trail self.old.disk) (D.trail self.new.disk) }
        ensures cause { HasCause (D.faults self.old.disk) (D.faults self.new.disk) result }
        ensures syncs { (D.syncs self.old.disk ≤ D.syncs self.new.disk)
            × (D.syncs self.new.disk ≤ D.syncs self.old.disk + 1) }
    {
        let gate = self.gate;
        let trust = self.trust;
        match mend(&mut self.disk, gate, trust) {
            Ok(()) => {
                self.trust = Trust::Clean;
                Ok(())
            }
            Err(fault) => Err(fault),
        }
    }

    /// One commit, as it is made under a lock: repairs an unclean journal, and appends the batch. Whatever it
    /// answers, the history goes on with its Settle, and what was kept before is kept after. Takes no memory.
    pub fn commit(&mut self, txns: &[Txn], scratch: &mut Buffer) -> Result<u64, DeviceFault>
        requires some { 1 ≤ length txns.now }
        requires few { length txns.now ≤ 4294967295 }
        requires items { All (λ t. 1 ≤ length t.items) txns.now }
        requires room { length (batch_bytes (lists_of txns.now)) + 1 ≤ scratch.old.room }
        ensures agrees { (C : List Listed) (J : List Event) → (after J).waiting ≡ lists_of txns.now
            → Agrees (D.images self.old.disk) self.old.gate self.old.trust C (after J)
            → Agrees (D.images self.new.disk) self.new.gate self.new.trust C
            (after (J ++ settled (length (lists_of txns.now)) (is_ok result) (D.moment self.new.disk)
            (D.syncs self.new.disk - D.syncs self.old.disk)
            (D.faults self.new.disk - D.faults self.old.disk))) }
        ensures kept { (t0 : ℕ) (C : List Listed) (J : List Event) → (after J).waiting ≡ lists_of txns.now
            → Agrees (D.images self.old.disk) self.old.gate self.old.trust C (after J)
            → t0 ≤ D.moment self.old.disk → Kept D.moment D.since IsJournal t0 self.old.disk C J
            → Kept D.moment D.since IsJournal t0 self.new.disk C
            (J ++ settled (length (lists_of txns.now)) (is_ok result) (D.moment self.new.disk)
            (D.syncs self.new.disk - D.syncs self.old.disk)
            (D.faults self.new.disk - D.faults self.old.disk)) }
        ensures gives { OnOk result (IfSome (D.seen self.new.disk)
            (Gives (self.old.gate + 13) (flat_map txn_bytes (lists_of txns.now)))) }
        ensures clean { OnOk result (self.new.trust ≡ Clean) }
        ensures unclean { OnErr result (self.new.trust ≡ Clean → ⊥) }
        ensures place { IfOk result (λ at. at ≡ min (self.old.gate + 13) last_count) }
        ensures gate { OnOk result (self.new.gate
            ≡ min (self.old.gate + (length (batch_bytes (lists_of txns.now)) + 1)) last_count) }
        ensures stays { OnErr result (self.new.gate ≡ self.old.gate) }
        ensures front { KeepsFront self.old.gate (D.seen self.old.disk) (D.seen self.new.disk) }
        ensures trail { Extends (D.trail self.old.disk) (D.trail self.new.disk) }
        ensures cause { HasCause (D.faults self.old.disk) (D.faults self.new.disk) result }
        ensures syncs { (D.syncs self.old.disk ≤ D.syncs self.new.disk)
            × (D.syncs self.new.disk ≤ D.syncs self.old.disk + 3) }
        ensures quick { self.old.trust ≡ Clean → D.syncs self.new.disk ≤ D.syncs self.old.disk + 2 }
        ensures room { scratch.old.room ≤ scratch.new.room }
    {
        match self.repair_if_due() {
            Err(fault) => Err(fault),
            Ok(()) => self.append(txns, scratch),
        }
    }

    // Repairs an unclean journal.
    #[tactic(auto, using(crate::proofs::Moments::same_trail, crate::proofs::Torn::keeps_self))]
    fn repair_if_due(&mut self) -> Result<(), DeviceFault>
        ensures moments { (C B : List Listed) →
            Stands (D.images self.old.disk) self.old.gate self.old.trust C B →
            Over D.moment D.since self.old.disk self.new.disk (IsEither C B) }
        ensures stands { (C B : List Listed) →
            Stands (D.images self.old.disk) self.old.gate self.old.trust C B →
            Stands (D.images self.new.disk) self.new.gate self.new.trust C B }
        ensures ok { OnOk result (self.new.trust ≡ Clean) }
        ensures err { OnErr result ((self.new.trust ≡ self.old.trust) × (self.new.trust ≡ Clean → ⊥)) }
        ensures gate { self.new.gate ≡ self.old.gate }
        ensures front { KeepsFront self.old.gate (D.seen self.old.disk) (D.seen self.new.disk) }
        ensures trail { Extends (D.trail self.old.disk) (D.trail self.new.disk) }
        ensures cause { HasCause (D.faults self.old.disk) (D.faults self.new.disk) result }
        ensures syncs { (D.syncs self.old.disk ≤ D.syncs self.new.disk)
            × (D.syncs self.new.disk ≤ D.syncs self.old.disk + 1) }
        ensures rest { self.old.trust ≡ Clean → D.syncs self.new.disk ≡ D.syncs self.old.disk }
    {
        match self.trust {
            Trust::Clean => Ok(()),
            Trust::Body => self.repair(),
            Trust::Gate => self.repair(),
        }
    }

    /// The disk.
    pub fn into_disk(self) -> D
        ensures { result ≡ self.disk }
    {
        let Journal {
            disk,
            gate: _,
            trust: _,
        } = self;
        disk
    }
}

/// How many bytes stand from a gate on to the first transaction behind it.
const FIRST_TXN: u64 = 13;
