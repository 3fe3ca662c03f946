//! Laws on sessions of a journal. No program needs to call them: each has its law as its contract.
ghost use Rattle.std.specs.Prelude.{◌≡◌, ◌≤◌, ◌++◌, [], ℕ, List};
ghost use Rattle.disk_core.specs.Images.{Over, NoMore};
ghost use Rattle.disk_core.specs.Trails.{Extends};
ghost use Rattle.journal_format.specs.Spelling.{Txn};
ghost use Rattle.journal_format.specs.Journal.{IsJournal};
ghost use Rattle.journal_format.specs.declared.events.Event.{Event};
ghost use Rattle.journal_core.specs.declared.journal.Trust.{Trust};
ghost use Rattle.journal_core.specs.History.{after, Each, IsQuiet};
ghost use Rattle.journal_core.specs.Kept.{Agrees, Kept};

use disk_core::Disk;

/// What one session keeps, and then another, is kept by both as one.
pub fn sessions<D: Disk>()
    ensures { (t0 : ℕ) (d1 d2 d3 : D) (C : List Txn) (J1 J2 : List Event) →
        t0 ≤ D.moment d1 → (after J1).waiting ≡ []
        → Kept D.moment D.since IsJournal t0 d1 C J1
        → ((c : List ℕ) → D.images d1 c → IsJournal c (C ++ (after J1).stored))
        → Over D.moment D.since d1 d2 (λ c. IsJournal c (C ++ (after J1).stored))
        → Kept D.moment D.since IsJournal (D.moment d2) d3 (C ++ (after J1).stored) J2
        → Extends (D.trail d2) (D.trail d3) → D.moment d2 ≤ D.moment d3
        → Kept D.moment D.since IsJournal t0 d3 C (J1 ++ J2) }
{}

/// Calls that bring no image, as reads, and transactions that are only submitted, keep what was kept.
pub fn quiet<D: Disk>()
    ensures { (t0 : ℕ) (d d2 : D) (gate : ℕ) (trust : Trust) (C : List Txn) (J new : List Event) →
        Agrees (D.images d) gate trust C (after J) → t0 ≤ D.moment d
        → Kept D.moment D.since IsJournal t0 d C J
        → Over D.moment D.since d d2 (D.images d) → NoMore (D.images d) (D.images d2)
        → Each IsQuiet new
        → Agrees (D.images d2) gate trust C (after (J ++ new))
        × Kept D.moment D.since IsJournal t0 d2 C (J ++ new) }
{}

/// At the beginning of a session, with no history yet, the commits that a journal stands for are kept.
pub fn begins<D: Disk>()
    ensures { (d : D) (gate : ℕ) (trust : Trust) (C : List Txn) →
        Agrees (D.images d) gate trust C (after []) → Kept D.moment D.since IsJournal (D.moment d) d C [] }
{}
