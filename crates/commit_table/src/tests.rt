ghost use Rattle.std.specs.Prelude.{◌≡◌, ◌+◌, ◌≤◌, ◌∷◌, [], length, IfOk, IfSome};
ghost use Rattle.journal_format.specs.Spelling.{txn_bytes};
ghost use Rattle.commit_table.specs.Tables.{IsPassOf, begun, view, Same};

use crate::{CommitPass, CommitTable, Committed, Receipt, Settled};
use byte_lists::{Buffer, Bytes, NoMemory};
use disk_core::MemoryDisk;
use journal_core::{Journal, create, open_journal};
use journal_format::{DeviceFault, Txn};
use std::alloc::Global;
use std::process::Abort;
use std::sync::Wait;
use std::test::Fail;
use std::thread::join;

/// A journal with no commits.
const EMPTY: &[u8] = b"QPIDQJNL\0\0\0\x01\0\0\0\0\0";

/// A batch of one transaction: an entry is gone from queue q. Its id follows, and then the next gate.
const BATCH: &[u8] = b"\x01\0\0\0\0\0\0\0\x13\0\0\0\x01\0\0\0\x01\x02\x01q";

/// How many bytes a transaction may have.
const BYTES_EACH: u64 = 64;

/// How many transactions each of two threads commits.
const EACH: u64 = 200;

/// How many calls the disk takes, and how many bytes.
const MOST_CALLS: u64 = 4_000;

const MOST_BYTES: u64 = 40_000;

// That entry is gone from queue q. None for want of memory.
fn gone(alloc: Global, id: u64) -> Option<Txn>
    ensures some { IfSome result (λ t. 1 ≤ length t.items) }
    ensures short { IfSome result (λ t. length (txn_bytes t.items) ≤ BYTES_EACH) }
{
    let queue = Bytes::of(alloc, b"q").ok()?;
    let mut txn = Txn::with_room(alloc, BYTES_EACH).ok()?;
    txn.gone(&queue, id).ok()?;
    if txn.len() > BYTES_EACH {
        return None;
    }
    Some(txn)
}

// A table over a new journal on a disk that fails at these calls: 0 to 2 are those of `create`.
fn made<R: Drop>(
    rt: R,
    alloc: Global,
    tickets: u32,
    failing: &[u64],
) -> Result<(CommitTable<MemoryDisk, R>, CommitPass), Fail>
    ensures table { IfOk result (λ t. IsPassOf t.0 t.1) }
    ensures begun { IfOk result (λ t. ((begun t.1).bytes_each ≡ BYTES_EACH)
        × ((begun t.1).callers ≡ 3)) }
    ensures boss { IfOk result (λ t. (t.1.caller ≡ 0) × (t.1.share ≡ tickets)
        × ((view t.1).callers ≡ 0 ∷ []) × ((view t.1).made ≡ 1)) }
{
    let failing = Vec::from_slice(alloc, failing)?;
    let disk = MemoryDisk::of(
        alloc,
        Bytes::of(alloc, b"")?,
        MOST_CALLS,
        MOST_BYTES,
        failing,
    )?;
    match create(disk) {
        Ok(journal) => match CommitTable::make(rt, alloc, journal, 3, tickets as u64, BYTES_EACH) {
            Ok(table) => Ok(table),
            Err(_) => Err(NoMemory.into()),
        },
        Err((fault, _)) => Err(fault.into()),
    }
}

// Commits that an entry is gone. None for want of memory or of a ticket.
fn commit_gone<R: Wait + Send + Sync + Drop>(
    alloc: Global,
    table: &CommitTable<MemoryDisk, R>,
    pass: &mut CommitPass,
    id: u64,
) -> Option<Settled>
    requires pass { IsPassOf table.now pass.old }
    requires room { (begun pass.old).bytes_each ≡ BYTES_EACH }
    ensures same { Same pass.old pass.new }
{
    let Some(txn) = gone(alloc, id) else {
        return None;
    };
    match table.commit(pass, txn) {
        Committed::Done(settled, _) => Some(settled),
        Committed::TicketsSpent(_) => None,
    }
}

// What a journal over these bytes gives as its bytes.
fn bytes_of(alloc: Global, content: Bytes) -> Result<Bytes, Fail> {
    let disk = MemoryDisk::of(alloc, content, 9, 9, Vec::new(alloc))?;
    match open_journal(alloc, disk) {
        Ok(journal) => told(alloc, journal),
        Err((fault, _)) => Err(fault.into()),
    }
}

// The bytes of a clean journal.
fn told(alloc: Global, journal: Journal<MemoryDisk>) -> Result<Bytes, Fail> {
    let mut journal = journal;
    if journal.is_clean() {
        Ok(journal.bytes(alloc)?)
    } else {
        Err(DeviceFault.into())
    }
}

// The bytes of a journal in which these entries are gone, one by each commit.
fn with_gone(alloc: Global, ids: &[u64]) -> Result<Bytes, Fail> {
    let mut bytes = Vec::from_slice(alloc, EMPTY)?;
    for id in ids {
        bytes.pop();
        bytes.extend_from_slice(BATCH)?;
        bytes.extend_from_slice(&id.to_be_bytes())?;
        bytes.push(0)?;
    }
    Ok(Bytes::from_vec(bytes))
}

#[test]
fn ample(rt: HostRuntime) -> Result<(), Fail> {
    let alloc = rt.alloc();
    let (table, mut pass) = made(rt, alloc, 2, &[])?;
    // The header has 16 bytes, and then the first gate; a transaction stands 13 bytes behind the gate that opens.
    assert_eq!(rt;
        commit_gone(alloc, &table, &mut pass, 7),
        Some(Settled::Stored(Receipt { ticket: 0, at: 29 }))
    );
    assert_eq!(rt;
        commit_gone(alloc, &table, &mut pass, 8),
        Some(Settled::Stored(Receipt { ticket: 1, at: 57 }))
    );
    table.settled(&mut pass, 1);
    table.settled(&mut pass, 2);
    let mut body = Buffer::with_room(alloc, 8)?;
    assert_eq!(rt; table.read_body(&mut pass, 36, &mut body, 8), Ok(()));
    assert_eq!(rt; body.as_slice(), 7u64.to_be_bytes().as_slice());
    // No ticket is left.
    assert_eq!(rt; commit_gone(alloc, &table, &mut pass, 9), None);
    Ok(())
}

// The journal at the end, where the boss is the only pass.
fn closed<R: Drop>(table: CommitTable<MemoryDisk, R>, boss: CommitPass) -> Journal<MemoryDisk>
    requires pass { IsPassOf table boss }
    requires boss { ((view boss).callers ≡ 0 ∷ []) × ((view boss).made ≡ 1) }
{
    table.close(boss)
}

#[test]
fn a_batch_that_failed_is_never_found_again(rt: HostRuntime) -> Result<(), Fail> {
    let alloc = rt.alloc();
    // Calls 0 to 2 are those of `create`; the first commit writes its batch, syncs, and fails as it opens the gate. The
    // next one repairs, and appends at the same place.
    let (table, mut pass) = made(rt, alloc, 2, &[5])?;
    assert_eq!(rt;
        commit_gone(alloc, &table, &mut pass, 7),
        Some(Settled::Failed)
    );
    assert_eq!(rt;
        commit_gone(alloc, &table, &mut pass, 8),
        Some(Settled::Stored(Receipt { ticket: 1, at: 29 }))
    );
    let disk = closed(table, pass).into_disk();
    assert_eq!(rt; disk.calls(), 12);
    let last = disk.image(alloc, disk.moments() - 1, 0)?;
    assert_eq!(rt;
        bytes_of(alloc, last)?.as_slice(),
        with_gone(alloc, &[8])?.as_slice()
    );
    Ok(())
}

// Whether a journal has one of these lists of commits.
fn is_one_of(alloc: Global, found: &[u8], lists: &[&[u64]]) -> Result<bool, Fail> {
    for ids in lists {
        if is_like(found, with_gone(alloc, ids)?.as_slice()) {
            return Ok(true);
        }
    }
    Ok(false)
}

// The same bytes, but for the gate at the end: a crash may have left any byte there that isn't 1.
fn is_like(found: &[u8], want: &[u8]) -> bool {
    match (found.split_last(), want.split_last()) {
        (Some((_, found)), Some((_, want))) => found == want,
        _ => false,
    }
}

// What the last image may have by what was answered: what was stored, and maybe the batch that failed last.
fn allowed(first: Option<Settled>, second: Option<Settled>) -> &'static [&'static [u64]] {
    match (is_stored(first), is_stored(second)) {
        (true, true) => &[&[7, 8]],
        (true, false) => &[&[7], &[7, 8]],
        (false, true) => &[&[8]],
        (false, false) => &[&[], &[7], &[8]],
    }
}

// Whether it is stored.
fn is_stored(settled: Option<Settled>) -> bool {
    matches!(settled, Some(Settled::Stored(_)))
}

#[test]
fn each_device_call_may_fail(rt: HostRuntime) -> Result<(), Fail> {
    let alloc = rt.alloc();
    for call in 3..13u64 {
        let (table, mut pass) = made(rt, alloc, 2, &[call])?;
        let first = commit_gone(alloc, &table, &mut pass, 7);
        let second = commit_gone(alloc, &table, &mut pass, 8);
        let disk = closed(table, pass).into_disk();
        for moment in 2..disk.moments() {
            for pick in 0..8u64 {
                let found = bytes_of(alloc, disk.image(alloc, moment, pick)?)?;
                let any = is_one_of(alloc, found.as_slice(), &[&[], &[7], &[8], &[7, 8]])?;
                assert!(rt; any, "call {call}, moment {moment}, pick {pick}");
                if moment + 1 == disk.moments() {
                    let kept = is_one_of(alloc, found.as_slice(), allowed(first, second))?;
                    assert!(rt; kept, "call {call}, pick {pick}");
                }
            }
        }
    }
    Ok(())
}

// Commits that entries are gone, those of the ids from this one on, one by each commit. Adds the ticket of each that is
// stored to a list that has room.
#[tactic(auto, using(crate::proofs::Sames::same_self, crate::proofs::Sames::same_then))]
fn commit_all<R: Wait + Send + Sync + Drop>(
    alloc: Global,
    table: &CommitTable<MemoryDisk, R>,
    pass: CommitPass,
    first: u64,
    tickets: Vec<u64>,
) -> (CommitPass, Vec<u64>)
    requires pass { IsPassOf table.now pass }
    requires room { (begun pass).bytes_each ≡ BYTES_EACH }
    ensures same { Same pass result.0 }
{
    let mut pass = pass;
    let mut tickets = tickets;
    for k in 0..EACH {
        let settled = commit_gone(alloc, table, &mut pass, first.wrapping_add(k));
        if let Some(Settled::Stored(receipt)) = settled {
            let _ = tickets.push(receipt.ticket);
        }
    }
    (pass, tickets)
}

// Two passes with as many tickets as each thread needs.
fn parted<R: Drop>(
    table: &CommitTable<MemoryDisk, R>,
    boss: &mut CommitPass,
) -> (CommitPass, CommitPass)
    requires table { IsPassOf table.now boss.old }
    requires boss { (boss.old.caller ≡ 0) × (boss.old.share ≡ EACH + EACH)
        × ((view boss.old).callers ≡ 0 ∷ []) × ((view boss.old).made ≡ 1) }
    requires begun { (begun boss.old).callers ≡ 3 }
    ensures tables { IsPassOf table.now boss.new × IsPassOf table.now result.0
        × IsPassOf table.now result.1 }
    ensures begun { (begun boss.new ≡ begun boss.old) × (begun result.0 ≡ begun boss.old)
        × (begun result.1 ≡ begun boss.old) }
    ensures callers { ((view boss.new).callers ≡ 0 ∷ []) × ((view result.0).callers ≡ 1 ∷ [])
        × ((view result.1).callers ≡ 2 ∷ []) }
    ensures made { (view boss.new).made ≡ 3 }
{
    let one = table.split(boss, EACH);
    let two = table.split(boss, EACH);
    (one, two)
}

// The journal at the end, where the boss has two passes joined into its own.
fn joined<R: Drop>(
    table: CommitTable<MemoryDisk, R>,
    boss: CommitPass,
    one: CommitPass,
    two: CommitPass,
) -> Journal<MemoryDisk>
    requires tables { IsPassOf table boss × IsPassOf table one × IsPassOf table two }
    requires begun { (begun one ≡ begun boss) × (begun two ≡ begun boss) }
    requires callers { ((view boss).callers ≡ 0 ∷ []) × ((view one).callers ≡ 1 ∷ [])
        × ((view two).callers ≡ 2 ∷ []) }
    requires made { (view boss).made ≡ 3 }
{
    let mut boss = boss;
    table.join(&mut boss, one);
    table.join(&mut boss, two);
    table.close(boss)
}

// Whether the entries from this id on are gone by the batches that stand where these tickets say: a batch has 28 bytes, and
// the first begins with the gate behind the header.
fn stand_in_order(found: &[u8], tickets: &[u64], first: u64) -> bool {
    let mut id = first;
    for ticket in tickets {
        let at = 16u64.wrapping_add(ticket.wrapping_mul(28)) as usize;
        let batch = found.get(at..at.wrapping_add(28)).unwrap_or(&[]);
        match batch.split_at_checked(BATCH.len()) {
            Some((front, number)) if front == BATCH && number == id.to_be_bytes().as_slice() => {}
            _ => return false,
        }
        id = id.wrapping_add(1);
    }
    tickets.len() as u64 == EACH
}

#[test]
fn two_threads_commit_each_once_in_ticket_order(rt: HostRuntime) -> Result<(), Fail> {
    let alloc = rt.alloc();
    let (table, mut boss) = made(rt, alloc, 400, &[])?;
    let (one, two) = parted(&table, &mut boss);
    let commits = &table;
    let room = Vec::with_capacity(alloc, 200)?;
    let other = Vec::with_capacity(alloc, 200)?;
    let (a, b) = join(
        &rt,
        || -> (CommitPass, Vec<u64>)
            requires { IsPassOf commits.now one × (begun one).bytes_each ≡ BYTES_EACH }
            ensures { Same one result.0 }
        { commit_all(alloc, commits, one, 1000, room) },
        || -> (CommitPass, Vec<u64>)
            requires { IsPassOf commits.now two × (begun two).bytes_each ≡ BYTES_EACH }
            ensures { Same two result.0 }
        { commit_all(alloc, commits, two, 2000, other) },
    );
    let disk = joined(table, boss, a.0, b.0).into_disk();
    // Three calls of `create`, and four of each commit.
    assert_eq!(rt; disk.calls(), 3 + 4 * 400);
    let last = disk.image(alloc, disk.moments() - 1, 0)?;
    let found = bytes_of(alloc, last)?;
    // The header, the batches, and the closed gate: so each batch is there once.
    assert_eq!(rt; found.as_slice().len(), 16 + 28 * 400 + 1);
    assert!(rt; stand_in_order(found.as_slice(), &a.1, 1000));
    assert!(rt; stand_in_order(found.as_slice(), &b.1, 2000));
    Ok(())
}
