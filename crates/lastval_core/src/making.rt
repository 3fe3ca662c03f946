//! A queue that starts with entries.
ghost use Rattle.std.specs.Prelude.{ℕ, ◌≡◌, ◌+◌, ◌<◌, ◌≤◌, IfOk, length, vec_len, vec_capacity};
ghost use Rattle.queue_model.specs.Table.{most_entries};
ghost use Rattle.kept_rows.specs.Starting.{AllMayStart, IsMade};
ghost use Rattle.lastval_core.specs.Lasts.{KeepsLast};
ghost use Rattle.lastval_core.specs.Fronts.{front, KeysApart, OneOfKey};

use crate::entering::insert_row;
use crate::queue::LastValue;
use crate::search::{Place, key_place};
use acts_core::Freight;
use byte_lists::NoMemory;
use kept_rows::KeptRows;
use queue_model::Slip;
use row_order::ArrivalOrder;
use std::alloc::{AllocError, Global};

impl<C: Freight> LastValue<C> {
    /// Makes a queue that starts with these entries, available and in their order, with no spare. There may
    /// be 524,288 at most, and no two of them have one key. Without memory they are dropped.
    pub fn make(alloc: Global, start: Vec<(Slip, C)>) -> Result<LastValue<C>, NoMemory>
        requires few { vec_len start ≤ most_entries }
        requires start { AllMayStart C.goods start.items }
        requires keys { KeysApart start.items }
        ensures { IfOk result (λ q. IsMade C.goods start.items q) }
    {
        let count = start.len();
        let rows = KeptRows::make(alloc, start)?;
        match index_rows(alloc, &rows, count) {
            Ok((lasts, outdated)) => Ok(LastValue {
                rows,
                lasts,
                outdated,
            }),
            Err(_) => Err(NoMemory),
        }
    }
}

// The last rows and the marks of so many rows, no two of which have one key.
fn index_rows<C: Freight>(
    alloc: Global,
    rows: &KeptRows<C, ArrivalOrder>,
    count: usize,
) -> Result<(Vec<u64>, Vec<bool>), AllocError>
    requires count { count ≡ length rows.now.rows }
    requires apart { OneOfKey rows.now }
    ensures keeps { IfOk result (λ v. KeepsLast rows.now v.0.items v.1.items) }
    ensures room { IfOk result (λ v. (count ≤ vec_capacity v.0) × (count ≤ vec_capacity v.1)) }
{
    let mut lasts = Vec::with_capacity(alloc, count)?;
    let mut marks = Vec::with_capacity(alloc, count)?;
    'indexing: while marks.len() < count {
        index_row(rows, &mut lasts, &mut marks);
    }
    Ok((lasts, marks))
}

// Adds the next row.
fn index_row<C: Freight>(
    rows: &KeptRows<C, ArrivalOrder>,
    lasts: &mut Vec<u64>,
    marks: &mut Vec<bool>,
)
    requires inside { vec_len marks.old < length rows.now.rows }
    requires apart { OneOfKey rows.now }
    requires keeps { KeepsLast (front rows.now (vec_len marks.old))
        lasts.old.items marks.old.items }
    requires lasts_fit { length rows.now.rows ≤ vec_capacity lasts.old }
    requires marks_fit { length rows.now.rows ≤ vec_capacity marks.old }
    ensures long { vec_len marks.new ≡ vec_len marks.old + 1 }
    ensures keeps { KeepsLast (front rows.now (vec_len marks.new)) lasts.new.items marks.new.items }
    ensures lasts_fit { vec_capacity lasts.old ≤ vec_capacity lasts.new }
    ensures marks_fit { vec_capacity marks.old ≤ vec_capacity marks.new }
{
    let row = marks.len() as u64;
    marks.push_reserved(false);
    match key_place(rows, lasts, rows.key(row)) {
        Some(Place::Before(index)) => insert_row(lasts, index, row),
        Some(Place::At(_)) => unreachable!(),
        None => {}
    }
}
