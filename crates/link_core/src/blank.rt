//! The vectors of a table in which nothing has happened.
ghost use Rattle.std.specs.Prelude.{◌≡◌, ◌++◌, ◌≤◌, ℕ, IfOk, OnOk, replicate};
ghost use Rattle.link_core.specs.Fresh.{blank_rows, empty_lists, fresh, fresh_words};
ghost use Rattle.link_core.specs.Kept.{IsLong, table_in};

use crate::store::Store;
use queue_model::NO_BELL;
use std::alloc::{AllocError, Global};

/// Adds the words of so many rows that nobody drew.
fn add_rows(words: &mut Vec<u64>, rows: u64) -> Result<(), AllocError>
    ensures { OnOk result (words.new.items ≡ words.old.items ++ blank_rows rows) }
{
    for _ in 0..rows {
        words.extend_from_slice(&[0, 1, 0, 0, 0, 0, 0])?;
    }
    Ok(())
}

/// Adds the words of so many lists that have no row.
fn add_lists(words: &mut Vec<u64>, lists: u32) -> Result<(), AllocError>
    ensures { OnOk result (words.new.items ≡ words.old.items ++ empty_lists lists) }
{
    for _ in 0..lists {
        words.extend_from_slice(&[0, 0, 0, 0])?;
        words.extend_from_slice(&[NO_BELL; 64])?;
    }
    Ok(())
}

/// The words of a table in which nothing has happened: so many callers are made, no row is drawn, all lists are
/// empty, and no bell is rung.
pub fn fresh_words(
    alloc: Global,
    callers: u64,
    rows: u64,
    lists: u32,
) -> Result<Vec<u64>, AllocError>
    ensures { IfOk result (λ words. words.items ≡ fresh_words callers rows lists) }
{
    let mut words = Vec::new(alloc);
    words.extend_from_slice(&[0, callers, 0])?;
    add_rows(&mut words, rows)?;
    add_lists(&mut words, lists)?;
    Ok(words)
}

/// No drawer for any row.
fn no_drawers(alloc: Global, rows: u64) -> Result<Vec<Option<u64>>, AllocError>
    ensures { IfOk result (λ drawers. drawers.items ≡ replicate rows None) }
{
    let mut drawers = Vec::new(alloc);
    for _ in 0..rows {
        drawers.push(None)?;
    }
    Ok(drawers)
}

impl Store {
    /// A table in which nothing has happened.
    pub(crate) fn fresh(
        alloc: Global,
        lists: u32,
        rows: u64,
        consumers: u32,
        callers: u64,
    ) -> Result<Store, AllocError>
        ensures table { IfOk result (λ s. table_in s ≡ fresh lists rows consumers callers) }
        ensures long { IfOk result (λ s. IsLong s) }
    {
        Ok(Store {
            rows,
            lists,
            consumers,
            callers,
            words: fresh_words(alloc, callers, rows, lists)?,
            drawers: no_drawers(alloc, rows)?,
            entries: vec![in alloc; 0; callers as usize]?,
            bytes: vec![in alloc; 0; callers as usize]?,
        })
    }
}
