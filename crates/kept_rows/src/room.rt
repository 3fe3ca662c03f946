//! Room for rows, which is made before they come.
ghost use Rattle.std.specs.Prelude.{ℕ, ◌≡◌, ◌+◌, ◌*◌, ◌^◌, ◌<◌, ◌≤◌, ◌⊎◌, IfOk, IfSome, OnOk, OnErr, length, slice_index, vec_len, vec_capacity};
ghost use Rattle.row_order.specs.Order.{ranks};
ghost use Rattle.row_order.specs.Tree.{Crowned};
ghost use Rattle.kept_rows.specs.Keeping.{Widened};
ghost use Rattle.kept_rows.specs.Starting.{nothing_kept};

use crate::rows::KeptRows;
use acts_core::Freight;
use byte_lists::NoMemory;
use queue_model::Depth;
use row_order::{Ranking, Slot, widen};
use std::alloc::{AllocError, Global};
use std::marker::PhantomData;

impl<C: Freight, O: Ranking> KeptRows<C, O> {
    /// No row, and no room for any.
    pub fn bare(alloc: Global) -> Result<KeptRows<C, O>, AllocError>
        ensures { IfOk result (λ k. k ≡ nothing_kept) }
    {
        Ok(KeptRows {
            slots: Vec::new(alloc),
            nodes: vec![in alloc; 0; 2]?,
            width: 1,
            depth: Depth {
                entries: 0,
                bytes: 0,
            },
            spare: 0,
            order: Vec::new(alloc),
            rest: Vec::new(alloc),
            ranking: PhantomData,
        })
    }

    /// Makes the spare at least so many rows. Where there is no memory for them, nothing changes.
    pub fn reserve_rows(&mut self, rows: u64) -> Result<(), NoMemory>
        ensures keeps { self.new ≡ record self.old { spare = self.new.spare } }
        ensures grows { self.old.spare ≤ self.new.spare }
        ensures ok { OnOk result (rows ≤ self.new.spare) }
        ensures err { OnErr result (self.new ≡ self.old) }
    {
        if rows <= self.spare() {
            return Ok(());
        }
        match self.make_room(rows) {
            Ok(()) => Ok(()),
            Err(_) => Err(NoMemory),
        }
    }

    /// The spare becomes so many rows. Where there is no memory for them, nothing changes.
    pub fn make_room(&mut self, rows: u64) -> Result<(), AllocError>
        requires { self.old.spare ≤ rows }
        ensures ok { OnOk result (self.new ≡ record self.old { spare = rows }) }
        ensures err { OnErr result (self.new ≡ self.old) }
    {
        let Some(all) = self.slots.len().checked_add(rows as usize) else {
            return Err(AllocError);
        };
        self.slots.reserve(rows as usize)?;
        self.order.reserve(all)?;
        self.rest.reserve(all)?;
        self.width = widen_for::<C, O>(&self.slots, &mut self.nodes, self.width, all)?;
        self.spare = rows;
        Ok(())
    }
}

// Makes a tree wide enough for so many rows, and answers its width.
fn widen_for<C, O: Ranking>(
    slots: &[Slot<C>],
    nodes: &mut Vec<u64>,
    width: usize,
    rows: usize,
) -> Result<usize, AllocError>
    requires tree { Crowned (ranks O.by_key slots.now) width (length slots.now) nodes.old.items }
    requires power { (k : ℕ) × (width ≡ 2 ^ k) }
    ensures ok { IfOk result (λ wide. (rows ≤ wide)
        × Widened (ranks O.by_key slots.now) (length slots.now) width nodes.old.items
        wide nodes.new.items) }
    ensures err { OnErr result (nodes.new.items ≡ nodes.old.items) }
{
    let Some(wide) = wide_enough(width, rows) else {
        return Err(AllocError);
    };
    if wide > width {
        nodes.reserve(2 * wide - 2 * width)?;
        pad(nodes, 2 * wide);
        widen::<C, O>(slots, nodes, width, wide);
    }
    Ok(wide)
}

// A width of so many rows or more: this one, or it doubled until it is. None where twice as much is no length.
fn wide_enough(width: usize, rows: usize) -> Option<usize>
    requires power { (k : ℕ) × (width ≡ 2 ^ k) }
    requires long { 2 * width < 2 ^ 64 }
    ensures rows { IfSome result (λ wide. rows ≤ wide) }
    ensures long { IfSome result (λ wide. 2 * wide < 2 ^ 64) }
    ensures power { IfSome result (λ wide. (k : ℕ) × (wide ≡ 2 ^ k)) }
    ensures wider { IfSome result (λ wide. (wide ≡ width) ⊎ (2 * width ≤ wide)) }
{
    let mut wide = width;
    'doubling: while wide < rows {
        wide *= 2;
        if wide > usize::MAX / 2 {
            return None;
        }
    }
    Some(wide)
}

// Adds zeros up to a length for which there is room.
fn pad(nodes: &mut Vec<u64>, long: usize)
    requires long { vec_len nodes.old ≤ long }
    requires room { long ≤ vec_capacity nodes.old }
    ensures long { length nodes.new.items ≡ long }
    ensures same { (i : ℕ) → slice_index nodes.new.items i ≡ slice_index nodes.old.items i }
{
    'padding: while nodes.len() < long {
        nodes.push_reserved(0);
    }
}
