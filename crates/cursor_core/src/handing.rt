//! The cursors of a pass, made with its queue, and handed from pass to pass with their consumers.
ghost use Rattle.std.specs.Prelude.{ℕ, ◌≡◌, ◌<◌, ◌≤◌, length, slice_set, None};
ghost use Rattle.std.specs.List.{AllByRecursion};
ghost use mathlib.Core.List.{Mem};
ghost use Rattle.acts_core.specs.Calls.{CallNext};
ghost use Rattle.acts_core.specs.Meaning.{Called};
ghost use Rattle.acts_core.specs.Replies.{of_next};
ghost use Rattle.entry_table.specs.Passes.{Kept};
ghost use Rattle.entry_table.specs.Sights.{build_of, sight, Serves};
ghost use Rattle.cursor_core.specs.Holding.{cursor_at, or_other, IsOwn, AreTrueOf, AreFresh, AreHanded, GoesOn, WalksFrom};

use crate::cursor::Cursor;
use crate::cursors::next;
use crate::pass_cursors::{MOST_CONSUMERS, PassCursors};
use acts_core::{Freight, Next};
use entry_table::{Entries, Pass};
use std::array;

impl PassCursors {
    /// The cursors of a pass that has the first consumers of its queue, so many: each stands before the first
    /// entry of each list.
    pub fn fresh(pass: &Pass, consumers: u32, lists: u32) -> PassCursors
        requires consumers { consumers ≤ 64 }
        requires lists { lists ≤ 10 }
        ensures fresh { AreFresh (sight pass.now) consumers result.slots }
    {
        let mut slots = no_cursors();
        for consumer in 0..consumers {
            slots[consumer as usize] = Some(Cursor::fresh(pass, consumer, lists));
        }
        PassCursors { slots }
    }

    /// Acquires the next entry for a consumer, from its cursor on, as `next`. The cursors stay true.
    pub fn next<C: Freight>(
        &mut self,
        entries: &Entries<C>,
        pass: &mut Pass,
        consumer: u32,
    ) -> Next<C>
        requires serves { Serves entries.now pass.old }
        requires consumer { Mem consumer (sight pass.old).consumers }
        requires truth { AreTrueOf (sight pass.old) self.old.slots }
        ensures serves { Serves entries.now pass.new }
        ensures kept { Kept pass.old pass.new }
        ensures called { (list : ℕ) × Called (build_of entries.now)
            (sight pass.old) (sight pass.new) (CallNext consumer) (of_next C.goods list result) }
        ensures truth { AreTrueOf (sight pass.new) self.new.slots }
        ensures walks { WalksFrom (sight pass.old) (sight pass.new) consumer self.old.slots
            self.new.slots result }
    {
        next_in(entries, pass, &mut self.slots, consumer)
    }

    /// Takes the cursors of these consumers out, as those of another pass.
    pub fn hand(&mut self, consumers: &[u32]) -> PassCursors
        requires few { AllByRecursion (λ c. c < 64) consumers.now }
        ensures handed { AreHanded consumers.now self.old.slots self.new.slots result.slots }
    {
        let mut slots = no_cursors();
        for i in 0..consumers.len() {
            hand_one(&mut self.slots, &mut slots, consumers[i] as usize);
        }
        PassCursors { slots }
    }

    /// Takes in all cursors of another pass, beside its own.
    pub fn take_in(&mut self, gone: PassCursors)
        ensures taken { (c : ℕ) → cursor_at self.new.slots c
            ≡ or_other (cursor_at gone.slots c) (cursor_at self.old.slots c) }
    {
        let PassCursors { slots } = gone;
        let mut slots = slots;
        for i in 0..MOST_CONSUMERS {
            hand_one(&mut slots, &mut self.slots, i);
        }
    }
}

// The next entry for a consumer whose cursor stands in its place.
fn next_in<C: Freight>(
    entries: &Entries<C>,
    pass: &mut Pass,
    slots: &mut [Option<Cursor>; 64],
    consumer: u32,
) -> Next<C>
    requires serves { Serves entries.now pass.old }
    requires consumer { Mem consumer (sight pass.old).consumers }
    requires truth { AreTrueOf (sight pass.old) slots.old }
    requires places { length slots.old ≡ 64 }
    ensures serves { Serves entries.now pass.new }
    ensures kept { Kept pass.old pass.new }
    ensures called { (list : ℕ) × Called (build_of entries.now) (sight pass.old) (sight pass.new)
        (CallNext consumer) (of_next C.goods list result) }
    ensures truth { AreTrueOf (sight pass.new) slots.new }
    ensures places { length slots.new ≡ 64 }
    ensures walks { WalksFrom (sight pass.old) (sight pass.new) consumer slots.old slots.new result }
{
    next_at(entries, pass, &mut slots[consumer as usize])
}

// The next entry for the consumer whose cursor this is.
fn next_at<C: Freight>(entries: &Entries<C>, pass: &mut Pass, slot: &mut Option<Cursor>) -> Next<C>
    requires serves { Serves entries.now pass.old }
    requires own { (c : ℕ) × Mem c (sight pass.old).consumers × IsOwn (sight pass.old) c slot.old }
    ensures serves { Serves entries.now pass.new }
    ensures kept { Kept pass.old pass.new }
    ensures goes { GoesOn C.goods (build_of entries.now) (sight pass.old) (sight pass.new) slot.old slot.new result }
{
    match slot {
        Some(cursor) => next(entries, pass, cursor),
        None => unreachable!(),
    }
}

// Places in which no cursor stands.
fn no_cursors() -> [Option<Cursor>; 64]
    ensures none { (c : ℕ) → cursor_at result c ≡ None }
    ensures places { length result ≡ 64 }
{
    array::from_fn(
        |_: usize| -> Option<Cursor>
            ensures { result ≡ None }
        { None },
    )
}

// Moves the cursor of a consumer, if it is one, from some cursors to others.
fn hand_one(from: &mut [Option<Cursor>; 64], to: &mut [Option<Cursor>; 64], consumer: usize)
    requires from { length from.old ≡ 64 }
    requires to { length to.old ≡ 64 }
    requires consumer { consumer < 64 }
    ensures from { from.new ≡ slice_set from.old consumer None }
    ensures to { (c : ℕ) → cursor_at to.new c
        ≡ cursor_at (slice_set to.old consumer (or_other (cursor_at from.old consumer) (cursor_at to.old consumer))) c }
    ensures length { length to.new ≡ 64 }
{
    if let Some(cursor) = from[consumer].take() {
        to[consumer] = Some(cursor);
    }
}
