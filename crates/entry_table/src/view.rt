//! What a pass knows of its table, and the rule of the table. All of it exists in proofs alone, but for the shape.
use acts_core::Freight;
use atomic_table::TableRule;
use queue_model::{Deed, Node, Queue, Tried};
use std::collections::LinkedList;
use std::marker::PhantomData;

/// How large a table is.
#[derive(Clone, Copy, Debug)]
pub struct Shape {
    /// The number of rows, at most 524,288.
    pub rows: u64,
    /// The number of lists, at most 10.
    pub lists: u32,
    /// The number of consumers, at most 64.
    pub consumers: u32,
}

/// A row that a pass drew and has not linked, with its draft words. No value of it is made.
#[derive(Drop)]
pub struct Drawing {
    /// The row's number.
    pub row: u64,
    /// The mask of the row's slip.
    pub mask: u64,
    /// The place that the row will have in its list.
    pub place: u64,
    /// The id of the row's slip.
    pub ident: u64,
    /// The size of the row's slip.
    pub size: u64,
    /// The list of the row's slip.
    pub list: u64,
}

/// What a pass had seen when another was joined to it, or it to another. No value of it is made.
#[derive(Drop)]
pub struct Told {
    /// The callers that it spoke for.
    pub callers: LinkedList<u64>,
    /// The consumers whose bells it alone took.
    pub consumers: LinkedList<u64>,
    /// What it had seen.
    pub seen: LinkedList<Deed>,
}

/// A link, as a pass was shown it. No value of it is made.
#[derive(Drop)]
pub struct Watched {
    /// Where the link stands.
    pub node: Node,
    /// What it held.
    pub link: u64,
}

/// What a pass knows. No value of it is made.
#[derive(Drop)]
pub struct View {
    /// How large the table is.
    pub shape: Shape,
    /// The state of the queue before the history.
    pub opening: Queue,
    /// The callers that the pass speaks for, its own first. A spent view and a note have none.
    pub callers: LinkedList<u64>,
    /// Of the boss: how many callers were made. Of others 0.
    pub made: u64,
    /// No other seat exists.
    pub alone: bool,
    /// The consumers whose bells it alone takes.
    pub consumers: LinkedList<u64>,
    /// How many entries it may still reserve.
    pub allowance: u64,
    /// How many rows it may still draw.
    pub share: u64,
    /// How many rows were drawn, as far as it was shown.
    pub reached: u64,
    /// The rows that it drew and has not linked.
    pub drawn: LinkedList<Drawing>,
    /// The slot that is out with it.
    pub slot: Option<u64>,
    /// What the passes that were just joined had seen. None is left after the next step.
    pub told: LinkedList<Told>,
    /// The link that it watches. It has not moved back since.
    pub watched: Option<Watched>,
    /// What it knows to begin the history.
    pub seen: LinkedList<Deed>,
    /// The steps that it tried, and what they showed.
    pub shown: LinkedList<Tried>,
}

/// The rule of the table: one history exists for which the words and the slots stand, and which begins
/// with what each pass has seen.
pub struct Ruling<C> {
    cargo: PhantomData<C>,
}

impl<C: Freight> TableRule<Option<C>, View, Shape> for Ruling<C> {
    ghost use Rattle.entry_table.specs.Rule.{Ruled, boss};

    ghost holds = { Ruled C.goods };

    ghost first = { boss };
}
