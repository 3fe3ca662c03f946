//! What each step tells.
ghost use Rattle.std.specs.Prelude.{ℕ};

use crate::view::View;
use acts_core::Freight;
use atomic_table::{Join, Play, Split};
use std::marker::{Brand, PhantomData};

/// The step that is tried. Each call picks it.
pub trait Trying {
    ghost use Rattle.queue_model.specs.declared.steps.Step.{Step};

    ghost step: { Step };
}

impl Trying for Brand {
    ghost use Rattle.queue_model.specs.declared.steps.Step.TheVariants.{Draw};

    ghost step = { Draw };
}

pub struct Looks<J> {
    step: PhantomData<J>,
}

impl<C, J: Trying> Play<Option<C>, View> for Looks<J> {
    ghost use Rattle.entry_table.specs.Plays.{looked};

    ghost then = { λ st. looked J.step };
}

pub struct Reserves;

impl<C> Play<Option<C>, View> for Reserves {
    ghost use Rattle.entry_table.specs.Plays.{reserves};

    ghost then = { reserves };
}

/// The row that is linked, and the node behind which it comes. Each call picks them.
pub trait Placing {
    ghost use Rattle.queue_model.specs.declared.steps.Node.{Node};

    ghost number: { ℕ };

    ghost behind: { Node };
}

impl Placing for Brand {
    ghost use Rattle.queue_model.specs.declared.steps.Node.TheVariants.{Head};

    ghost number = { 0 };

    ghost behind = { Head 0 };
}

pub struct Links<C, J> {
    cargo: PhantomData<C>,
    place: PhantomData<J>,
}

impl<C: Freight, J: Placing> Play<Option<C>, View> for Links<C, J> {
    ghost use Rattle.entry_table.specs.Plays.{linking};

    ghost then = { λ st. linking C.goods J.number J.behind };
}

/// A load that takes the slot of a row, which each call picks.
pub struct Fetches<J> {
    place: PhantomData<J>,
}

impl<C, J: Placing> Play<Option<C>, View> for Fetches<J> {
    ghost use Rattle.entry_table.specs.Plays.{fetched};
    ghost use Rattle.queue_model.specs.declared.steps.Step.TheVariants.{Load};
    ghost use Rattle.queue_model.specs.declared.steps.WordName.TheVariants.{Callers};

    ghost then = { λ st. fetched J.number (Load Callers) };
}

/// A load that gives a slot back, empty.
pub struct Gives;

impl<C> Play<Option<C>, View> for Gives {
    ghost use Rattle.entry_table.specs.Plays.{given};
    ghost use Rattle.queue_model.specs.declared.steps.Step.TheVariants.{Load};
    ghost use Rattle.queue_model.specs.declared.steps.WordName.TheVariants.{Callers};

    ghost then = { λ st. given (Load Callers) };
}

/// An exchange of the number of rows drawn.
pub struct Draws;

impl<C> Play<Option<C>, View> for Draws {
    ghost use Rattle.entry_table.specs.Plays.{drawing};

    ghost then = { drawing };
}

/// The draft word that is stored, of which row, and the value. Each call picks them.
pub trait Storing {
    ghost use Rattle.queue_model.specs.declared.steps.DraftWord.{DraftWord};

    ghost target: { ℕ };

    ghost part: { DraftWord };

    ghost value: { ℕ };
}

impl Storing for Brand {
    ghost use Rattle.queue_model.specs.declared.steps.DraftWord.TheVariants.{Mask};

    ghost target = { 0 };

    ghost part = { Mask };

    ghost value = { 0 };
}

/// A store of a draft word.
pub struct Stores<J> {
    word: PhantomData<J>,
}

impl<C, J: Storing> Play<Option<C>, View> for Stores<J> {
    ghost use Rattle.entry_table.specs.Plays.{stored};

    ghost then = { λ st m n. stored J.target J.part J.value m };
}

/// A draw of a caller number.
pub struct Numbers;

impl<C> Play<Option<C>, View> for Numbers {
    ghost use Rattle.entry_table.specs.Plays.{numbered};

    ghost then = { λ st. numbered };
}

/// What a new pass gets. Each call picks it.
pub trait Portion {
    ghost use Rattle.std.specs.Prelude.{List};

    ghost amount: { ℕ };

    ghost parted: { List ℕ };
}

impl Portion for Brand {
    ghost use Rattle.std.specs.Prelude.{[]};

    ghost amount = { 0 };

    ghost parted = { [] };
}

pub struct Cut<J> {
    portion: PhantomData<J>,
}

impl<J: Portion> Split<View> for Cut<J> {
    ghost use Rattle.entry_table.specs.Plays.{cut_left, cut_right};

    ghost left = { cut_left J.amount J.parted };

    ghost right = { cut_right J.amount J.parted };
}

/// A load that tells of the passes that were just joined.
pub struct Settles;

impl<C> Play<Option<C>, View> for Settles {
    ghost use Rattle.entry_table.specs.Plays.{settled};

    ghost then = { λ st. settled };
}

/// A load by which the pass that is alone makes what it has seen its opening.
pub struct Opens;

impl<C> Play<Option<C>, View> for Opens {
    ghost use Rattle.entry_table.specs.Plays.{opened};

    ghost then = { λ st. opened };
}

/// A note of what a pass has seen, cut from its view.
pub struct Notes;

impl Split<View> for Notes {
    ghost use Rattle.entry_table.specs.Plays.{noted_left, note};

    ghost left = { noted_left };

    ghost right = { note };
}

/// Two views made one.
pub struct Merge;

impl Join<View> for Merge {
    ghost use Rattle.entry_table.specs.Plays.{merged};
    ghost use Rattle.entry_table.specs.Views.{spent};

    ghost both = { merged };

    ghost spent = { spent };
}
