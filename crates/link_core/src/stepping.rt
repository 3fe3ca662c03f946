//! The words of a table that a program can keep and change, one step at a time.
ghost use Rattle.queue_model.specs.Table.{most_entries};
ghost use Rattle.std.specs.Prelude.{◌≡◌, ◌≤◌, IfOk, OnErr};
ghost use Rattle.link_core.specs.Advanced.{Advances};
ghost use Rattle.link_core.specs.Fresh.{fresh};
ghost use Rattle.link_core.specs.Kept.{table_of};

use crate::store::Store;
use byte_lists::NoMemory;
use queue_model::Step;
use std::alloc::Global;
use std::marker::Model;
use thiserror::Error;

/// Why a step was not done: it does not fit, or there is no such caller.
#[derive(Clone, Copy, Debug, PartialEq, Eq, Error)]
#[error("the step does not fit the words")]
pub struct Unfit;

/// The words of a linked queue, who drew each row that is not linked, and what each caller has reserved.
/// Contracts see the lists that the vectors have, and by `table_of` the table that they keep. At all times the
/// words stand for the state of a queue.
#[derive(Debug, Drop)]
pub struct Words {
    store: Store,
}

impl Model for Words {
    ghost use Rattle.link_core.specs.Kept.{IsKept, Vectors, vectors_in};

    ghost Value = { Vectors };

    ghost view = { λ w. vectors_in w.store };

    ghost invariant = { λ w. IsKept w.store };
}

impl Words {
    /// A table in which nothing has happened, of at most 524,288 rows, 64 consumers and 2^32 callers.
    /// Its memory grows with the rows, the lists and the callers. Refuses only for want of memory.
    pub fn fresh(
        alloc: Global,
        lists: u32,
        rows: u64,
        consumers: u32,
        callers: u64,
    ) -> Result<Words, NoMemory>
        requires rows { rows ≤ most_entries }
        requires consumers { consumers ≤ 64 }
        requires callers { callers ≤ 4294967296 }
        ensures { IfOk result (λ w. table_of w ≡ fresh lists rows consumers callers) }
    {
        match Store::fresh(alloc, lists, rows, consumers, callers) {
            Ok(store) => Ok(Words { store }),
            Err(_) => Err(NoMemory),
        }
    }

    /// Does one step of a caller and answers the word that the step showed, as it was before. `Unfit` comes
    /// exactly where there is no such caller or the step does not fit, and then nothing changed. Takes no
    /// memory.
    pub fn advance(&mut self, caller: u64, step: Step) -> Result<u64, Unfit>
        ensures advances { Advances result (table_of self.old) (table_of self.new) caller step }
        ensures err { OnErr result (self.new ≡ self.old) }
    {
        self.store.advance(caller, step)
    }
}
