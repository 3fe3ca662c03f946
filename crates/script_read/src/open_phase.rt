//! The phase that is open while lines are read.
ghost use Rattle.std.specs.Prelude.{◌≡◌, [], length, false, IfOk, OnOk};
ghost use Rattle.script_read.specs.Phases.{actors_in, filed};
ghost use Rattle.script_read.specs.Scripts.{is_in_phase};
ghost use Rattle.script_read.specs.SoFar.{actors_of};

use crate::lines::Op;
use crate::scripts::Phase;
use byte_lists::{Bytes, NoMemory};
use indexmap::IndexMap;
use std::alloc::Global;

/// The actors of a phase by first appearance, each with its lines in order.
#[derive(Drop)]
pub(crate) struct OpenPhase {
    actors: IndexMap<Vec<u8>, Vec<Op>>,
}

impl OpenPhase {
    /// A phase without actors. Takes no memory.
    pub(crate) fn new(alloc: Global) -> OpenPhase
        ensures { actors_of result ≡ [] }
    {
        OpenPhase {
            actors: IndexMap::new(alloc),
        }
    }

    /// How many actors there are.
    pub(crate) fn actor_count(&self) -> usize
        ensures { result ≡ length (actors_of self.now) }
    {
        self.actors.len()
    }

    /// Whether an actor of this name has a line.
    pub(crate) fn has_actor(&self, name: &[u8]) -> bool
        ensures { result ≡ is_in_phase name.now (actors_of self.now) }
    {
        self.actors.get_index_of(name).is_some()
    }

    /// Files a line behind the earlier ones of its actor.
    pub(crate) fn file(&mut self, alloc: Global, op: Op) -> Result<(), NoMemory>
        ensures { OnOk result (actors_of self.new ≡ filed op (actors_of self.old)) }
    {
        match self.actors.get_index_of(op.actor.as_slice()) {
            Some(index) => match self.actors[index].push(op) {
                Ok(()) => Ok(()),
                Err(_) => Err(NoMemory),
            },
            None => self.file_first(alloc, op),
        }
    }

    /// Files the first line of an actor.
    fn file_first(&mut self, alloc: Global, op: Op) -> Result<(), NoMemory>
        requires { is_in_phase op.actor (actors_of self.old) ≡ false }
        ensures { OnOk result (actors_of self.new ≡ filed op (actors_of self.old)) }
    {
        let Ok(name) = Vec::from_slice(alloc, op.actor.as_slice()) else {
            return Err(NoMemory);
        };
        let mut ops = Vec::new(alloc);
        if ops.push(op).is_err() {
            return Err(NoMemory);
        }
        match self.actors.insert(name, ops) {
            Ok(_) => Ok(()),
            Err(_) => Err(NoMemory),
        }
    }

    /// The phase, once it ends.
    pub(crate) fn close(self, alloc: Global) -> Result<Phase, NoMemory>
        ensures { IfOk result (λ phase. actors_in phase ≡ actors_of self) }
    {
        let OpenPhase { actors } = self;
        let mut closed = Vec::new(alloc);
        for (name, ops) in actors {
            if closed.push((Bytes::from_vec(name), ops)).is_err() {
                return Err(NoMemory);
            }
        }
        Ok(Phase::of(closed))
    }
}
