//! What a script has said up to some line.
ghost use Rattle.std.specs.Prelude.{◌≡◌, List, [], ◌∷◌, ◌++◌, IfOk, OnOk};
ghost use Rattle.fields_read.specs.Forms.{first_of};
ghost use Rattle.script_read.specs.Phases.{phases_in, phases_of};
ghost use Rattle.script_read.specs.Scripts.{fault_after, put_causes};
ghost use Rattle.script_read.specs.SoFar.{Tracks};
ghost use Rattle.script_read.specs.declared.lines.Line.{Line};
ghost use Rattle.script_read.specs.declared.lines.Line.TheVariants.{Rest, Doing};

use crate::faults::LineFault;
use crate::lines::{Line, Op, What};
use crate::open_phase::OpenPhase;
use crate::scripts::{Phase, Script};
use byte_lists::NoMemory;
use std::alloc::Global;
use std::collections::BTreeSet;
use std::mem;

/// The greatest number of actors of a phase.
const MOST_ACTORS: usize = 32;

/// The lines that were read: the phases that rests have ended, the open one, and the queue and the id of each put.
#[derive(Drop)]
pub(crate) struct SoFar {
    ended: Vec<Phase>,
    phase: OpenPhase,
    puts: BTreeSet<(u32, u64)>,
}

impl SoFar {
    /// Before the first line. Takes no memory.
    pub(crate) fn new(alloc: Global) -> SoFar
        ensures { Tracks result [] }
    {
        SoFar {
            ended: Vec::new(alloc),
            phase: OpenPhase::new(alloc),
            puts: BTreeSet::new(alloc),
        }
    }

    /// The first cause that the line has beside those before it.
    pub(crate) fn fault_of(&self, journal: bool, line: &Line) -> Option<LineFault>
        ensures { (ls : List Line) → Tracks self.now ls → result ≡ fault_after journal ls line.now }
    {
        let Line::Doing(op) = line else {
            return None;
        };
        if let Some(cause) = self.put_fault(journal, &op.what) {
            return Some(cause);
        }
        if !self.phase.has_actor(op.actor.as_slice()) && self.phase.actor_count() >= MOST_ACTORS {
            return Some(LineFault::TooManyActors);
        }
        None
    }

    /// The first cause that a put has beside the lines before it.
    fn put_fault(&self, journal: bool, what: &What) -> Option<LineFault>
        ensures { (ls : List Line) → Tracks self.now ls
            → result ≡ first_of (put_causes journal ls what.now) }
    {
        let What::Put { queue, message } = what else {
            return None;
        };
        if message.persistent() && !journal {
            return Some(LineFault::NoJournal);
        }
        if self.puts.contains(&(*queue, message.id())) {
            return Some(LineFault::DoubleId);
        }
        None
    }

    /// Adds a line behind the others.
    pub(crate) fn add(&mut self, alloc: Global, line: Line) -> Result<(), NoMemory>
        ensures { (ls : List Line) → Tracks self.old ls
            → OnOk result (Tracks self.new (ls ++ line ∷ [])) }
    {
        match line {
            Line::Rest => self.end_phase(alloc),
            Line::Doing(op) => self.add_op(alloc, op),
        }
    }

    /// Ends the open phase.
    fn end_phase(&mut self, alloc: Global) -> Result<(), NoMemory>
        ensures { (ls : List Line) → Tracks self.old ls
            → OnOk result (Tracks self.new (ls ++ Rest ∷ [])) }
    {
        let ended = mem::replace(&mut self.phase, OpenPhase::new(alloc));
        let ended = ended.close(alloc)?;
        match self.ended.push(ended) {
            Ok(()) => Ok(()),
            Err(_) => Err(NoMemory),
        }
    }

    /// Notes what the line puts, and files the line under its actor.
    fn add_op(&mut self, alloc: Global, op: Op) -> Result<(), NoMemory>
        ensures { (ls : List Line) → Tracks self.old ls
            → OnOk result (Tracks self.new (ls ++ Doing op ∷ [])) }
    {
        if let What::Put { queue, message } = &op.what {
            if self.puts.insert((*queue, message.id())).is_err() {
                return Err(NoMemory);
            }
        }
        self.phase.file(alloc, op)
    }

    /// The script, once its last line is read.
    pub(crate) fn finish(self, alloc: Global) -> Result<Script, NoMemory>
        ensures { (ls : List Line) → Tracks self ls
            → IfOk result (λ script. phases_in script ≡ phases_of ls) }
    {
        let SoFar {
            mut ended,
            phase,
            puts: _,
        } = self;
        let last = phase.close(alloc)?;
        match ended.push(last) {
            Ok(()) => Ok(Script { phases: ended }),
            Err(_) => Err(NoMemory),
        }
    }
}
