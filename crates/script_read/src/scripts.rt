//! Reads the lines of a script.
ghost use Rattle.std.specs.Prelude.{◌≡◌, ◌+◌, ◌^◌, ◌<◌, ◌≤◌, List, length, IfOk};
ghost use Rattle.defs_read.specs.Allowed.{AreAllowed, most_queues};
ghost use Rattle.defs_read.specs.Defined.{queues_in};
ghost use Rattle.script_read.specs.Allowed.{AreAllowedPhases};
ghost use Rattle.script_read.specs.Phases.{actors_in, phases_in};
ghost use Rattle.script_read.specs.Scripts.{GivesScript, line_after, script_of};
ghost use Rattle.script_read.specs.SoFar.{AddsLine, Tracks};
ghost use Rattle.script_read.specs.declared.lines.Line.{Line};

use crate::faults::{LineFault, ScriptFault};
use crate::line_feeds::{first_line, has_nothing};
use crate::lines::Op;
use crate::reading::read_line;
use crate::so_far::SoFar;
use byte_lists::{Bytes, NoMemory};
use defs_read::Defs;
use std::alloc::Global;

/// The lines of a script behind its definitions, in phases. There is one phase more than rests.
#[derive(Debug, Drop)]
pub struct Script {
    pub phases: Vec<Phase>,
}

/// The actors of a phase by first appearance, each with its lines in order.
#[derive(Debug, Drop)]
pub struct Phase {
    pub actors: Vec<(Bytes, Vec<Op>)>,
}

impl Phase {
    /// The phase of these actors. Takes no memory.
    pub fn of(actors: Vec<(Bytes, Vec<Op>)>) -> Phase
        ensures { result.actors ≡ actors }
    {
        Phase { actors }
    }
}

/// Reads the line of this number, which is not blank, and adds it to those before it. Refuses with its first cause.
fn read_next(
    alloc: Global,
    text: &[u8],
    number: u64,
    defs: &Defs,
    journal: bool,
    so_far: &mut SoFar,
) -> Result<(), LineFault>
    requires few { length (queues_in defs.now) ≤ most_queues }
    ensures { (ls : List Line) → Tracks so_far.old ls
        → AddsLine result (line_after (queues_in defs.now) journal ls number text.now)
        so_far.new ls }
{
    let line = read_line(alloc, text, number, defs)?;
    if let Some(cause) = so_far.fault_of(journal, &line) {
        return Err(cause);
    }
    match so_far.add(alloc, line) {
        Ok(()) => Ok(()),
        Err(NoMemory) => Err(LineFault::NoMemory),
    }
}

/// Reads all lines behind the definitions, the first of which has the number `from`. Blank lines are counted and passed
/// over. `from` and the number of bytes are together below 2^64, so that each line has a number. `journal` says whether
/// the run has a journal. Refuses with the first line that has a cause, and the first of its causes in the order that
/// docs/SCRIPT.md gives; NoMemory may come in place of any, and then the line tells nothing. Each line of a phase is
/// filed under its own actor and names what is defined, and no id is put to a queue twice.
pub fn read_script(
    alloc: Global,
    bytes: &[u8],
    defs: &Defs,
    journal: bool,
    from: u64,
) -> Result<Script, ScriptFault>
    requires few { length (queues_in defs.now) ≤ most_queues }
    requires numbers { from + length bytes.now < 2 ^ 64 }
    ensures script { GivesScript result (script_of (queues_in defs.now) journal from bytes.now) }
    ensures allowed { AreAllowed (queues_in defs.now)
        → IfOk result (λ script. AreAllowedPhases (queues_in defs.now) journal (phases_in script)) }
{
    let mut so_far = SoFar::new(alloc);
    let mut rest = bytes;
    let mut line = from;
    'reading: while !rest.is_empty() {
        let (text, tail) = first_line(rest);
        if !has_nothing(text) {
            if let Err(cause) = read_next(alloc, text, line, defs, journal, &mut so_far) {
                return Err(ScriptFault { line, cause });
            }
        }
        line += 1;
        rest = tail;
    }
    match so_far.finish(alloc) {
        Ok(script) => Ok(script),
        Err(NoMemory) => Err(ScriptFault {
            line,
            cause: LineFault::NoMemory,
        }),
    }
}
