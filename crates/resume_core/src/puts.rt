//! The put with which live entries and puts are too many.
ghost use Rattle.std.specs.Prelude.{◌≡◌, ◌≤◌, ◌++◌, IfOk, OnOk};
ghost use Rattle.queue_model.specs.Table.{most_entries};
ghost use Rattle.script_read.specs.Allowed.{all_ops, ops_in};
ghost use Rattle.script_read.specs.Phases.{actors_in, phases_in};
ghost use Rattle.resume_core.specs.Lines.{is_put, passing_line, put_lines};

use byte_lists::NoMemory;
use queue_model::MOST_ENTRIES;
use script_read::{Op, Phase, Script, What};
use std::alloc::Global;

/// Whether the line puts something.
fn is_put(what: &What) -> bool
    ensures { result ≡ is_put what.now }
{
    matches!(what, What::Put { .. })
}

/// Adds the numbers of an actor's lines that put something.
fn add_of_actor(ops: &[Op], lines: &mut Vec<u64>) -> Result<(), NoMemory>
    ensures { OnOk result (lines.new.items ≡ lines.old.items ++ put_lines ops.now) }
{
    'lines: for op in ops {
        if is_put(&op.what) && lines.push(op.line).is_err() {
            return Err(NoMemory);
        }
    }
    Ok(())
}

/// Adds those of all lines of a phase.
fn add_of_phase(phase: &Phase, lines: &mut Vec<u64>) -> Result<(), NoMemory>
    ensures { OnOk result (lines.new.items ≡ lines.old.items ++ put_lines (ops_in (actors_in phase.now))) }
{
    let actors = phase.actors.as_slice();
    'actors: for actor in actors {
        add_of_actor(&actor.1, lines)?;
    }
    Ok(())
}

/// The numbers of all lines of a script that put something.
fn put_lines(alloc: Global, script: &Script) -> Result<Vec<u64>, NoMemory>
    ensures { IfOk result (λ lines. lines.items ≡ put_lines (all_ops (phases_in script.now))) }
{
    let mut lines = Vec::new(alloc);
    let phases = script.phases.as_slice();
    'phases: for phase in phases {
        add_of_phase(phase, &mut lines)?;
    }
    Ok(lines)
}

/// The line of the put that makes so many live entries and a script's puts more than 524,288.
pub(crate) fn passing_line(
    alloc: Global,
    live: u64,
    script: &Script,
) -> Result<Option<u64>, NoMemory>
    requires { live ≤ most_entries }
    ensures { IfOk result (λ line. line ≡ passing_line live (all_ops (phases_in script.now))) }
{
    let mut lines = put_lines(alloc, script)?;
    let room = MOST_ENTRIES - live;
    if lines.len() as u64 <= room {
        return Ok(None);
    }
    lines.sort_unstable();
    Ok(Some(lines[room as usize]))
}
