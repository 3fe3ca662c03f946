//! The first put whose queue and id are live.
ghost use Rattle.std.specs.Prelude.{◌≡◌};
ghost use Rattle.script_read.specs.Allowed.{all_ops, ops_in};
ghost use Rattle.script_read.specs.Phases.{actors_in, phases_in};
ghost use Rattle.resume_core.specs.Lines.{first_line, sooner};
ghost use Rattle.resume_core.specs.Steps.{puts_key};

use script_read::{Op, Phase, Script, What};
use std::collections::BTreeSet;

/// Whether the line puts a message whose queue and id are in the set.
fn puts_key(keys: &BTreeSet<(u32, u64)>, what: &What) -> bool
    ensures { result ≡ puts_key keys.now what.now }
{
    match what {
        What::Put { queue, message } => keys.contains(&(*queue, message.id())),
        What::Take { .. }
        | What::Close { .. }
        | What::Ack { .. }
        | What::Release { .. }
        | What::Lock { .. }
        | What::Unlock { .. }
        | What::Steal { .. }
        | What::Begin
        | What::Commit
        | What::Rollback => false,
    }
}

/// The lesser of two line numbers, where they are there.
fn sooner(first: Option<u64>, other: Option<u64>) -> Option<u64>
    ensures { result ≡ sooner first other }
{
    match (first, other) {
        (Some(first), Some(other)) => Some(first.min(other)),
        (Some(first), None) => Some(first),
        (None, other) => other,
    }
}

/// The first of these lines that puts what is in the set.
fn first_of_actor(keys: &BTreeSet<(u32, u64)>, ops: &[Op]) -> Option<u64>
    ensures { result ≡ first_line (λ op. puts_key keys.now op.what) ops.now }
{
    let mut found = None;
    'lines: for op in ops {
        if puts_key(keys, &op.what) {
            found = sooner(found, Some(op.line));
        }
    }
    found
}

/// The first line of a phase that does.
fn first_of_phase(keys: &BTreeSet<(u32, u64)>, phase: &Phase) -> Option<u64>
    ensures { result ≡ first_line (λ op. puts_key keys.now op.what) (ops_in (actors_in phase.now)) }
{
    let mut found = None;
    let actors = phase.actors.as_slice();
    'actors: for actor in actors {
        found = sooner(found, first_of_actor(keys, &actor.1));
    }
    found
}

/// The first line of a script that does.
pub(crate) fn doubling_line(keys: &BTreeSet<(u32, u64)>, script: &Script) -> Option<u64>
    ensures { result ≡ first_line (λ op. puts_key keys.now op.what) (all_ops (phases_in script.now)) }
{
    let mut found = None;
    let phases = script.phases.as_slice();
    'phases: for phase in phases {
        found = sooner(found, first_of_phase(keys, phase));
    }
    found
}
