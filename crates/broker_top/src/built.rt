//! What is built. The rest of what an input may say is refused until it is.
ghost use Rattle.std.specs.Prelude.{◌≡◌, not};
ghost use Rattle.std.specs.List.{list_all};
ghost use Rattle.defs_read.specs.Defined.{defined, queues_in};
ghost use Rattle.script_read.specs.Allowed.{all_ops, ops_in};
ghost use Rattle.script_read.specs.Phases.{actors_in, phases_in};
ghost use Rattle.broker_top.specs.Built.{is_built_line, is_built_policy, is_built_queue};
ghost use Rattle.broker_top.specs.Sooner.{first_line, sooner};

use defs_read::{Defs, QueueDef};
use queue_model::Policy;
use script_read::{Op, Phase, Script, What};

/// Whether the policy is built.
fn is_built_policy(policy: Policy) -> bool
    ensures { result ≡ is_built_policy policy }
{
    match policy {
        Policy::None | Policy::Ring | Policy::FlowControl | Policy::Reject => true,
        Policy::FlowToDisk => false,
    }
}

/// Whether the queue is built.
fn is_built_queue(queue: &QueueDef) -> bool
    ensures { result ≡ is_built_queue (defined queue.now) }
{
    is_built_policy(queue.limits.policy)
}

/// Whether these queues are built.
fn all_built(queues: &[QueueDef]) -> bool
    ensures { result ≡ list_all (λ queue. is_built_queue (defined queue)) queues.now }
{
    queues.iter().all(|queue| is_built_queue(queue))
}

/// Whether all queues are built.
pub(crate) fn are_built(defs: &Defs) -> bool
    ensures { result ≡ list_all is_built_queue (queues_in defs.now) }
{
    all_built(defs.queues.as_slice())
}

/// Whether a line that does this is built.
fn is_built_line(what: &What) -> bool
    ensures { result ≡ is_built_line what.now }
{
    match what {
        What::Put { .. }
        | What::Take { .. }
        | What::Close { .. }
        | What::Ack { .. }
        | What::Release { .. }
        | What::Lock { .. }
        | What::Unlock { .. }
        | What::Steal { .. } => true,
        What::Begin | What::Commit | What::Rollback => false,
    }
}

/// The lesser of two line numbers, where they are there.
fn sooner(first: Option<u64>, other: Option<u64>) -> Option<u64>
    ensures { result ≡ sooner first other }
{
    match (first, other) {
        (Some(first), Some(other)) => Some(first.min(other)),
        (Some(first), None) => Some(first),
        (None, other) => other,
    }
}

/// The first of these lines that isn't built.
fn first_of_actor(ops: &[Op]) -> Option<u64>
    ensures { result ≡ first_line (λ op. not (is_built_line op.what)) ops.now }
{
    let mut found = None;
    'lines: for op in ops {
        if !is_built_line(&op.what) {
            found = sooner(found, Some(op.line));
        }
    }
    found
}

/// The first line of a phase that isn't built.
fn first_of_phase(phase: &Phase) -> Option<u64>
    ensures { result ≡ first_line (λ op. not (is_built_line op.what)) (ops_in (actors_in phase.now)) }
{
    let mut found = None;
    let actors = phase.actors.as_slice();
    'actors: for actor in actors {
        found = sooner(found, first_of_actor(&actor.1));
    }
    found
}

/// The first line of a script that isn't built.
pub(crate) fn first_unbuilt(script: &Script) -> Option<u64>
    ensures { result ≡ first_line (λ op. not (is_built_line op.what)) (all_ops (phases_in script.now)) }
{
    let mut found = None;
    let phases = script.phases.as_slice();
    'phases: for phase in phases {
        found = sooner(found, first_of_phase(phase));
    }
    found
}
