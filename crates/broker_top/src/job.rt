//! Reads an input: the definitions and the script, as far as what they need is built.
ghost use Rattle.std.specs.Prelude.{◌≡◌, ◌+◌, ◌^◌, ◌<◌, ◌≤◌, ◌∷◌, [], true, false, length, IfOk, IfSome, MatchOption};
ghost use Rattle.std.specs.List.{list_all};
ghost use Rattle.defs_read.specs.Allowed.{AreAllowed, most_queues};
ghost use Rattle.defs_read.specs.Defined.{queues_in};
ghost use Rattle.script_read.specs.Allowed.{AreAllowedPhases, all_ops};
ghost use Rattle.script_read.specs.Lines.{lines_of, numbered};
ghost use Rattle.script_read.specs.Phases.{phases_in};
ghost use Rattle.script_read.specs.Scripts.{script_of};
ghost use Rattle.broker_top.specs.Input.{input_limit};
ghost use Rattle.broker_top.specs.Job.{GivesJob, IsRunnable, first_unbuilt, input_says, job_says, script_in, with_script};

use crate::built::{are_built, first_unbuilt};
use crate::faults::InputFault;
use crate::puts::too_many;
use byte_lists::NoMemory;
use defs_read::{Defs, DefsFault, read_defs};
use script_read::{Script, first_line, has_nothing, read_script};
use std::alloc::Global;

/// What is run: the phases of a script over these definitions.
#[derive(Debug, Drop)]
pub(crate) struct Job {
    pub(crate) defs: Defs,
    pub(crate) script: Script,
}

/// The first line that is not blank: its number from 1, its text, and the bytes behind it.
fn first_text(input: &[u8]) -> Option<(u64, &[u8], &[u8])>
    ensures found { MatchOption result (numbered 1 (lines_of input.now) ≡ []) (λ found. numbered 1 (lines_of input.now) ≡ (found.0, found.1.now) ∷ numbered (found.0 + 1) (lines_of found.2.now)) }
    ensures early { IfSome result (λ found. found.0 + length found.2.now ≤ length input.now) }
{
    let mut rest = input;
    let mut number = 1;
    'looking: while !rest.is_empty() {
        let (text, tail) = first_line(rest);
        if !has_nothing(text) {
            return Some((number, text, tail));
        }
        number += 1;
        rest = tail;
    }
    None
}

/// The first line that needs what isn't built: the definitions, which are the line of this number, or a line behind them.
fn unbuilt(number: u64, job: &Job) -> Option<u64>
    ensures { result ≡ first_unbuilt number (script_in job.now) }
{
    if are_built(&job.defs) {
        first_unbuilt(&job.script)
    } else {
        Some(number)
    }
}

/// What is run of definitions, which are the line of this number, and of a script behind them.
fn job_of(alloc: Global, number: u64, defs: Defs, script: Script) -> Result<Job, InputFault>
    requires defs { AreAllowed (queues_in defs) }
    requires script { AreAllowedPhases (queues_in defs) false (phases_in script) }
    ensures says { GivesJob result (job_says number
        (record { defs = queues_in defs; phases = phases_in script })) }
    ensures runs { IfOk result (λ job. IsRunnable (script_in job)) }
{
    let job = Job { defs, script };
    if let Some(line) = unbuilt(number, &job) {
        return Err(InputFault::NotBuilt { line });
    }
    match too_many(alloc, &job.script) {
        Ok(None) => Ok(job),
        Ok(Some(line)) => Err(InputFault::TooManyEntries { line }),
        Err(NoMemory) => Err(InputFault::NoMemory),
    }
}

/// What is run of the script behind definitions, which are the line of this number.
fn read_behind(alloc: Global, number: u64, defs: Defs, rest: &[u8]) -> Result<Job, InputFault>
    requires defs { AreAllowed (queues_in defs) }
    requires numbers { number + 1 + length rest.now < 2 ^ 64 }
    ensures says { GivesJob result (with_script number (queues_in defs)
        (script_of (queues_in defs) false (number + 1) rest.now)) }
    ensures runs { IfOk result (λ job. IsRunnable (script_in job)) }
{
    match read_script(alloc, rest, &defs, false, number + 1) {
        Ok(script) => job_of(alloc, number, defs, script),
        Err(fault) => Err(InputFault::of_script(fault)),
    }
}

/// What of an input is run. Refuses with the first cause, in the order that docs/SCRIPT.md gives; NoMemory may come in
/// place of any.
pub(crate) fn read_job(alloc: Global, input: &[u8]) -> Result<Job, InputFault>
    requires { length input.now ≤ input_limit }
    ensures says { GivesJob result (input_says input.now) }
    ensures runs { IfOk result (λ job. IsRunnable (script_in job)) }
{
    let Some((line, text, rest)) = first_text(input) else {
        return Err(InputFault::Definitions {
            line: 1,
            cause: DefsFault::NotJson,
        });
    };
    match read_defs(alloc, text) {
        Ok(defs) => read_behind(alloc, line, defs, rest),
        Err(DefsFault::NoMemory) => Err(InputFault::NoMemory),
        Err(cause) => Err(InputFault::Definitions { line, cause }),
    }
}
