//! The actors of the phases, and all of it together.
ghost use Rattle.std.specs.Prelude.{◌≡◌, ◌<◌, ◌≤◌, ◌++◌, ◌∷◌, [], false, IfOk, OnOk};
ghost use Rattle.defs_read.specs.Allowed.{AreAllowed};
ghost use Rattle.defs_read.specs.Defined.{queues_in};
ghost use Rattle.script_read.specs.Allowed.{AreAllowedPhases};
ghost use Rattle.script_read.specs.Phases.{actors_in, phases_in};
ghost use Rattle.gen_core.specs.Generated.{first_phase, phases, putters, queue, second_phase, takers};

use crate::definitions::{DRAINER, PUTTER, PUTTERS, TAKER, TAKERS, definitions, name};
use crate::lines::{LINES_OF_A_ROUND, puts, rounds};
use byte_lists::{Bytes, NoMemory};
use defs_read::Defs;
use script_read::{Op, Phase, Script};
use std::alloc::Global;

/// The greatest number of messages.
pub const MOST_MESSAGES: u64 = 100_000;

/// How many shares the messages are cut into, of which each actor that takes beside the putters takes one.
pub const SHARES: u64 = 8;

/// Adds an actor and its lines behind the others.
fn add(phase: &mut Phase, name: Bytes, ops: Vec<Op>) -> Result<(), NoMemory>
    ensures { OnOk result (
        actors_in phase.new ≡ actors_in phase.old ++ (name, ops.items) ∷ []) }
{
    match phase.actors.push((name, ops)) {
        Ok(()) => Ok(()),
        Err(_) => Err(NoMemory),
    }
}

/// Adds the actors that put the messages 1 to `count`.
#[tactic(auto, using(crate::proofs::Rows::map_row_more_behind))]
fn add_putters(alloc: Global, first: u64, count: u64, phase: &mut Phase) -> Result<(), NoMemory>
    requires { count ≤ MOST_MESSAGES }
    ensures { OnOk result (
        actors_in phase.new ≡ actors_in phase.old ++ putters first count) }
{
    for number in 0..PUTTERS {
        let ops = puts(alloc, first, count, number)?;
        add(phase, name(alloc, PUTTER, number)?, ops)?;
    }
    Ok(())
}

/// Adds the actors that take beside them.
#[tactic(auto, using(crate::proofs::Rows::map_row_more_behind))]
fn add_takers(alloc: Global, count: u64, phase: &mut Phase) -> Result<(), NoMemory>
    requires { count ≤ MOST_MESSAGES }
    ensures { OnOk result (actors_in phase.new ≡ actors_in phase.old ++ takers count) }
{
    let stride = LINES_OF_A_ROUND * TAKERS;
    for number in 0..TAKERS {
        let actor = name(alloc, TAKER, number)?;
        let line = count + 2 + LINES_OF_A_ROUND * number;
        let consumer = number as u32;
        let ops = rounds(
            alloc,
            actor.as_slice(),
            consumer,
            line,
            stride,
            count / SHARES,
        )?;
        add(phase, actor, ops)?;
    }
    Ok(())
}

/// The phase in which actors take beside those that put.
fn first_phase(alloc: Global, first: u64, count: u64) -> Result<Phase, NoMemory>
    requires { count ≤ MOST_MESSAGES }
    ensures { IfOk result (λ phase. actors_in phase ≡ first_phase first count) }
{
    let mut phase = Phase::of(Vec::new(alloc));
    add_putters(alloc, first, count, &mut phase)?;
    add_takers(alloc, count, &mut phase)?;
    Ok(phase)
}

/// The phase in which one actor takes what is left.
fn second_phase(alloc: Global, count: u64) -> Result<Phase, NoMemory>
    requires { count ≤ MOST_MESSAGES }
    ensures { IfOk result (λ phase. actors_in phase ≡ second_phase count) }
{
    let actor = Bytes::of(alloc, &[DRAINER])?;
    let line = count + 3 + LINES_OF_A_ROUND * TAKERS * (count / SHARES);
    let consumer = TAKERS as u32;
    let ops = rounds(
        alloc,
        actor.as_slice(),
        consumer,
        line,
        LINES_OF_A_ROUND,
        count,
    )?;
    let mut phase = Phase::of(Vec::new(alloc));
    add(&mut phase, actor, ops)?;
    Ok(phase)
}

/// The phases of the script that puts the messages 1 to `count`.
fn script(alloc: Global, first: u64, count: u64) -> Result<Script, NoMemory>
    requires { count ≤ MOST_MESSAGES }
    ensures { IfOk result (λ script. phases_in script ≡ phases first count) }
{
    let first = first_phase(alloc, first, count)?;
    let second = second_phase(alloc, count)?;
    let mut phases = Vec::new(alloc);
    if phases.push(first).is_err() || phases.push(second).is_err() {
        return Err(NoMemory);
    }
    Ok(Script { phases })
}

/// The definitions and the script that a number makes for so many messages, from 1 to 100,000: one priority queue without
/// limits, a phase in which four actors put the messages while four others take up to a half of them, and a phase in
/// which one actor takes as often as there were messages. The same number makes the same script. All of it keeps
/// the limits of what is read from a text, and needs no journal. Refuses only for want of memory.
pub fn generate(alloc: Global, number: u64, count: u64) -> Result<(Defs, Script), NoMemory>
    requires some { 1 ≤ count }
    requires few { count ≤ MOST_MESSAGES }
    ensures definitions { IfOk result (λ made. queues_in made.0 ≡ queue ∷ []) }
    ensures script { IfOk result (λ made. phases_in made.1 ≡ phases number count) }
    ensures allowed { IfOk result (λ made. AreAllowed (queues_in made.0)) }
    ensures runs { IfOk result (λ made.
        AreAllowedPhases (queues_in made.0) false (phases_in made.1)) }
{
    let definitions = definitions(alloc)?;
    let script = script(alloc, number, count)?;
    Ok((definitions, script))
}
