//! The lines of one actor.
ghost use Rattle.std.specs.Prelude.{ℕ, ◌≡◌, ◌<◌, ◌≤◌, ◌+◌, ◌*◌, ◌^◌, ◌∷◌, ◌++◌, [], IfOk, OnOk};
ghost use Rattle.gen_core.specs.Draws.{number_after};
ghost use Rattle.gen_core.specs.Generated.{put_line, put_lines, puts, round, rounds};

use crate::definitions::{PUTTER, PUTTERS, name};
use crate::draws::{message, next};
use byte_lists::{Bytes, NoMemory};
use script_read::{Op, What};
use std::alloc::Global;

/// How many lines a round has: a take and an acknowledgement.
pub const LINES_OF_A_ROUND: u64 = 2;

/// The most lines that are counted: no script has more, nor a line a greater number.
pub(crate) const MOST_LINES: u64 = 1_048_576;

/// The most lines from one round of an actor to its next.
const MOST_STRIDE: u64 = 8;

/// Adds a line behind the others.
fn push(ops: &mut Vec<Op>, op: Op) -> Result<(), NoMemory>
    ensures { OnOk result (ops.new.items ≡ ops.old.items ++ op ∷ []) }
{
    match ops.push(op) {
        Ok(()) => Ok(()),
        Err(_) => Err(NoMemory),
    }
}

/// Adds the line that puts message i, which the number x makes, where it is this actor's.
fn add_put(alloc: Global, i: u64, x: u64, putter: u64, ops: &mut Vec<Op>) -> Result<(), NoMemory>
    requires { i ≤ MOST_LINES }
    ensures { OnOk result ((first : ℕ) → x ≡ number_after first i
        → ops.new.items ≡ ops.old.items ++ put_lines first putter i) }
{
    if i % PUTTERS != putter {
        return Ok(());
    }
    let op = Op {
        line: i + 1,
        actor: name(alloc, PUTTER, i % PUTTERS)?,
        what: What::Put {
            queue: 0,
            message: message(alloc, i, x)?,
        },
    };
    push(ops, op)
}

/// The lines of the actor of this number among those that put the messages 1 to `count`.
#[tactic(auto, using(crate::proofs::Rows::number_after_more, crate::proofs::Rows::puts_more))]
pub(crate) fn puts(alloc: Global, first: u64, count: u64, putter: u64) -> Result<Vec<Op>, NoMemory>
    requires { count ≤ MOST_LINES }
    ensures { IfOk result (λ ops. ops.items ≡ puts first count putter) }
{
    let mut ops = Vec::new(alloc);
    let mut x = first;
    for before in 0..count {
        x = next(x);
        add_put(alloc, before + 1, x, putter, &mut ops)?;
    }
    Ok(ops)
}

/// The actor's line of this number.
fn line_of(alloc: Global, line: u64, actor: &[u8], what: What) -> Result<Op, NoMemory>
    ensures { IfOk result (λ op. op ≡ record { line = line; actor = actor.now; what = what }) }
{
    let actor = Bytes::of(alloc, actor)?;
    Ok(Op { line, actor, what })
}

/// Adds a take of the consumer, and an acknowledgement of what was taken last.
fn add_round(
    alloc: Global,
    actor: &[u8],
    consumer: u32,
    line: u64,
    ops: &mut Vec<Op>,
) -> Result<(), NoMemory>
    requires { line < 2 ^ 32 }
    ensures { OnOk result (ops.new.items ≡ ops.old.items ++ round actor.now consumer line) }
{
    let ack = What::Ack { queue: 0, id: None };
    push(ops, line_of(alloc, line, actor, What::Take { consumer })?)?;
    push(ops, line_of(alloc, line + 1, actor, ack)?)
}

/// So many rounds of an actor, the first of which has this line; each begins so many lines behind the one before.
#[tactic(auto, using(crate::proofs::Rows::rounds_more, crate::proofs::Rows::stride_low))]
pub(crate) fn rounds(
    alloc: Global,
    actor: &[u8],
    consumer: u32,
    line: u64,
    stride: u64,
    times: u64,
) -> Result<Vec<Op>, NoMemory>
    requires line { line ≤ MOST_LINES }
    requires stride { stride ≤ MOST_STRIDE }
    requires times { times ≤ MOST_LINES }
    ensures { IfOk result (λ ops. ops.items ≡ rounds actor.now consumer line stride times) }
{
    let mut ops = Vec::new(alloc);
    for round in 0..times {
        add_round(alloc, actor, consumer, line + stride * round, &mut ops)?;
    }
    Ok(ops)
}
