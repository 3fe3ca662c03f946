//! The definitions: one queue and its consumers.
ghost use Rattle.std.specs.Prelude.{◌≡◌, ◌∷◌, ◌+◌, ◌<◌, ◌≤◌, [], None, IfOk};
ghost use Rattle.defs_read.specs.Defined.{queues_in};
ghost use Rattle.gen_core.specs.Generated.{consumer, consumers, numbered, queue};

use byte_lists::{Bytes, NoMemory};
use defs_read::{ConsumerDef, Defs, QueueDef, QueueKind};
use std::alloc::Global;

/// How many priorities the queue has.
pub const PRIORITIES: u32 = 10;

/// How many actors put.
pub const PUTTERS: u64 = 4;

/// How many actors take beside them.
pub const TAKERS: u64 = 4;

/// The name of the queue.
pub const QUEUE: u8 = b'q';

/// What the names of consumers begin with.
pub const CONSUMER: u8 = b'c';

/// What the names of the actors that put begin with.
pub const PUTTER: u8 = b'p';

/// What the names of the actors that take beside them begin with.
pub const TAKER: u8 = b'a';

/// The name of the actor that takes what is left.
pub const DRAINER: u8 = b'd';

/// The digit 0.
pub const ZERO: u8 = b'0';

/// The name of a letter and a digit.
pub(crate) fn name(alloc: Global, letter: u8, digit: u64) -> Result<Bytes, NoMemory>
    requires { digit < 10 }
    ensures { IfOk result (λ name. name ≡ numbered letter digit) }
{
    Bytes::of(alloc, &[letter, ZERO + digit as u8])
}

/// The consumer of this number, which this actor takes for.
fn consumer(alloc: Global, number: u64, actor: Bytes) -> Result<ConsumerDef, NoMemory>
    requires { number < 10 }
    ensures { IfOk result (λ c. c ≡ consumer number actor) }
{
    let name = name(alloc, CONSUMER, number)?;
    Ok(ConsumerDef {
        name,
        actor,
        number: number as u32,
        selector: None,
    })
}

/// A consumer for each actor that takes.
#[tactic(auto, using(crate::proofs::Rows::map_row_more))]
fn consumers(alloc: Global) -> Result<Vec<ConsumerDef>, NoMemory>
    ensures { IfOk result (λ made. made.items ≡ consumers) }
{
    let mut made = Vec::new(alloc);
    for number in 0..TAKERS {
        let actor = name(alloc, TAKER, number)?;
        if made.push(consumer(alloc, number, actor)?).is_err() {
            return Err(NoMemory);
        }
    }
    let actor = Bytes::of(alloc, &[DRAINER])?;
    if made.push(consumer(alloc, TAKERS, actor)?).is_err() {
        return Err(NoMemory);
    }
    Ok(made)
}

/// The queue with its consumers.
pub(crate) fn definitions(alloc: Global) -> Result<Defs, NoMemory>
    ensures { IfOk result (λ defs. queues_in defs ≡ queue ∷ []) }
{
    let name = Bytes::of(alloc, &[QUEUE])?;
    let kind = QueueKind::Priority(PRIORITIES);
    let queue = QueueDef::bare(name, kind, consumers(alloc)?);
    let mut queues = Vec::new(alloc);
    if queues.push(queue).is_err() {
        return Err(NoMemory);
    }
    Ok(Defs { queues })
}
