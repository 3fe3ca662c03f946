//! Reads one line by itself.
ghost use Rattle.std.specs.Prelude.{◌≡◌, ◌≤◌, length, MatchResult, Ok, Err, None};
ghost use Rattle.serde_json.specs.View.{view};
ghost use Rattle.fields_read.specs.Faults.{values_fault};
ghost use Rattle.defs_read.specs.Allowed.{most_queues};
ghost use Rattle.defs_read.specs.Defined.{queues_in};
ghost use Rattle.script_read.specs.Causes.{line_fault};
ghost use Rattle.script_read.specs.Parts.{late_fault, value_said};
ghost use Rattle.script_read.specs.Reading.{Gives, line_says, message_says, unless};
ghost use Rattle.script_read.specs.Tables.{fields_of};
ghost use Rattle.script_read.specs.Values.{consumer_number, line_by, line_in, queue_number, what_by};

use crate::checks::{check_line, check_message, consumer_named, text_bytes, verb_of};
use crate::faults::LineFault;
use crate::lines::{Line, Op, What};
use crate::messages::message_of;
use crate::tables::Verb;
use byte_lists::Bytes;
use defs_read::{Defs, LONGEST_LINE};
use fields_read::{Field, JsonFault, number, read_json};
use message_core::Message;
use serde_json::Value;
use std::alloc::Global;

/// The value that the line is as JSON: LineTooLong, and then NotJson.
fn read_value(alloc: Global, line: &[u8]) -> Result<Value, LineFault>
    ensures { MatchResult result (λ value. value_said line.now ≡ Ok (view value))
        (λ fault. Gives (Err fault) (value_said line.now)) }
{
    if line.len() > LONGEST_LINE {
        return Err(LineFault::LineTooLong);
    }
    match read_json(alloc, line) {
        Ok(value) => Ok(value),
        Err(JsonFault::NotJson) => Err(LineFault::NotJson),
        Err(JsonFault::NoMemory) => Err(LineFault::NoMemory),
    }
}

/// The number of the consumer that the line names; 0 where it names none.
fn consumer_number(value: &Value, defs: &Defs) -> u32
    ensures { result ≡ consumer_number (queues_in defs.now) (view value.now) }
{
    consumer_named(value, defs).unwrap_or(0)
}

/// What the line does by this verb, where it has no earlier cause, and names the queue of this number; none where it is a
/// rest. TooLong where its message passes a limit.
fn what_by(
    alloc: Global,
    verb: Verb,
    value: Value,
    queue: u32,
    defs: &Defs,
) -> Result<Option<What>, LineFault>
    requires queue { queue ≡ queue_number (queues_in defs.now) (view value) }
    requires checked { values_fault (fields_of verb) (view value) ≡ None }
    ensures { Gives result (unless (late_fault (view value) verb)
        (what_by (queues_in defs.now) (view value) verb)) }
{
    match verb {
        Verb::Put => match message_of(alloc, value) {
            Ok(message) => Ok(Some(What::Put { queue, message })),
            Err(fault) => Err(fault),
        },
        Verb::Take => Ok(Some(What::Take {
            consumer: consumer_number(&value, defs),
        })),
        Verb::Close => Ok(Some(What::Close {
            consumer: consumer_number(&value, defs),
        })),
        Verb::Ack => Ok(Some(What::Ack {
            queue,
            id: number(&value, Field::Id),
        })),
        Verb::Release => Ok(Some(What::Release {
            queue,
            id: number(&value, Field::Id),
        })),
        Verb::Lock => Ok(Some(What::Lock {
            queue,
            id: number(&value, Field::Id),
        })),
        Verb::Unlock => Ok(Some(What::Unlock {
            queue,
            id: number(&value, Field::Id),
        })),
        Verb::Steal => Ok(Some(What::Steal {
            queue,
            id: number(&value, Field::Id).unwrap_or(0),
        })),
        Verb::Begin => Ok(Some(What::Begin)),
        Verb::Commit => Ok(Some(What::Commit)),
        Verb::Rollback => Ok(Some(What::Rollback)),
        Verb::Rest => Ok(None),
    }
}

/// The line of this number that does this, where it has no earlier cause, and names the queue of this number; TooLong where its message passes a limit.
fn line_by(
    alloc: Global,
    verb: Verb,
    value: Value,
    queue: u32,
    line: u64,
    defs: &Defs,
) -> Result<Line, LineFault>
    requires queue { queue ≡ queue_number (queues_in defs.now) (view value) }
    requires checked { values_fault (fields_of verb) (view value) ≡ None }
    ensures { Gives result (unless (late_fault (view value) verb)
        (line_by (queues_in defs.now) line (view value) verb)) }
{
    let actor = match Bytes::of(alloc, text_bytes(&value, Field::Actor)) {
        Ok(actor) => actor,
        Err(_) => return Err(LineFault::NoMemory),
    };
    match what_by(alloc, verb, value, queue, defs) {
        Ok(Some(what)) => Ok(Line::Doing(Op { line, actor, what })),
        Ok(None) => Ok(Line::Rest),
        Err(fault) => Err(fault),
    }
}

/// The line of this number that the value says, or its first cause.
fn line_of(alloc: Global, value: Value, number: u64, defs: &Defs) -> Result<Line, LineFault>
    requires few { length (queues_in defs.now) ≤ most_queues }
    ensures { Gives result (unless (line_fault (queues_in defs.now) (view value))
        (line_in (queues_in defs.now) number (view value))) }
{
    let verb = verb_of(&value)?;
    let queue = check_line(&value, verb, defs)?;
    line_by(alloc, verb, value, queue, number, defs)
}

/// The line of this number that the text says, where these queues are defined. Tests the line by itself, up to TooLong,
/// and refuses with the first cause in the order that docs/SCRIPT.md gives; NoMemory may come in place of any.
pub fn read_line(alloc: Global, line: &[u8], number: u64, defs: &Defs) -> Result<Line, LineFault>
    requires few { length (queues_in defs.now) ≤ most_queues }
    ensures { Gives result (line_says (queues_in defs.now) number line.now) }
{
    let value = read_value(alloc, line)?;
    line_of(alloc, value, number, defs)
}

/// The message that the text says, as a line of `select` has it: a put without `do`, actor and queue. Refuses with the
/// first cause in the order that docs/SCRIPT.md gives; NoMemory may come in place of any.
pub fn read_message(alloc: Global, line: &[u8]) -> Result<Message, LineFault>
    ensures { Gives result (message_says line.now) }
{
    let value = read_value(alloc, line)?;
    check_message(&value)?;
    message_of(alloc, value)
}
