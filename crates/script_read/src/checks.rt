//! Tests a line's value, up to the causes that its message may have.
ghost use Rattle.std.specs.Prelude.{◌≡◌, ◌≤◌, ◌&&◌, [], List, false, true, length, MatchResult, None, Some, option_and_then, option_map, unwrap_or};
ghost use Rattle.std.specs.List.{find, position};
ghost use Rattle.std.specs.Str.{bytes_eq};
ghost use Rattle.serde_json.specs.Find.{as_str};
ghost use Rattle.serde_json.specs.View.{view};
ghost use Rattle.fields_read.specs.Faults.{passes_unless};
ghost use Rattle.defs_read.specs.Allowed.{most_queues};
ghost use Rattle.defs_read.specs.Defined.{queues_in};
ghost use Rattle.script_read.specs.Causes.{consumer_named};
ghost use Rattle.script_read.specs.Parts.{early_fault, early_message_fault, fields_fault, names_no_consumer, names_no_queue, text_or_none, verb_said};
ghost use Rattle.script_read.specs.Values.{queue_number};
ghost use Rattle.script_read.specs.declared.faults.LineFault.TheVariants.{UnknownQueue};

use crate::faults::LineFault;
use crate::tables::{MESSAGE, MESSAGE_REQUIRED, Verb};
use defs_read::{ConsumerDef, Defs};
use fields_read::{Field, check_presence, check_values, text};
use serde_json::Value;

/// The bytes of the field's text; none where it is missing or no text.
pub(crate) fn text_bytes(value: &Value, field: Field) -> &[u8]
    ensures { result.now ≡ text_or_none field (view value.now) }
{
    match text(value, field) {
        Some(text) => text.as_bytes(),
        None => &[],
    }
}

/// What the line does. BadValue where the value is no object, MissingField where `do` is missing, and BadValue where
/// `do` says nothing that a line may do.
pub(crate) fn verb_of(value: &Value) -> Result<Verb, LineFault>
    ensures { result ≡ verb_said (view value.now) }
{
    if !value.is_object() {
        return Err(LineFault::BadValue);
    }
    let Some(said) = value.get(Field::Do.name()) else {
        return Err(LineFault::MissingField);
    };
    match said.as_str().and_then(Verb::named) {
        Some(verb) => Ok(verb),
        None => Err(LineFault::BadValue),
    }
}

/// The bytes of a value that is a text; none where it is something else, or there is none.
fn bytes_in(value: Option<&Value>) -> &[u8]
    ensures { result.now
        ≡ unwrap_or (option_and_then as_str (option_map (λ v. view v.now) value.entry)) [] }
{
    match value.and_then(Value::as_str) {
        Some(text) => text.as_bytes(),
        None => &[],
    }
}

/// The number of the queue of this name.
fn queue_at(name: &[u8], defs: &Defs) -> Option<u32>
    requires few { length (queues_in defs.now) ≤ most_queues }
    ensures { result ≡ position (λ q. bytes_eq q.name name.now) (queues_in defs.now) }
{
    match defs
        .queues
        .iter()
        .position(|queue| queue.name.as_slice() == name)
    {
        Some(at) => Some(at as u32),
        None => None,
    }
}

/// The number of the queue that the line names, and 0 where it names none. UnknownQueue where it names one that is not
/// defined.
fn queue_of(value: &Value, defs: &Defs) -> Result<u32, LineFault>
    requires few { length (queues_in defs.now) ≤ most_queues }
    ensures { MatchResult result
        (λ number. (names_no_queue (queues_in defs.now) (view value.now) ≡ false)
        × (number ≡ queue_number (queues_in defs.now) (view value.now)))
        (λ fault. (names_no_queue (queues_in defs.now) (view value.now) ≡ true)
        × (fault ≡ UnknownQueue)) }
{
    let named = value.get(Field::Queue.name());
    match queue_at(bytes_in(named), defs) {
        Some(number) => Ok(number),
        None => match named {
            Some(_) => Err(LineFault::UnknownQueue),
            None => Ok(0),
        },
    }
}

/// The number of the consumer of this name and actor among these.
fn consumer_among(consumers: &[ConsumerDef], name: &[u8], actor: &[u8]) -> Option<u32>
    ensures { result ≡ option_map (λ c. c.number)
        (find (λ c. bytes_eq c.name name.now && bytes_eq c.actor actor.now) consumers.now) }
{
    for consumer in consumers {
        if consumer.name.as_slice() == name && consumer.actor.as_slice() == actor {
            return Some(consumer.number);
        }
    }
    None
}

/// The number of the consumer that the line names, where it is one of the line's actor.
pub(crate) fn consumer_named(value: &Value, defs: &Defs) -> Option<u32>
    ensures { result ≡ consumer_named (queues_in defs.now) (view value.now) }
{
    let name = text_bytes(value, Field::Consumer);
    let actor = text_bytes(value, Field::Actor);
    for queue in &defs.queues {
        if let Some(number) = consumer_among(&queue.consumers, name, actor) {
            return Some(number);
        }
    }
    None
}

/// Whether the line names a consumer that its actor does not have.
#[tactic(auto, unfolding(crate::specs::Parts::names_no_consumer))]
fn names_no_consumer(value: &Value, defs: &Defs) -> bool
    ensures { result ≡ names_no_consumer (queues_in defs.now) (view value.now) }
{
    value.get(Field::Consumer.name()).is_some() && consumer_named(value, defs).is_none()
}

/// Tests that the object has only known fields and all that must stand, and then the values of fields: UnknownField,
/// MissingField, and for the first field that may not have its value FloatNumber or BadValue.
#[tactic(auto, unfolding(crate::specs::Parts::fields_fault))]
fn check_fields(
    value: &Value,
    known: &[Field],
    required: &[Field],
    valued: &[Field],
) -> Result<(), LineFault>
    ensures { result
        ≡ passes_unless (fields_fault known.now required.now valued.now (view value.now)) }
{
    check_presence(value, known, required)?;
    check_values(value, valued)?;
    Ok(())
}

/// Tests a line that does this: its fields, their values, and the queue and the consumer that it names. Gives the number
/// of the queue that it names, and 0 where it names none.
pub(crate) fn check_line(value: &Value, verb: Verb, defs: &Defs) -> Result<u32, LineFault>
    requires few { length (queues_in defs.now) ≤ most_queues }
    ensures { MatchResult result
        (λ queue. (early_fault (queues_in defs.now) (view value.now) verb ≡ None)
        × (queue ≡ queue_number (queues_in defs.now) (view value.now)))
        (λ fault. early_fault (queues_in defs.now) (view value.now) verb ≡ Some fault) }
{
    let fields = verb.fields();
    check_fields(value, fields, verb.required(), &fields[1..])?;
    let queue = queue_of(value, defs)?;
    if names_no_consumer(value, defs) {
        return Err(LineFault::UnknownConsumer);
    }
    Ok(queue)
}

/// Tests the line of a message that stands by itself: that it is an object, its fields and their values.
pub(crate) fn check_message(value: &Value) -> Result<(), LineFault>
    ensures { result ≡ passes_unless (early_message_fault (view value.now)) }
{
    if !value.is_object() {
        return Err(LineFault::BadValue);
    }
    check_fields(value, &MESSAGE, &MESSAGE_REQUIRED, &MESSAGE)
}
