//! Reads the consumers of a queue.
ghost use Rattle.std.specs.Prelude.{◌≡◌, ◌++◌, ◌∷◌, [], length, nat_le};
ghost use Rattle.serde_json.specs.View.{items_view, view};
ghost use Rattle.fields_read.specs.Faults.{cause_if};
ghost use Rattle.fields_read.specs.Forms.{first_of};
ghost use Rattle.defs_read.specs.Causes.{consumer_causes, consumers_fault, most_consumers, name_in, names_in, selector_fault};
ghost use Rattle.defs_read.specs.Steps.{Reads, names_of};
ghost use Rattle.defs_read.specs.Values.{consumer_of, consumers_of, selector_at};
ghost use Rattle.defs_read.specs.declared.faults.DefsFault.TheVariants.{TooManyConsumers};

use crate::defs::ConsumerDef;
use crate::faults::DefsFault;
use crate::limits::MOST_CONSUMERS;
use crate::names::read_name;
use crate::tables::{CONSUMER, REQUIRED_CONSUMER};
use crate::values::copy_text;
use byte_lists::Bytes;
use fields_read::{Field, check_values, text};
use indexmap::IndexSet;
use selector_read::{Selector, SelectorFault, read};
use serde_json::Value;
use std::alloc::Global;

/// The selector of a consumer, where it has one.
fn read_selector(alloc: Global, value: &Value) -> Result<Option<Selector>, DefsFault>
    ensures { Reads result (selector_fault (view value.now)) (λ selector. selector ≡ selector_at (view value.now)) }
{
    let Some(text) = text(value, Field::Selector) else {
        return Ok(None);
    };
    match read(alloc, text) {
        Ok(selector) => Ok(Some(selector)),
        Err(SelectorFault::Bad { at, kind }) => Err(DefsFault::BadSelector { at, kind }),
        Err(SelectorFault::NoMemory) => Err(DefsFault::NoMemory),
    }
}

/// The consumer with this number, unless so many stand before it that it is one too many.
fn make_consumer(
    name: Bytes,
    actor: Bytes,
    number: usize,
    selector: Option<Selector>,
) -> Result<ConsumerDef, DefsFault>
    ensures { Reads result (cause_if (nat_le most_consumers number) TooManyConsumers) (λ consumer. consumer ≡ record { name = name; actor = actor; number = number; selector = selector }) }
{
    if number >= MOST_CONSUMERS {
        return Err(DefsFault::TooManyConsumers);
    }
    Ok(ConsumerDef {
        name,
        actor,
        number: number as u32,
        selector,
    })
}

/// A consumer, whose number is that of the names before its own.
fn read_consumer<'a>(
    alloc: Global,
    value: &'a Value,
    names: &mut IndexSet<&'a str>,
) -> Result<ConsumerDef, DefsFault>
    ensures { Reads result (first_of (consumer_causes (names_of names.old) (view value.now))) (λ consumer. (consumer ≡ consumer_of (length (names_of names.old)) (view value.now)) × (names_of names.new ≡ names_of names.old ++ name_in (view value.now) ∷ [])) }
{
    let number = read_name(value, &CONSUMER, &REQUIRED_CONSUMER, names)?;
    check_values(value, &CONSUMER[1..])?;
    let name = copy_text(alloc, value, Field::Name, "")?;
    let actor = copy_text(alloc, value, Field::Actor, "")?;
    let selector = read_selector(alloc, value)?;
    make_consumer(name, actor, number, selector)
}

/// The consumers of a list, numbered from that of the names before theirs.
pub(crate) fn read_consumers<'a>(
    alloc: Global,
    list: &'a [Value],
    names: &mut IndexSet<&'a str>,
) -> Result<Vec<ConsumerDef>, DefsFault>
    ensures { Reads result (consumers_fault (names_of names.old) (items_view list.now)) (λ consumers. (consumers.items ≡ consumers_of (length (names_of names.old)) (items_view list.now)) × (names_of names.new ≡ names_of names.old ++ names_in (items_view list.now))) }
{
    let mut consumers = Vec::new(alloc);
    for value in list {
        let consumer = read_consumer(alloc, value, names)?;
        if consumers.push(consumer).is_err() {
            return Err(DefsFault::NoMemory);
        }
    }
    Ok(consumers)
}
