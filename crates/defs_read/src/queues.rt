//! Reads queues.
ghost use Rattle.std.specs.Prelude.{◌≡◌, ◌++◌, ◌∷◌, [], length, map, MatchResult, None};
ghost use Rattle.serde_json.specs.View.{items_view, view};
ghost use Rattle.fields_read.specs.Faults.{values_fault};
ghost use Rattle.fields_read.specs.Fields.{items_at};
ghost use Rattle.fields_read.specs.Forms.{first_of};
ghost use Rattle.fields_read.specs.declared.fields.Field.TheVariants.{Consumers};
ghost use Rattle.defs_read.specs.Causes.{name_in, names_in, queue_causes, queues_fault};
ghost use Rattle.defs_read.specs.Defined.{defined};
ghost use Rattle.defs_read.specs.Steps.{Reads, names_of, typed_causes};
ghost use Rattle.defs_read.specs.Tables.{later_fields};
ghost use Rattle.defs_read.specs.Values.{kind_by, limits_of, queue_of, queues_of};
ghost use Rattle.defs_read.specs.declared.faults.DefsFault.TheVariants.{NoMemory};

use crate::consumers::read_consumers;
use crate::defs::{ConsumerDef, QueueDef};
use crate::faults::DefsFault;
use crate::names::read_name;
use crate::tables::QueueType;
use crate::values::{copy_text, kind_of, limits_of};
use fields_read::{Field, check_values, items, text};
use indexmap::IndexSet;
use serde_json::Value;
use std::alloc::Global;

/// Tests a queue of this type but for its consumers, and adds its name.
fn check_queue<'a>(
    value: &'a Value,
    type_of_queue: QueueType,
    names: &mut IndexSet<&'a str>,
) -> Result<(), DefsFault>
    ensures { Reads result (first_of (typed_causes type_of_queue (names_of names.old) (view value.now))) (λ _. (names_of names.new ≡ names_of names.old ++ name_in (view value.now) ∷ []) × (values_fault (later_fields type_of_queue) (view value.now) ≡ None)) }
{
    let fields = type_of_queue.fields();
    read_name(value, fields, type_of_queue.required(), names)?;
    check_values(value, &fields[1..])?;
    Ok(())
}

/// The queue of this type that its fields say, with these consumers.
fn make_queue(
    alloc: Global,
    value: &Value,
    type_of_queue: QueueType,
    consumers: Vec<ConsumerDef>,
) -> Result<QueueDef, DefsFault>
    requires { values_fault (later_fields type_of_queue) (view value.now) ≡ None }
    ensures { MatchResult result (λ queue. defined queue ≡ record { name = name_in (view value.now); kind = kind_by type_of_queue (view value.now); limits = limits_of (view value.now); consumers = consumers.items }) (λ fault. fault ≡ NoMemory) }
{
    let name = copy_text(alloc, value, Field::Name, "")?;
    let kind = kind_of(alloc, value, type_of_queue)?;
    Ok(QueueDef {
        name,
        kind,
        limits: limits_of(value),
        consumers,
    })
}

/// A queue, after queues and consumers with these names.
fn read_queue<'a>(
    alloc: Global,
    value: &'a Value,
    queue_names: &mut IndexSet<&'a str>,
    consumer_names: &mut IndexSet<&'a str>,
) -> Result<QueueDef, DefsFault>
    ensures { Reads result (first_of (queue_causes (names_of queue_names.old) (names_of consumer_names.old) (view value.now))) (λ queue. (defined queue ≡ queue_of (length (names_of consumer_names.old)) (view value.now)) × (names_of queue_names.new ≡ names_of queue_names.old ++ name_in (view value.now) ∷ []) × (names_of consumer_names.new ≡ names_of consumer_names.old ++ names_in (items_at Consumers (view value.now)))) }
{
    let type_of_queue = QueueType::named(text(value, Field::Kind));
    check_queue(value, type_of_queue, queue_names)?;
    let consumers = read_consumers(alloc, items(value, Field::Consumers), consumer_names)?;
    make_queue(alloc, value, type_of_queue, consumers)
}

/// The queues of a list.
pub(crate) fn read_queues(alloc: Global, list: &[Value]) -> Result<Vec<QueueDef>, DefsFault>
    ensures { Reads result (queues_fault [] [] (items_view list.now)) (λ queues. map defined queues.items ≡ queues_of 0 (items_view list.now)) }
{
    let mut queue_names = IndexSet::new(alloc);
    let mut consumer_names = IndexSet::new(alloc);
    let mut queues = Vec::new(alloc);
    for value in list {
        let queue = read_queue(alloc, value, &mut queue_names, &mut consumer_names)?;
        if queues.push(queue).is_err() {
            return Err(DefsFault::NoMemory);
        }
    }
    Ok(queues)
}
