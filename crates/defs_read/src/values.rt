//! What the fields of a queue say.
ghost use Rattle.std.specs.Prelude.{◌≡◌, MatchResult, None, option_map, unwrap_or};
ghost use Rattle.serde_json.specs.View.{view};
ghost use Rattle.fields_read.specs.Faults.{field_fault, values_fault};
ghost use Rattle.fields_read.specs.Fields.{number_at, text_at};
ghost use Rattle.fields_read.specs.declared.fields.Field.TheVariants.{Priorities};
ghost use Rattle.defs_read.specs.Tables.{later_fields};
ghost use Rattle.defs_read.specs.Values.{kind_by, limits_of, policy_named};
ghost use Rattle.defs_read.specs.declared.faults.DefsFault.TheVariants.{NoMemory};

use crate::defs::QueueKind;
use crate::faults::DefsFault;
use crate::tables::QueueType;
use byte_lists::Bytes;
use fields_read::{Field, number, text};
use queue_model::{Limits, Policy};
use serde_json::Value;
use std::alloc::Global;

/// How many priorities a queue has unless it says another number.
const DEFAULT_PRIORITIES: u64 = 10;

/// The header that a last-value queue goes by unless it says another.
const DEFAULT_KEY: &str = "qpid.LVQ_key";

/// A copy of the field's text, or of the default where the field has none.
pub(crate) fn copy_text(
    alloc: Global,
    value: &Value,
    field: Field,
    default: &str,
) -> Result<Bytes, DefsFault>
    ensures { MatchResult result (λ bytes. bytes ≡ unwrap_or (text_at field (view value.now)) default.now) (λ fault. fault ≡ NoMemory) }
{
    let text = text(value, field).unwrap_or(default);
    match Bytes::of(alloc, text.as_bytes()) {
        Ok(bytes) => Ok(bytes),
        Err(_) => Err(DefsFault::NoMemory),
    }
}

/// How many priorities the queue has.
fn priorities(value: &Value) -> u32
    requires { field_fault Priorities (view value.now) ≡ None }
    ensures { result ≡ unwrap_or (number_at Priorities (view value.now)) 10 }
{
    number(value, Field::Priorities).unwrap_or(DEFAULT_PRIORITIES) as u32
}

/// The kind of a queue of this type whose fields have no cause.
pub(crate) fn kind_of(
    alloc: Global,
    value: &Value,
    type_of_queue: QueueType,
) -> Result<QueueKind, DefsFault>
    requires { values_fault (later_fields type_of_queue) (view value.now) ≡ None }
    ensures { MatchResult result (λ kind. kind ≡ kind_by type_of_queue (view value.now)) (λ fault. fault ≡ NoMemory) }
{
    match type_of_queue {
        QueueType::Standard => Ok(QueueKind::Standard),
        QueueType::Priority => Ok(QueueKind::Priority(priorities(value))),
        QueueType::Sorted => Ok(QueueKind::Sorted(copy_text(alloc, value, Field::SortKey, "")?)),
        QueueType::LastValue => Ok(QueueKind::LastValue(copy_text(
            alloc,
            value,
            Field::LvqKey,
            DEFAULT_KEY,
        )?)),
    }
}

/// The policy with this name; NONE without one.
fn policy_named(name: Option<&str>) -> Policy
    ensures { result ≡ policy_named (option_map (λ s. s.now) name.entry) }
{
    match name {
        Some("RING") => Policy::Ring,
        Some("PRODUCER_FLOW_CONTROL") => Policy::FlowControl,
        Some("FLOW_TO_DISK") => Policy::FlowToDisk,
        Some("REJECT") => Policy::Reject,
        _ => Policy::None,
    }
}

/// The limits of a queue. A limit that is missing or -1 is none.
pub(crate) fn limits_of(value: &Value) -> Limits
    ensures { result ≡ limits_of (view value.now) }
{
    Limits {
        policy: policy_named(text(value, Field::OverflowPolicy)),
        entries: number(value, Field::MaximumMessages),
        bytes: number(value, Field::MaximumBytes),
    }
}
