//! Reads definitions.
ghost use Rattle.std.specs.Prelude.{◌≡◌, ◌≤◌, length, map, IfOk, MatchResult};
ghost use Rattle.serde_json.specs.View.{view};
ghost use Rattle.fields_read.specs.Fields.{items_at};
ghost use Rattle.fields_read.specs.Forms.{first_of};
ghost use Rattle.fields_read.specs.declared.fields.Field.TheVariants.{Queues};
ghost use Rattle.defs_read.specs.Allowed.{AreAllowed, most_queues};
ghost use Rattle.defs_read.specs.Causes.{defs_causes};
ghost use Rattle.defs_read.specs.Defined.{defined, queues_in};
ghost use Rattle.defs_read.specs.Reading.{Defines, IsRefused};
ghost use Rattle.defs_read.specs.Steps.{Reads};
ghost use Rattle.defs_read.specs.Values.{queues_of};

use crate::defs::{Defs, QueueDef};
use crate::faults::DefsFault;
use crate::limits::LONGEST_LINE;
use crate::names::check_object;
use crate::queues::read_queues;
use crate::tables::LINE;
use fields_read::{Field, JsonFault, check_values, items, read_json};
use serde_json::Value;
use std::alloc::Global;

/// The queues that a line of this value defines.
fn read_value(alloc: Global, value: &Value) -> Result<Vec<QueueDef>, DefsFault>
    ensures { Reads result (first_of (defs_causes (view value.now))) (λ queues. map defined queues.items ≡ queues_of 0 (items_at Queues (view value.now))) }
{
    check_object(value, &LINE, &LINE)?;
    check_values(value, &LINE)?;
    read_queues(alloc, items(value, Field::Queues))
}

/// The definitions that a line says. Refuses with the first cause, in the order that docs/SCRIPT.md gives; NoMemory may
/// come in place of any.
pub fn read_defs(alloc: Global, line: &[u8]) -> Result<Defs, DefsFault>
    ensures read { MatchResult result (Defines line.now) (λ fault. IsRefused fault line.now) }
    ensures few { IfOk result (λ defs. length (queues_in defs) ≤ most_queues) }
    ensures allowed { IfOk result (λ defs. AreAllowed (queues_in defs)) }
{
    if line.len() > LONGEST_LINE {
        return Err(DefsFault::LineTooLong);
    }
    let value = match read_json(alloc, line) {
        Ok(value) => value,
        Err(JsonFault::NotJson) => return Err(DefsFault::NotJson),
        Err(JsonFault::NoMemory) => return Err(DefsFault::NoMemory),
    };
    let queues = read_value(alloc, &value)?;
    Ok(Defs { queues })
}
