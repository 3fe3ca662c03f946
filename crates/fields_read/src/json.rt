//! Reads a line as JSON.
ghost use Rattle.std.specs.Prelude.{◌≡◌, Some, None, MatchResult, ⊤};
ghost use Rattle.serde_json.specs.View.{view};
ghost use Rattle.fields_read.specs.Json.{json_of};
ghost use Rattle.fields_read.specs.declared.json.JsonFault.{JsonFault};
ghost use Rattle.fields_read.specs.declared.json.JsonFault.TheVariants.{NotJson, NoMemory};

use serde_json::Value;
use std::alloc::Global;
use thiserror::Error;

/// Why bytes give no JSON value.
#[derive(Clone, Copy, Debug, PartialEq, Eq, Error)]
pub enum JsonFault {
    /// The bytes are not UTF-8, or no JSON text.
    #[error("no JSON")]
    NotJson,
    #[error("out of memory")]
    NoMemory,
}

/// The value that the bytes are as JSON. NotJson exactly where they are none, but that want of memory may come
/// in its place. docs/SCRIPT.md, "What counts as JSON", says what `serde_json` decides.
pub fn read_json(alloc: Global, bytes: &[u8]) -> Result<Value, JsonFault>
    ensures { MatchResult result (λ value. json_of bytes.now ≡ Some (view value)) (λ fault. fault ≡ NotJson → json_of bytes.now ≡ None) }
{
    match Value::from_slice(alloc, bytes) {
        Ok(value) => Ok(value),
        Err(error) => if error.is_memory() {
            Err(JsonFault::NoMemory)
        } else {
            Err(JsonFault::NotJson)
        },
    }
}
