//! Reads the value of a field as what it has to be.
ghost use Rattle.std.specs.Prelude.{◌≡◌, option_map};
ghost use Rattle.serde_json.specs.View.{items_view, view};
ghost use Rattle.fields_read.specs.Fields.{items_at, number_at, text_at, truth_at};

use crate::fields::Field;
use serde_json::Value;

/// The text of the field; none where it is missing or no text.
pub fn text(object: &Value, field: Field) -> Option<&str>
    ensures { option_map (λ s. s.now) result ≡ text_at field (view object.now) }
{
    object.get(field.name()).and_then(Value::as_str)
}

/// The number of the field; none where it is missing or no whole number from 0 to 2^64 - 1.
pub fn number(object: &Value, field: Field) -> Option<u64>
    ensures { result ≡ number_at field (view object.now) }
{
    object.get(field.name()).and_then(Value::as_u64)
}

/// The truth value of the field; none where it is missing or no truth value.
pub fn truth(object: &Value, field: Field) -> Option<bool>
    ensures { result ≡ truth_at field (view object.now) }
{
    object.get(field.name()).and_then(Value::as_bool)
}

/// The values of the field's list; none of them where it is missing or no list.
pub fn items(object: &Value, field: Field) -> &[Value]
    ensures { items_view result.now ≡ items_at field (view object.now) }
{
    match object.get(field.name()).and_then(Value::as_array) {
        Some(items) => items,
        None => &[],
    }
}
