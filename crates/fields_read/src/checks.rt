//! The first cause that an object has against a table of fields.
ghost use Rattle.std.specs.Prelude.{◌≡◌};
ghost use Rattle.serde_json.specs.View.{view};
ghost use Rattle.fields_read.specs.Faults.{field_fault, has_unknown, is_float_at, is_named, lacks, passes_unless, presence_fault, value_fault, values_fault};

use crate::faults::FieldFault;
use crate::fields::Field;
use crate::forms::has_float_member;
use serde_json::Value;

/// Whether one of the fields has this name.
fn is_named(name: &str, fields: &[Field]) -> bool
    ensures { result ≡ is_named name.now fields.now }
{
    fields.iter().any(|field| field.name() == name)
}

/// Whether the object has a member that none of the fields names.
fn has_unknown(object: &Value, known: &[Field]) -> bool
    ensures { result ≡ has_unknown known.now (view object.now) }
{
    match object.as_object() {
        Some(members) => members.keys().any(|name| !is_named(name, known)),
        None => false,
    }
}

/// Whether one of the fields is missing in the object.
fn lacks(object: &Value, required: &[Field]) -> bool
    ensures { result ≡ lacks required.now (view object.now) }
{
    required
        .iter()
        .any(|field| object.get(field.name()).is_none())
}

/// Tests that the object has only known fields, and all that must stand: UnknownField, and then MissingField.
pub fn check_presence(object: &Value, known: &[Field], required: &[Field]) -> Result<(), FieldFault>
    ensures { result ≡ passes_unless (presence_fault known.now required.now (view object.now)) }
{
    if has_unknown(object, known) {
        return Err(FieldFault::UnknownField);
    }
    if lacks(object, required) {
        return Err(FieldFault::MissingField);
    }
    Ok(())
}

/// Whether the field's value is a number that is no whole number of 64 bits; for headers also whether a header is.
fn is_float_at(field: Field, value: &Value) -> bool
    ensures { result ≡ is_float_at field (view value.now) }
{
    match field {
        Field::Headers => value.is_f64() || has_float_member(value),
        _ => value.is_f64(),
    }
}

/// Tests the value of a field: FloatNumber, and then BadValue.
fn check_value(field: Field, value: &Value) -> Result<(), FieldFault>
    ensures { result ≡ passes_unless (value_fault field (view value.now)) }
{
    if is_float_at(field, value) {
        return Err(FieldFault::FloatNumber);
    }
    if !field.accepts(value) {
        return Err(FieldFault::BadValue);
    }
    Ok(())
}

/// Tests the field where the object has it.
fn check_field(object: &Value, field: Field) -> Result<(), FieldFault>
    ensures { result ≡ passes_unless (field_fault field (view object.now)) }
{
    match object.get(field.name()) {
        Some(value) => check_value(field, value),
        None => Ok(()),
    }
}

/// Tests the values of these fields in their order, where the object has them: FloatNumber or BadValue for the
/// first that may not have its value.
pub fn check_values(object: &Value, fields: &[Field]) -> Result<(), FieldFault>
    ensures { result ≡ passes_unless (values_fault fields.now (view object.now)) }
{
    for field in fields {
        check_field(object, *field)?;
    }
    Ok(())
}
