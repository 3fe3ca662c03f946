//! What values may be: names, texts, whole numbers, lists, headers.
ghost use Rattle.std.specs.Prelude.{◌≡◌, ◌^◌, unwrap_or, option_map, false};
ghost use Rattle.serde_json.specs.Find.{as_object};
ghost use Rattle.serde_json.specs.View.{view};
ghost use Rattle.fields_read.specs.Fields.{policies, types};
ghost use Rattle.fields_read.specs.Forms.{any_member, are_headers, is_header, is_limit, is_list_of, is_minus_one, is_name, is_name_byte, is_one_of, is_text_with, is_text_within, is_whole};
ghost use Rattle.fields_read.specs.Json.{is_float_number};

use serde_json::Value;

/// How many bytes a name has at most.
const LONGEST_NAME: usize = 64;

/// The greatest limit of a queue.
const GREATEST_LIMIT: u64 = 1 << 40;

/// Whether the byte may stand in a name.
fn is_name_byte(byte: u8) -> bool
    ensures { result ≡ is_name_byte byte }
{
    byte.is_ascii_graphic() && byte != b'#'
}

/// Whether the text is a name.
fn is_name_text(text: &str) -> bool
    ensures { result ≡ is_name text.now }
{
    let bytes = text.as_bytes();
    !bytes.is_empty() && bytes.len() <= LONGEST_NAME && bytes.iter().all(|byte| is_name_byte(*byte))
}

/// Whether the value is a name.
pub(crate) fn is_name(value: &Value) -> bool
    ensures { result ≡ is_text_with is_name (view value.now) }
{
    match value.as_str() {
        Some(text) => is_name_text(text),
        None => false,
    }
}

/// Whether the value is a text of so many bytes.
pub(crate) fn is_text_within(value: &Value, least: usize, most: usize) -> bool
    ensures { result ≡ is_text_within least most (view value.now) }
{
    match value.as_str() {
        Some(text) => least <= text.len() && text.len() <= most,
        None => false,
    }
}

/// Whether the value is the type of a queue.
pub(crate) fn is_type(value: &Value) -> bool
    ensures { result ≡ is_one_of types (view value.now) }
{
    matches!(
        value.as_str(),
        Some("standard" | "priority" | "sorted" | "lvq")
    )
}

/// Whether the value is an overflow policy.
pub(crate) fn is_policy(value: &Value) -> bool
    ensures { result ≡ is_one_of policies (view value.now) }
{
    matches!(
        value.as_str(),
        Some("NONE" | "RING" | "PRODUCER_FLOW_CONTROL" | "FLOW_TO_DISK" | "REJECT")
    )
}

/// Whether the value is a whole number within these bounds.
pub(crate) fn is_whole(value: &Value, least: u64, most: u64) -> bool
    ensures { result ≡ is_whole least most (view value.now) }
{
    match value.as_u64() {
        Some(number) => least <= number && number <= most,
        None => false,
    }
}

/// Whether the value is -1.
fn is_minus_one(value: &Value) -> bool
    ensures { result ≡ is_minus_one (view value.now) }
{
    match value.as_i64() {
        Some(number) => number == -1,
        None => false,
    }
}

/// Whether the value is a limit of a queue.
pub(crate) fn is_limit(value: &Value) -> bool
    ensures { result ≡ is_limit (view value.now) }
{
    is_minus_one(value) || is_whole(value, 1, GREATEST_LIMIT)
}

/// Whether the value is a list of at least one value and at most so many.
pub(crate) fn is_list_of(value: &Value, most: usize) -> bool
    ensures { result ≡ is_list_of most (view value.now) }
{
    match value.as_array() {
        Some(items) => !items.is_empty() && items.len() <= most,
        None => false,
    }
}

/// Whether the value is that of a header.
fn is_header(value: &Value) -> bool
    ensures { result ≡ is_header (view value.now) }
{
    value.is_string() || value.is_boolean() || value.is_i64()
}

/// Whether the value is an object whose values are those of headers.
pub(crate) fn are_headers(value: &Value) -> bool
    ensures { result ≡ are_headers (view value.now) }
{
    match value.as_object() {
        Some(members) => members.values().all(is_header),
        None => false,
    }
}

/// Whether the value is an object that has a number which is no whole number of 64 bits.
pub(crate) fn has_float_member(value: &Value) -> bool
    ensures { result ≡ unwrap_or (option_map (any_member is_float_number) (as_object (view value.now))) false }
{
    match value.as_object() {
        Some(members) => members.values().any(Value::is_f64),
        None => false,
    }
}
