//! Comparisons of values.
ghost use Rattle.std.specs.Prelude.{◌≡◌};
ghost use Rattle.selector_eval.specs.Comparing.{compared, numbers_pass, sameness_passes};
ghost use Rattle.selector_eval.specs.Evaluation.{alike, between, equals_some, not_if, null_test};
ghost use Rattle.selector_eval.specs.Seen.{seen};

use crate::Truth;
use crate::patterns::is_like;
use crate::values::Value;
use byte_lists::Bytes;
use selector_read::CompareOp;

/// A sign between two numbers.
fn compare_numbers(op: CompareOp, left: i64, right: i64) -> bool
    ensures { result ≡ numbers_pass op left right }
{
    match op {
        CompareOp::Equal => left == right,
        CompareOp::Unequal => left != right,
        CompareOp::Less => left < right,
        CompareOp::LessEqual => left <= right,
        CompareOp::Greater => left > right,
        CompareOp::GreaterEqual => left >= right,
    }
}

/// A sign between two texts or two truth values, which are the same or not.
fn compare_sameness(op: CompareOp, same: bool) -> bool
    ensures { result ≡ sameness_passes op same }
{
    match op {
        CompareOp::Equal => same,
        CompareOp::Unequal => !same,
        CompareOp::Less | CompareOp::LessEqual | CompareOp::Greater | CompareOp::GreaterEqual =>
            false,
    }
}

/// A comparison: null with null, and false of unlike types, for <> too.
pub(crate) fn compare<'a>(op: CompareOp, left: Value<'a>, right: Value<'a>) -> Value<'a>
    ensures { seen result ≡ compared op (seen left.entry) (seen right.entry) }
{
    match (left, right) {
        (Value::Null, _) | (_, Value::Null) => Value::Null,
        (Value::Int(left), Value::Int(right)) => Value::Bool(compare_numbers(op, left, right)),
        (Value::Text(left), Value::Text(right)) => Value::Bool(compare_sameness(op, left == right)),
        (Value::Bool(left), Value::Bool(right)) => Value::Bool(compare_sameness(op, left == right)),
        _ => Value::Bool(false),
    }
}

/// BETWEEN by its two comparisons and AND; NOT BETWEEN by theirs and OR.
pub(crate) fn between<'a>(
    negated: bool,
    value: Value<'a>,
    low: Value<'a>,
    high: Value<'a>,
) -> Value<'a>
    ensures { seen result ≡ between negated (seen value.entry) (seen low.entry) (seen high.entry) }
{
    if negated {
        let below = compare(CompareOp::Less, value, low).truth();
        Value::of(below.or(compare(CompareOp::Greater, value, high).truth()))
    } else {
        let reached = compare(CompareOp::GreaterEqual, value, low).truth();
        Value::of(reached.and(compare(CompareOp::LessEqual, value, high).truth()))
    }
}

/// NOT of the value, where the form is negated.
pub(crate) fn not_if<'a>(negated: bool, value: Value<'a>) -> Value<'a>
    ensures { seen result ≡ not_if negated (seen value.entry) }
{
    if negated {
        Value::of(value.truth().not())
    } else {
        value
    }
}

/// IN: the OR of the comparisons of the value with each text.
pub(crate) fn equals_some<'a>(value: Value<'a>, list: &[Bytes]) -> Value<'a>
    ensures { seen result ≡ equals_some (seen value.entry) list.now }
{
    let mut found = Truth::False;
    for text in list {
        let same = compare(CompareOp::Equal, value, Value::Text(text.as_slice()));
        found = found.or(same.truth());
    }
    Value::of(found)
}

/// LIKE: null for null, false for what is no text, else whether the text fits.
pub(crate) fn alike<'a>(escape: Option<char>, pattern: &[u8], value: Value<'a>) -> Value<'a>
    ensures { seen result ≡ alike escape pattern.now (seen value.entry) }
{
    match value {
        Value::Null => Value::Null,
        Value::Text(text) => Value::Bool(is_like(escape, pattern, text)),
        Value::Bool(_) | Value::Int(_) => Value::Bool(false),
    }
}

/// IS NULL and IS NOT NULL.
pub(crate) fn null_test<'a>(negated: bool, value: Value<'a>) -> Value<'a>
    ensures { seen result ≡ null_test negated (seen value.entry) }
{
    match value {
        Value::Null => Value::Bool(!negated),
        _ => Value::Bool(negated),
    }
}
