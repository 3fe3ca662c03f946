//! Arithmetic on values.
ghost use Rattle.std.specs.Prelude.{◌≡◌};
ghost use Rattle.selector_eval.specs.Numbers.{calculated, calculated_on, value_minus, value_plus};
ghost use Rattle.selector_eval.specs.Seen.{number_or_null, seen};

use crate::values::Value;
use selector_read::MathOp;

/// The result where it is a number of 64 bits. Division cuts towards zero, and by zero there is no result.
fn number_of(op: MathOp, left: i64, right: i64) -> Option<i64>
    ensures { number_or_null result ≡ calculated_on op left right }
{
    match op {
        MathOp::Add => left.checked_add(right),
        MathOp::Sub => left.checked_sub(right),
        MathOp::Mul => left.checked_mul(right),
        MathOp::Div => left.checked_div(right),
    }
}

/// An operator on two values: null where one is no number or the result isn't one of 64 bits.
pub(crate) fn calculate<'a>(op: MathOp, left: Value<'a>, right: Value<'a>) -> Value<'a>
    ensures { seen result ≡ calculated op (seen left.entry) (seen right.entry) }
{
    match (left, right) {
        (Value::Int(left), Value::Int(right)) => or_null(number_of(op, left, right)),
        _ => Value::Null,
    }
}

/// The number with its sign turned: null where it is none or leaves 64 bits.
pub(crate) fn minus<'a>(operand: Value<'a>) -> Value<'a>
    ensures { seen result ≡ value_minus (seen operand.entry) }
{
    match operand {
        Value::Int(number) => or_null(number.checked_neg()),
        _ => Value::Null,
    }
}

/// The number as it is: null where it is none.
pub(crate) fn plus<'a>(operand: Value<'a>) -> Value<'a>
    ensures { seen result ≡ value_plus (seen operand.entry) }
{
    match operand {
        Value::Int(_) => operand,
        _ => Value::Null,
    }
}

/// The number, or null where there is none.
fn or_null<'a>(number: Option<i64>) -> Value<'a>
    ensures { seen result ≡ number_or_null number }
{
    match number {
        Some(number) => Value::Int(number),
        None => Value::Null,
    }
}
