//! The truth of a selector for a message.
ghost use Rattle.std.specs.Prelude.{◌≡◌};
ghost use Rattle.selector_read.specs.Trees.{tree_of};
ghost use Rattle.selector_eval.specs.Evaluation.{truth_of, value_of};
ghost use Rattle.selector_eval.specs.Seen.{seen};

use crate::Truth;
use crate::comparing::{alike, between, compare, equals_some, not_if, null_test};
use crate::numbers::{calculate, minus, plus};
use crate::properties::property;
use crate::values::Value;
use message_core::Message;
use selector_read::{Expr, Selector};

/// The truth of the selector for the message, which is selected exactly for `True`. `Unknown` where the selector's
/// value is no truth value, as where a header that it names is missing (JMS 1.1, section 3.8.1; docs/SELECTORS.md).
/// Takes no memory.
pub fn truth(selector: &Selector, message: &Message) -> Truth
    ensures { result ≡ truth_of selector.now message.now }
{
    value_in(selector.expr(), message).truth()
}

/// The value of an expression over a message. AND and OR leave their right side out where the left one decides.
fn value_in<'a>(expr: &'a Expr, message: &'a Message) -> Value<'a>
    ensures { seen result ≡ value_of (tree_of expr.now) message.now }
{
    match expr {
        Expr::Int(number) => Value::Int(*number),
        Expr::Text(text) => Value::Text(text.as_slice()),
        Expr::Bool(truth) => Value::Bool(*truth),
        Expr::Name(name) => property(message, name.as_slice()),
        Expr::Minus(operand) => minus(value_in(operand, message)),
        Expr::Plus(operand) => plus(value_in(operand, message)),
        Expr::Math { op, left, right } => {
            calculate(*op, value_in(left, message), value_in(right, message))
        }
        Expr::Compare { op, left, right } => {
            compare(*op, value_in(left, message), value_in(right, message))
        }
        Expr::Between {
            negated,
            value,
            low,
            high,
        } => between(
            *negated,
            value_in(value, message),
            value_in(low, message),
            value_in(high, message),
        ),
        Expr::OneOf {
            negated,
            name,
            list,
        } => not_if(
            *negated,
            equals_some(property(message, name.as_slice()), list),
        ),
        Expr::Like {
            negated,
            name,
            pattern,
            escape,
        } => not_if(
            *negated,
            alike(
                *escape,
                pattern.as_slice(),
                property(message, name.as_slice()),
            ),
        ),
        Expr::IsNull { negated, name } => null_test(*negated, property(message, name.as_slice())),
        Expr::Not(operand) => Value::of(value_in(operand, message).truth().not()),
        Expr::And(left, right) => match value_in(left, message).truth() {
            Truth::False => Value::Bool(false),
            undecided => Value::of(undecided.and(value_in(right, message).truth())),
        },
        Expr::Or(left, right) => match value_in(left, message).truth() {
            Truth::True => Value::Bool(true),
            undecided => Value::of(undecided.or(value_in(right, message).truth())),
        },
    }
}
