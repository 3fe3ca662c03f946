//! Values of expressions.
ghost use Rattle.std.specs.Prelude.{◌≡◌};

use crate::Truth;

/// The value of an expression over a message. A text is a selector's or a message's own.
#[derive(Clone, Copy, Debug)]
pub(crate) enum Value<'a> {
    Null,
    Bool(bool),
    Int(i64),
    Text(&'a [u8]),
}

impl<'a> Value<'a> {
    ghost use Rattle.selector_eval.specs.Values.{truth_in, value_in};
    ghost use Rattle.selector_eval.specs.Seen.{seen};

    /// The value as NOT, AND and OR read it.
    pub(crate) fn truth(self) -> Truth
        ensures { result ≡ truth_in (seen self.entry) }
    {
        match self {
            Value::Bool(true) => Truth::True,
            Value::Bool(false) => Truth::False,
            Value::Null | Value::Int(_) | Value::Text(_) => Truth::Unknown,
        }
    }

    /// What NOT, AND and OR give.
    pub(crate) fn of(truth: Truth) -> Value<'a>
        ensures { seen result ≡ value_in truth }
    {
        match truth {
            Truth::True => Value::Bool(true),
            Truth::False => Value::Bool(false),
            Truth::Unknown => Value::Null,
        }
    }
}
