//! Three truths.
ghost use Rattle.std.specs.Prelude.{◌≡◌};

/// What a selector says of a message. A message is selected exactly for `True`.
#[derive(Clone, Copy, Debug, PartialEq, Eq)]
pub enum Truth {
    True,
    False,
    /// The value is no truth value, as where a header is missing.
    Unknown,
}

impl Truth {
    ghost use Rattle.selector_eval.specs.Truths.{truth_not, truth_and, truth_or};

    /// NOT, by the table of three truths (JMS 1.1, section 3.8.1.2).
    pub(crate) fn not(self) -> Truth
        ensures { result ≡ truth_not self }
    {
        match self {
            Truth::True => Truth::False,
            Truth::False => Truth::True,
            Truth::Unknown => Truth::Unknown,
        }
    }

    /// AND, by its table.
    pub(crate) fn and(self, other: Truth) -> Truth
        ensures { result ≡ truth_and self other }
    {
        match (self, other) {
            (Truth::False, _) | (_, Truth::False) => Truth::False,
            (Truth::True, Truth::True) => Truth::True,
            _ => Truth::Unknown,
        }
    }

    /// OR, by its table.
    pub(crate) fn or(self, other: Truth) -> Truth
        ensures { result ≡ truth_or self other }
    {
        match (self, other) {
            (Truth::True, _) | (_, Truth::True) => Truth::True,
            (Truth::False, Truth::False) => Truth::False,
            _ => Truth::Unknown,
        }
    }
}
