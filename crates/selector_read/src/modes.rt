//! What may come next in a text, and why a token may not.
use crate::trees::Expr;
use byte_lists::{Bytes, NoMemory};
use thiserror::Error;

/// What may come next. A flag says that NOT stands in the form that is read.
#[derive(Debug, Drop)]
pub(crate) enum Mode {
    /// An operand.
    Operand,
    /// Behind a name that may begin a comparison by IN, LIKE or IS.
    Named(Bytes),
    /// Behind an expression of this level: PRIMARY, or COMPARISON for a form of LIKE, IN or IS.
    Valued(Expr, u8),
    /// Behind an expression and NOT: BETWEEN.
    NotValue(Expr),
    /// Behind a name and NOT: BETWEEN, IN or LIKE.
    NotName(Bytes),
    /// Behind IS, or IS NOT.
    NullNext {
        negated: bool,
        name: Bytes,
    },
    /// Behind IN: its parenthesis.
    ListNext {
        negated: bool,
        name: Bytes,
    },
    /// A string of IN's list, behind these.
    ItemNext {
        negated: bool,
        name: Bytes,
        list: Vec<Bytes>,
    },
    /// Behind a string of IN's list.
    ItemRead {
        negated: bool,
        name: Bytes,
        list: Vec<Bytes>,
    },
    /// Behind LIKE: the pattern.
    PatternNext {
        negated: bool,
        name: Bytes,
    },
    /// Behind the pattern.
    PatternRead {
        negated: bool,
        name: Bytes,
        pattern: Bytes,
    },
    /// Behind ESCAPE: the escape string.
    EscapeNext {
        negated: bool,
        name: Bytes,
        pattern: Bytes,
    },
}

/// Why a token does not take the reading on.
#[derive(Clone, Copy, Debug, PartialEq, Eq, Error)]
pub(crate) enum StepFault {
    /// No selector goes on with it.
    #[error("unexpected")]
    Unexpected,
    /// It would be the 65th parenthesis, NOT or sign that is unfinished.
    #[error("too deep")]
    TooDeep,
    /// The pattern, two tokens before, ends with an escape character that escapes nothing.
    #[error("open pattern")]
    OpenPattern,
    #[error("out of memory")]
    NoMemory,
}

impl From<NoMemory> for StepFault {
    ghost use Rattle.std.specs.Prelude.{◌≡◌};
    ghost use Rattle.selector_read.specs.declared.modes.StepFault.TheVariants as fault;

    ghost from_gives = { λ _ e. e ≡ fault.NoMemory };

    fn from(_fault: NoMemory) -> StepFault {
        StepFault::NoMemory
    }
}
