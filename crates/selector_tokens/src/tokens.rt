//! The tokens of a selector.
use byte_lists::Bytes;

/// A comparison of two values.
#[derive(Clone, Copy, Debug, PartialEq, Eq)]
pub enum CompareOp {
    Equal,
    Unequal,
    Less,
    LessEqual,
    Greater,
    GreaterEqual,
}

/// A reserved word. The case of its letters tells nothing.
#[derive(Clone, Copy, Debug, PartialEq, Eq)]
pub enum Word {
    And,
    Or,
    Not,
    Between,
    In,
    Like,
    Escape,
    Is,
    Null,
    True,
    False,
}

/// A token of a selector (docs/SELECTORS.md, "Tokens").
#[derive(Debug, Drop)]
pub enum Token {
    /// An identifier, with the case of its letters.
    Name(Bytes),
    /// A reserved word.
    Word(Word),
    /// A whole number up to 9223372036854775807.
    Number(i64),
    /// What stands between single quotes, each doubled quote once.
    Text(Bytes),
    /// One of `=`, `<>`, `<`, `<=`, `>`, `>=`.
    Compare(CompareOp),
    Plus,
    Minus,
    Times,
    Divide,
    Open,
    Close,
    Comma,
}

impl Token {
    ghost use Rattle.std.specs.Prelude.{◌≡◌};
    ghost use Rattle.selector_tokens.specs.Lexing.{is_number};

    /// Whether it is a number, which no identifier may directly follow.
    pub(crate) fn is_number(&self) -> bool
        ensures { result ≡ is_number self.now }
    {
        matches!(self, Token::Number(_))
    }
}

/// A token, and the place of its first byte in the text, counted from 0.
#[derive(Debug, Drop)]
pub struct Placed {
    pub at: u64,
    pub token: Token,
}
