//! Selectors as trees.
use byte_lists::Bytes;
use selector_tokens::CompareOp;

/// An operator on two numbers.
#[derive(Clone, Copy, Debug, PartialEq, Eq)]
pub enum MathOp {
    Add,
    Sub,
    Mul,
    Div,
}

/// A selector, or a part of one (JMS 1.1, section 3.8.1). `negated` says that a NOT stands in the form.
#[derive(Debug, Drop)]
pub enum Expr {
    /// A whole number.
    Int(i64),
    /// A text between single quotes.
    Text(Bytes),
    /// TRUE or FALSE.
    Bool(bool),
    /// A property of the message.
    Name(Bytes),
    /// A number with its sign turned.
    Minus(Box<Expr>),
    /// A number as it is.
    Plus(Box<Expr>),
    Math {
        op: MathOp,
        left: Box<Expr>,
        right: Box<Expr>,
    },
    Compare {
        op: CompareOp,
        left: Box<Expr>,
        right: Box<Expr>,
    },
    /// Whether a value lies within two others.
    Between {
        negated: bool,
        value: Box<Expr>,
        low: Box<Expr>,
        high: Box<Expr>,
    },
    /// Whether a property is one of these texts.
    OneOf {
        negated: bool,
        name: Bytes,
        list: Vec<Bytes>,
    },
    /// Whether a property is a text of this pattern.
    Like {
        negated: bool,
        name: Bytes,
        pattern: Bytes,
        escape: Option<char>,
    },
    /// Whether the message lacks a property.
    IsNull {
        negated: bool,
        name: Bytes,
    },
    Not(Box<Expr>),
    And(Box<Expr>, Box<Expr>),
    Or(Box<Expr>, Box<Expr>),
}
