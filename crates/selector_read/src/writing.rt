//! Writing a selector as a text.
ghost use Rattle.std.specs.Prelude.{◌≡◌, ◌≤◌, ◌+◌, ◌++◌, length, IfOk, OnOk};
ghost use Rattle.selector_read.specs.Reading.{selector_of};
ghost use Rattle.selector_read.specs.Selectors.{StandsFor, longest_text, reads};
ghost use Rattle.selector_read.specs.Trees.{tree_of};
ghost use Rattle.selector_read.specs.Writing.{level_of, text_at};

use crate::levels::{AND, COMPARISON, NOT, OR, PRIMARY, SUM, UNARY, math_level};
use crate::writing_pieces::{
    compare_sign_of, math_sign_of, put_escape, put_list, put_number, put_quoted, put_words,
    truth_word_of,
};
use crate::{Expr, Selector};
use byte_lists::{Bytes, NoMemory};
use std::alloc::{AllocError, Global};

/// The level of an expression.
fn level(expr: &Expr) -> u8
    ensures { result ≡ level_of (tree_of expr.now) }
{
    match expr {
        Expr::Or(_, _) => OR,
        Expr::And(_, _) => AND,
        Expr::Not(_) => NOT,
        Expr::Compare { .. } | Expr::Between { .. } => COMPARISON,
        Expr::OneOf { .. } | Expr::Like { .. } | Expr::IsNull { .. } => COMPARISON,
        Expr::Math { op, .. } => math_level(*op),
        Expr::Minus(_) | Expr::Plus(_) => UNARY,
        Expr::Int(_) | Expr::Text(_) | Expr::Bool(_) | Expr::Name(_) => PRIMARY,
    }
}

/// Writes a part behind what is there. It stands in parentheses if it binds less than its place needs.
#[cycle(text)]
fn put_part(out: &mut Vec<u8>, part: &Expr, asked: u8) -> Result<(), AllocError>
    ensures { OnOk result (out.new.items ≡ out.old.items ++ text_at asked (tree_of part.now)) }
{
    if level(part) >= asked {
        return put(out, part);
    }
    out.extend_from_slice(b"(")?;
    put(out, part)?;
    out.extend_from_slice(b")")
}

/// Puts an expression at the end, without parentheses around it.
#[cycle(text)]
fn put(out: &mut Vec<u8>, expr: &Expr) -> Result<(), AllocError>
    ensures { OnOk result (out.new.items ≡ out.old.items ++ text_at 1 (tree_of expr.now)) }
{
    match expr {
        Expr::Int(number) => put_number(out, *number),
        Expr::Text(text) => put_quoted(out, text.as_slice()),
        Expr::Bool(truth) => out.extend_from_slice(truth_word_of(*truth)),
        Expr::Name(name) => out.extend_from_slice(name.as_slice()),
        Expr::Minus(part) => {
            out.extend_from_slice(b"-")?;
            put_part(out, part, UNARY)
        }
        Expr::Plus(part) => {
            out.extend_from_slice(b"+")?;
            put_part(out, part, UNARY)
        }
        Expr::Math { op, left, right } => {
            let level = math_level(*op);
            put_part(out, left, level)?;
            out.extend_from_slice(math_sign_of(*op))?;
            put_part(out, right, level + 1)
        }
        Expr::Compare { op, left, right } => {
            put_part(out, left, SUM)?;
            out.extend_from_slice(compare_sign_of(*op))?;
            put_part(out, right, SUM)
        }
        Expr::Between {
            negated,
            value,
            low,
            high,
        } => {
            put_part(out, value, SUM)?;
            put_words(out, *negated, b" BETWEEN ")?;
            put_part(out, low, SUM)?;
            out.extend_from_slice(b" AND ")?;
            put_part(out, high, SUM)
        }
        Expr::OneOf {
            negated,
            name,
            list,
        } => {
            out.extend_from_slice(name.as_slice())?;
            put_words(out, *negated, b" IN (")?;
            put_list(out, list)?;
            out.extend_from_slice(b")")
        }
        Expr::Like {
            negated,
            name,
            pattern,
            escape,
        } => {
            out.extend_from_slice(name.as_slice())?;
            put_words(out, *negated, b" LIKE ")?;
            put_quoted(out, pattern.as_slice())?;
            put_escape(out, *escape)
        }
        Expr::IsNull { negated, name } => {
            out.extend_from_slice(name.as_slice())?;
            out.extend_from_slice(b" IS")?;
            put_words(out, *negated, b" NULL")
        }
        Expr::Not(part) => {
            out.extend_from_slice(b"NOT ")?;
            put_part(out, part, NOT)
        }
        Expr::And(left, right) => {
            put_part(out, left, AND)?;
            out.extend_from_slice(b" AND ")?;
            put_part(out, right, NOT)
        }
        Expr::Or(left, right) => {
            put_part(out, left, OR)?;
            out.extend_from_slice(b" OR ")?;
            put_part(out, right, AND)
        }
    }
}

/// A text that stands for the selector: reserved words in capitals, one space between tokens, and parentheses only
/// where they are needed (docs/SELECTORS.md, "Written back"). Where it has at most 4,096 bytes it is read as the same
/// selector. Refuses only for want of memory.
pub fn text(alloc: Global, selector: &Selector) -> Result<Bytes, NoMemory>
    ensures bytes { IfOk result (λ bytes. bytes ≡ text_at 1 selector.now) }
    ensures stands { IfOk result (λ bytes. StandsFor bytes selector.now) }
    ensures again { IfOk result (λ bytes. length bytes ≤ longest_text → selector_of bytes ≡ reads selector.now) }
{
    let mut out = Vec::new(alloc);
    match put(&mut out, selector.written()) {
        Ok(()) => Ok(Bytes::from_vec(out)),
        Err(_) => Err(NoMemory),
    }
}
