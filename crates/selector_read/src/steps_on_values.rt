//! What a token does behind an expression.
ghost use Rattle.std.specs.Prelude.{◌≡◌, ◌≤◌, ◌∷◌, false, MatchResult};
ghost use Rattle.selector_read.specs.Modes.{Compares, Steps, Stops, and_held, close_held, comparison, or_held};
ghost use Rattle.selector_read.specs.Grammar.{math_level};
ghost use Rattle.selector_read.specs.Reading.{Held, State, compare_of, low_of, math_step, named_step, not_value, operand, settle, state, sum_only, value_step};
ghost use Rattle.selector_read.specs.Trees.{tree_of};

use crate::begun::{Begun, Forms, boxed};
use crate::levels::{AND, COMPARISON, OR, PRIMARY, SUM, math_level};
use crate::modes::{Mode, StepFault};
use crate::trees::{Expr, MathOp};
use byte_lists::Bytes;
use selector_tokens::{CompareOp, Token, Word};
use std::alloc::Global;

/// An operator of a sum or a product.
fn math_step(
    alloc: Global,
    forms: &mut Forms,
    expr: Expr,
    level: u8,
    op: MathOp,
) -> Result<Mode, StepFault>
    ensures { Steps forms.new result (sum_only level (math_step op (settle (math_level op) forms.old (tree_of expr)))) }
{
    if level < SUM {
        return Err(StepFault::Unexpected);
    }
    let left = forms.settle(alloc, math_level(op), expr)?;
    forms.begin(Begun::Math(op, boxed(alloc, left)?))?;
    Ok(Mode::Operand)
}

/// The sum that a comparison begins with, where a comparison may stand.
fn compared(alloc: Global, forms: &mut Forms, expr: Expr, level: u8) -> Result<Expr, StepFault>
    ensures { MatchResult result (λ e. Compares level forms.old (tree_of expr) forms.new (tree_of e)) (λ why. (next : Held → State) → Stops why (comparison level forms.old (tree_of expr) next)) }
{
    if level < SUM {
        return Err(StepFault::Unexpected);
    }
    let sum = forms.settle(alloc, SUM, expr)?;
    if forms.awaited() > COMPARISON {
        return Err(StepFault::Unexpected);
    }
    Ok(sum)
}

/// A comparison sign.
fn sign_step(
    alloc: Global,
    forms: &mut Forms,
    expr: Expr,
    level: u8,
    op: CompareOp,
) -> Result<Mode, StepFault>
    ensures { Steps forms.new result (comparison level forms.old (tree_of expr) (λ h. state (compare_of op h.tree ∷ h.begun) operand)) }
{
    let left = compared(alloc, forms, expr, level)?;
    forms.begin(Begun::Compare(op, boxed(alloc, left)?))?;
    Ok(Mode::Operand)
}

/// BETWEEN.
fn between_step(alloc: Global, forms: &mut Forms, expr: Expr, level: u8) -> Result<Mode, StepFault>
    ensures { Steps forms.new result (comparison level forms.old (tree_of expr) (λ h. state (low_of false h.tree ∷ h.begun) operand)) }
{
    let value = compared(alloc, forms, expr, level)?;
    forms.begin(Begun::Low(false, boxed(alloc, value)?))?;
    Ok(Mode::Operand)
}

/// NOT, behind which BETWEEN must come.
fn not_step(alloc: Global, forms: &mut Forms, expr: Expr, level: u8) -> Result<Mode, StepFault>
    ensures { Steps forms.new result (comparison level forms.old (tree_of expr) (λ h. state h.begun (not_value h.tree))) }
{
    let value = compared(alloc, forms, expr, level)?;
    Ok(Mode::NotValue(value))
}

/// AND: the lower end of BETWEEN is whole, or the left part of AND.
fn and_step(alloc: Global, forms: &mut Forms, expr: Expr) -> Result<Mode, StepFault>
    ensures { Steps forms.new result (and_held (settle 2 forms.old (tree_of expr))) }
{
    let left = boxed(alloc, forms.settle(alloc, AND, expr)?)?;
    let form = match forms.take_low() {
        Some((negated, value)) => Begun::High(negated, value, left),
        None => Begun::And(left),
    };
    forms.begin(form)?;
    Ok(Mode::Operand)
}

/// OR.
fn or_step(alloc: Global, forms: &mut Forms, expr: Expr) -> Result<Mode, StepFault>
    ensures { Steps forms.new result (or_held (settle 1 forms.old (tree_of expr))) }
{
    let left = forms.settle(alloc, OR, expr)?;
    if forms.waits_low() {
        return Err(StepFault::Unexpected);
    }
    forms.begin(Begun::Or(boxed(alloc, left)?))?;
    Ok(Mode::Operand)
}

/// A closing parenthesis.
fn close_step(alloc: Global, forms: &mut Forms, expr: Expr) -> Result<Mode, StepFault>
    ensures { Steps forms.new result (close_held (settle 1 forms.old (tree_of expr))) }
{
    let inner = forms.settle(alloc, OR, expr)?;
    if forms.take_paren() {
        Ok(Mode::Valued(inner, PRIMARY))
    } else {
        Err(StepFault::Unexpected)
    }
}

/// Behind an expression of this level.
pub(crate) fn value_step(
    alloc: Global,
    forms: &mut Forms,
    expr: Expr,
    level: u8,
    token: Token,
) -> Result<Mode, StepFault>
    ensures { Steps forms.new result (value_step forms.old (tree_of expr) level token) }
{
    match token {
        Token::Times => math_step(alloc, forms, expr, level, MathOp::Mul),
        Token::Divide => math_step(alloc, forms, expr, level, MathOp::Div),
        Token::Plus => math_step(alloc, forms, expr, level, MathOp::Add),
        Token::Minus => math_step(alloc, forms, expr, level, MathOp::Sub),
        Token::Compare(op) => sign_step(alloc, forms, expr, level, op),
        Token::Word(Word::Between) => between_step(alloc, forms, expr, level),
        Token::Word(Word::Not) => not_step(alloc, forms, expr, level),
        Token::Word(Word::And) => and_step(alloc, forms, expr),
        Token::Word(Word::Or) => or_step(alloc, forms, expr),
        Token::Close => close_step(alloc, forms, expr),
        _ => Err(StepFault::Unexpected),
    }
}

/// Behind a name that may begin a comparison by IN, LIKE or IS.
pub(crate) fn named_step(
    alloc: Global,
    forms: &mut Forms,
    name: Bytes,
    token: Token,
) -> Result<Mode, StepFault>
    ensures { Steps forms.new result (named_step forms.old name token) }
{
    match token {
        Token::Word(Word::In) => Ok(Mode::ListNext {
            negated: false,
            name,
        }),
        Token::Word(Word::Like) => Ok(Mode::PatternNext {
            negated: false,
            name,
        }),
        Token::Word(Word::Is) => Ok(Mode::NullNext {
            negated: false,
            name,
        }),
        Token::Word(Word::Not) => Ok(Mode::NotName(name)),
        token => value_step(alloc, forms, Expr::Name(name), PRIMARY, token),
    }
}
