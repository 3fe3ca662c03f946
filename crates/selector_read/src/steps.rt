//! What one token does.
ghost use Rattle.std.specs.Prelude.{◌≡◌, ◌≤◌};
ghost use Rattle.selector_read.specs.Forms.{begun_of};
ghost use Rattle.selector_read.specs.Grammar.{most_nested};
ghost use Rattle.selector_read.specs.Modes.{Steps, mode_of};
ghost use Rattle.selector_read.specs.Reading.{begins, nests, operand_step, step_in};

use crate::begun::{Begun, Forms, MOST_NESTED};
use crate::levels::{COMPARISON, NOT, PRIMARY};
use crate::modes::{Mode, StepFault};
use crate::steps_in_forms::{
    item_read_step, item_step, list_step, not_name_step, not_value_step, null_step,
};
use crate::steps_of_like::{escape_step, pattern_read_step, pattern_step};
use crate::steps_on_values::{named_step, value_step};
use crate::trees::Expr;
use selector_tokens::{Token, Word};
use std::alloc::Global;

/// Begins a form that counts for the nesting.
fn nest(forms: &mut Forms, form: Begun) -> Result<Mode, StepFault>
    requires { nests (begun_of form) ≡ 1 }
    ensures { Steps forms.new result (begins most_nested (begun_of form) forms.old) }
{
    if forms.nesting() >= MOST_NESTED {
        return Err(StepFault::TooDeep);
    }
    forms.begin(form)?;
    Ok(Mode::Operand)
}

/// Where an operand must come.
fn operand_step(forms: &mut Forms, token: Token) -> Result<Mode, StepFault>
    ensures { Steps forms.new result (operand_step most_nested forms.old token) }
{
    match token {
        Token::Word(Word::Not) if forms.awaited() <= NOT => nest(forms, Begun::Not),
        Token::Plus => nest(forms, Begun::Plus),
        Token::Minus => nest(forms, Begun::Minus),
        Token::Open => nest(forms, Begun::Paren),
        Token::Number(number) => Ok(Mode::Valued(Expr::Int(number), PRIMARY)),
        Token::Text(text) => Ok(Mode::Valued(Expr::Text(text), PRIMARY)),
        Token::Word(Word::True) => Ok(Mode::Valued(Expr::Bool(true), PRIMARY)),
        Token::Word(Word::False) => Ok(Mode::Valued(Expr::Bool(false), PRIMARY)),
        Token::Name(name) if forms.awaited() <= COMPARISON => Ok(Mode::Named(name)),
        Token::Name(name) => Ok(Mode::Valued(Expr::Name(name), PRIMARY)),
        _ => Err(StepFault::Unexpected),
    }
}

/// What a token does: the forms that are then begun and what may come behind them, or why it does not take the reading
/// on.
pub(crate) fn step(
    alloc: Global,
    forms: &mut Forms,
    mode: Mode,
    token: Token,
) -> Result<Mode, StepFault>
    ensures { Steps forms.new result (step_in most_nested forms.old (mode_of mode) token) }
{
    match mode {
        Mode::Operand => operand_step(forms, token),
        Mode::Named(name) => named_step(alloc, forms, name, token),
        Mode::Valued(expr, level) => value_step(alloc, forms, expr, level, token),
        Mode::NotValue(expr) => not_value_step(alloc, forms, expr, token),
        Mode::NotName(name) => not_name_step(alloc, forms, name, token),
        Mode::NullNext { negated, name } => null_step(negated, name, token),
        Mode::ListNext { negated, name } => list_step(alloc, forms, negated, name, token),
        Mode::ItemNext {
            negated,
            name,
            list,
        } => item_step(negated, name, list, token),
        Mode::ItemRead {
            negated,
            name,
            list,
        } => item_read_step(negated, name, list, token),
        Mode::PatternNext { negated, name } => pattern_step(negated, name, token),
        Mode::PatternRead {
            negated,
            name,
            pattern,
        } => pattern_read_step(alloc, forms, negated, name, pattern, token),
        Mode::EscapeNext {
            negated,
            name,
            pattern,
        } => escape_step(negated, name, pattern, token),
    }
}
