//! What a token does within the forms of a comparison: behind NOT, IS and IN.
ghost use Rattle.std.specs.Prelude.{◌≡◌, ◌∷◌, true};
ghost use Rattle.selector_read.specs.Grammar.{most_nested};
ghost use Rattle.selector_read.specs.Modes.{Steps, StepsAnywhere};
ghost use Rattle.selector_read.specs.Reading.{goes, item_read_step, item_step, list_step, not_name_step, not_value_step, null_step, low_of, operand, state};
ghost use Rattle.selector_read.specs.Trees.{tree_of};

use crate::begun::{Begun, Forms, MOST_NESTED, boxed};
use crate::levels::COMPARISON;
use crate::modes::{Mode, StepFault};
use crate::trees::Expr;
use byte_lists::Bytes;
use selector_tokens::{Token, Word};
use std::alloc::Global;

/// Begins NOT BETWEEN.
fn not_between(alloc: Global, forms: &mut Forms, value: Expr) -> Result<Mode, StepFault>
    ensures { Steps forms.new result (goes (state (low_of true (tree_of value) ∷ forms.old) operand)) }
{
    forms.begin(Begun::Low(true, boxed(alloc, value)?))?;
    Ok(Mode::Operand)
}

/// Behind an expression and NOT.
pub(crate) fn not_value_step(
    alloc: Global,
    forms: &mut Forms,
    value: Expr,
    token: Token,
) -> Result<Mode, StepFault>
    ensures { Steps forms.new result (not_value_step forms.old (tree_of value) token) }
{
    match token {
        Token::Word(Word::Between) => not_between(alloc, forms, value),
        _ => Err(StepFault::Unexpected),
    }
}

/// Behind a name and NOT.
pub(crate) fn not_name_step(
    alloc: Global,
    forms: &mut Forms,
    name: Bytes,
    token: Token,
) -> Result<Mode, StepFault>
    ensures { Steps forms.new result (not_name_step forms.old name token) }
{
    match token {
        Token::Word(Word::Between) => not_between(alloc, forms, Expr::Name(name)),
        Token::Word(Word::In) => Ok(Mode::ListNext {
            negated: true,
            name,
        }),
        Token::Word(Word::Like) => Ok(Mode::PatternNext {
            negated: true,
            name,
        }),
        _ => Err(StepFault::Unexpected),
    }
}

/// Behind IS, or IS NOT.
pub(crate) fn null_step(negated: bool, name: Bytes, token: Token) -> Result<Mode, StepFault>
    ensures { StepsAnywhere result (λ fs. null_step fs negated name token) }
{
    match token {
        Token::Word(Word::Null) => Ok(Mode::Valued(Expr::IsNull { negated, name }, COMPARISON)),
        Token::Word(Word::Not) if !negated => Ok(Mode::NullNext {
            negated: true,
            name,
        }),
        _ => Err(StepFault::Unexpected),
    }
}

/// Behind IN.
pub(crate) fn list_step(
    alloc: Global,
    forms: &Forms,
    negated: bool,
    name: Bytes,
    token: Token,
) -> Result<Mode, StepFault>
    ensures { Steps forms.now result (list_step most_nested forms.now negated name token) }
{
    match token {
        Token::Open if forms.nesting() < MOST_NESTED => Ok(Mode::ItemNext {
            negated,
            name,
            list: Vec::new(alloc),
        }),
        Token::Open => Err(StepFault::TooDeep),
        _ => Err(StepFault::Unexpected),
    }
}

/// Where a string of IN's list must come.
pub(crate) fn item_step(
    negated: bool,
    name: Bytes,
    list: Vec<Bytes>,
    token: Token,
) -> Result<Mode, StepFault>
    ensures { StepsAnywhere result (λ fs. item_step fs negated name list.items token) }
{
    let mut list = list;
    match token {
        Token::Text(text) => {
            if list.push(text).is_err() {
                return Err(StepFault::NoMemory);
            }
            Ok(Mode::ItemRead {
                negated,
                name,
                list,
            })
        }
        _ => Err(StepFault::Unexpected),
    }
}

/// Behind a string of IN's list.
pub(crate) fn item_read_step(
    negated: bool,
    name: Bytes,
    list: Vec<Bytes>,
    token: Token,
) -> Result<Mode, StepFault>
    ensures { StepsAnywhere result (λ fs. item_read_step fs negated name list.items token) }
{
    match token {
        Token::Comma => Ok(Mode::ItemNext {
            negated,
            name,
            list,
        }),
        Token::Close => Ok(Mode::Valued(
            Expr::OneOf {
                negated,
                name,
                list,
            },
            COMPARISON,
        )),
        _ => Err(StepFault::Unexpected),
    }
}
