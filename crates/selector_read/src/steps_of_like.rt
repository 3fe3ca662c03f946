//! What a token does within LIKE.
ghost use Rattle.std.specs.Prelude.{◌≡◌};
ghost use Rattle.selector_read.specs.Modes.{Steps, StepsAnywhere};
ghost use Rattle.selector_read.specs.Reading.{escape_step, pattern_read_step, pattern_step};

use crate::begun::Forms;
use crate::levels::COMPARISON;
use crate::modes::{Mode, StepFault};
use crate::patterns::{is_whole_pattern, only_character};
use crate::steps_on_values::value_step;
use crate::trees::Expr;
use byte_lists::Bytes;
use selector_tokens::{Token, Word};
use std::alloc::Global;

/// Where the pattern must come.
pub(crate) fn pattern_step(negated: bool, name: Bytes, token: Token) -> Result<Mode, StepFault>
    ensures { StepsAnywhere result (λ fs. pattern_step fs negated name token) }
{
    match token {
        Token::Text(pattern) => Ok(Mode::PatternRead {
            negated,
            name,
            pattern,
        }),
        _ => Err(StepFault::Unexpected),
    }
}

/// Behind the pattern.
pub(crate) fn pattern_read_step(
    alloc: Global,
    forms: &mut Forms,
    negated: bool,
    name: Bytes,
    pattern: Bytes,
    token: Token,
) -> Result<Mode, StepFault>
    ensures { Steps forms.new result (pattern_read_step forms.old negated name pattern token) }
{
    match token {
        Token::Word(Word::Escape) => Ok(Mode::EscapeNext {
            negated,
            name,
            pattern,
        }),
        token => {
            let like = Expr::Like {
                negated,
                name,
                pattern,
                escape: None,
            };
            value_step(alloc, forms, like, COMPARISON, token)
        }
    }
}

/// Where the escape string must come.
pub(crate) fn escape_step(
    negated: bool,
    name: Bytes,
    pattern: Bytes,
    token: Token,
) -> Result<Mode, StepFault>
    ensures { StepsAnywhere result (λ fs. escape_step fs negated name pattern token) }
{
    let Token::Text(text) = token else {
        return Err(StepFault::Unexpected);
    };
    let Some(escape) = only_character(text.as_slice()) else {
        return Err(StepFault::Unexpected);
    };
    if !is_whole_pattern(escape, pattern.as_slice()) {
        return Err(StepFault::OpenPattern);
    }
    Ok(Mode::Valued(
        Expr::Like {
            negated,
            name,
            pattern,
            escape: Some(escape),
        },
        COMPARISON,
    ))
}
