//! Reading a text.
ghost use Rattle.std.specs.Prelude.{◌≡◌, ◌≤◌, ◌<◌, length, option_map, IfOk, MatchResult};
ghost use Rattle.selector_tokens.specs.Lexing.{lexed};
ghost use Rattle.selector_read.specs.Answers.{Means, Reads};
ghost use Rattle.selector_read.specs.Modes.{ReadsAs, TellsStop, mode_of};
ghost use Rattle.selector_read.specs.Reading.{finished_in, outcome_from, selector_of, start};
ghost use Rattle.selector_read.specs.Selectors.{longest_text};
ghost use Rattle.selector_read.specs.Trees.{tree_of};

use crate::Selector;
use crate::begun::Forms;
use crate::levels::OR;
use crate::limits::LONGEST_TEXT;
use crate::modes::{Mode, StepFault};
use crate::steps::step;
use crate::trees::Expr;
use byte_lists::NoMemory;
use selector_tokens::{Kind, Lexer, SelectorFault};
use std::alloc::Global;

/// The fault of a token at a place. `older` is the place of the token two before.
fn placed(fault: StepFault, at: u64, older: u64) -> SelectorFault
    ensures { TellsStop fault at older result }
{
    match fault {
        StepFault::Unexpected => SelectorFault::Bad {
            at,
            kind: Kind::Unexpected,
        },
        StepFault::TooDeep => SelectorFault::Bad {
            at,
            kind: Kind::TooDeep,
        },
        StepFault::OpenPattern => SelectorFault::Bad {
            at: older,
            kind: Kind::Unexpected,
        },
        StepFault::NoMemory => SelectorFault::NoMemory,
    }
}

/// The expression that stands before the end of the text, where no form waits for more.
fn finish(alloc: Global, forms: &mut Forms, mode: Mode) -> Result<Option<Expr>, NoMemory>
    ensures { IfOk result (λ o. finished_in forms.old (mode_of mode) ≡ option_map tree_of o) }
{
    let expr = match mode {
        Mode::Named(name) => Expr::Name(name),
        Mode::Valued(expr, _) => expr,
        Mode::PatternRead {
            negated,
            name,
            pattern,
        } => Expr::Like {
            negated,
            name,
            pattern,
            escape: None,
        },
        _ => return Ok(None),
    };
    let expr = forms.settle(alloc, OR, expr)?;
    if forms.is_empty() {
        Ok(Some(expr))
    } else {
        Ok(None)
    }
}

/// The expression that a text is, which is not too long.
fn read_tokens(alloc: Global, text: &str) -> Result<Expr, SelectorFault>
    ensures { ReadsAs result (outcome_from start 0 0 (lexed text.now).tokens (lexed text.now).stop) }
{
    let mut lexer = Lexer::of(text);
    let mut forms = Forms::none(alloc);
    let mut mode = Mode::Operand;
    let mut older = 0;
    let mut last = 0;
    while let Some(token) = lexer.next(alloc)? {
        mode = match step(alloc, &mut forms, mode, token.token) {
            Ok(mode) => mode,
            Err(fault) => return Err(placed(fault, token.at, older)),
        };
        older = last;
        last = token.at;
    }
    match finish(alloc, &mut forms, mode) {
        Ok(Some(expr)) => Ok(expr),
        Ok(None) => Err(SelectorFault::Bad {
            at: text.len() as u64,
            kind: Kind::Unexpected,
        }),
        Err(NoMemory) => Err(SelectorFault::NoMemory),
    }
}

/// The expression that a text is, or its first fault from the left.
fn read_expr(alloc: Global, text: &str) -> Result<Expr, SelectorFault>
    ensures { ReadsAs result (selector_of text.now) }
{
    if text.len() > LONGEST_TEXT {
        return Err(SelectorFault::Bad {
            at: LONGEST_TEXT as u64,
            kind: Kind::TooLong,
        });
    }
    read_tokens(alloc, text)
}

/// The selector that a text is. Refuses exactly where it is none, with what is first at fault from the left and its
/// place, in bytes from 0; a text has at most 4,096 bytes, and at most 64 of its parentheses, NOTs and signs are
/// unfinished at any place (JMS 1.1, section 3.8.1; docs/SELECTORS.md). NoMemory may come in place of either.
pub fn read(alloc: Global, text: &str) -> Result<Selector, SelectorFault>
    ensures said { Reads result (selector_of text.now) }
    ensures means { Means text.now result }
{
    let expr = read_expr(alloc, text)?;
    Ok(Selector::of(expr))
}
