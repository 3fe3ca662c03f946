//! The forms that are begun and wait for their last parts.
ghost use Rattle.std.specs.Prelude.{◌≡◌, ◌<◌, ◌≤◌, ◌+◌, ◌↔◌, ◌∷◌, [], false, nat_le, nat_lt, true, IfOk, IsTrue, MatchBool, MatchOption, MatchResult, OnOk, OnErr, box_value};
ghost use Rattle.selector_read.specs.Forms.{begun_of, held, may_take, waits_close, waits_low};
ghost use Rattle.selector_read.specs.Grammar.{most_nested};
ghost use Rattle.selector_read.specs.Reading.{awaited, awaits, level, low_of, nesting, nests, paren, settle, whole};
ghost use Rattle.selector_read.specs.Trees.{tree_of};

use crate::levels::{AND, COMPARISON, NOT, OR, SUM, UNARY, math_level};
use crate::trees::{Expr, MathOp};
use byte_lists::NoMemory;
use selector_tokens::CompareOp;
use std::alloc::Global;
use std::collections::VecDeque;
use std::marker::Model;

/// How many parentheses, NOTs and signs may be unfinished at a place.
pub(crate) const MOST_NESTED: usize = 64;

/// A form that is begun and waits for its last part. A flag says that NOT stands in the form.
#[derive(Debug, Drop)]
pub(crate) enum Begun {
    Or(Box<Expr>),
    And(Box<Expr>),
    Not,
    Compare(CompareOp, Box<Expr>),
    /// BETWEEN, which waits for its lower end.
    Low(bool, Box<Expr>),
    /// BETWEEN, which waits for its upper end.
    High(bool, Box<Expr>, Box<Expr>),
    Math(MathOp, Box<Expr>),
    Minus,
    Plus,
    /// An open parenthesis.
    Paren,
}

/// The expression in a box.
pub(crate) fn boxed(alloc: Global, expr: Expr) -> Result<Box<Expr>, NoMemory>
    ensures { IfOk result (λ b. box_value b ≡ expr) }
{
    match Box::new(alloc, expr) {
        Ok(boxed) => Ok(boxed),
        Err(_) => Err(NoMemory),
    }
}

impl Begun {
    /// The level of the form, once it is whole; 0 where the part that it waits for doesn't end it.
    pub(crate) fn level(&self) -> u8
        ensures { result ≡ level (begun_of self.now) }
    {
        match self {
            Begun::Or(_) => OR,
            Begun::And(_) => AND,
            Begun::Not => NOT,
            Begun::Compare(_, _) | Begun::High(_, _, _) => COMPARISON,
            Begun::Math(op, _) => math_level(*op),
            Begun::Minus | Begun::Plus => UNARY,
            Begun::Low(_, _) | Begun::Paren => 0,
        }
    }

    /// The level of the part that it waits for.
    pub(crate) fn awaits(&self) -> u8
        ensures { result ≡ awaits (begun_of self.now) }
    {
        match self {
            Begun::Or(_) => AND,
            Begun::And(_) | Begun::Not => NOT,
            Begun::Compare(_, _) | Begun::Low(_, _) | Begun::High(_, _, _) => SUM,
            Begun::Math(op, _) => math_level(*op) + 1,
            Begun::Minus | Begun::Plus => UNARY,
            Begun::Paren => OR,
        }
    }

    /// 1 for a form that counts for the nesting: NOT, a sign, a parenthesis.
    pub(crate) fn nests(&self) -> usize
        ensures { result ≡ nests (begun_of self.now) }
    {
        match self {
            Begun::Not | Begun::Minus | Begun::Plus | Begun::Paren => 1,
            _ => 0,
        }
    }

    /// The form with its last part, which ends it.
    pub(crate) fn whole(self, alloc: Global, last: Expr) -> Result<Expr, NoMemory>
        requires { 1 ≤ level (begun_of self) }
        ensures { IfOk result (λ e. tree_of e ≡ whole (begun_of self) (tree_of last)) }
    {
        let last = boxed(alloc, last)?;
        Ok(match self {
            Begun::Or(left) => Expr::Or(left, last),
            Begun::And(left) => Expr::And(left, last),
            Begun::Not => Expr::Not(last),
            Begun::Compare(op, left) => Expr::Compare {
                op,
                left,
                right: last,
            },
            Begun::High(negated, value, low) => Expr::Between {
                negated,
                value,
                low,
                high: last,
            },
            Begun::Math(op, left) => Expr::Math {
                op,
                left,
                right: last,
            },
            Begun::Minus => Expr::Minus(last),
            Begun::Plus => Expr::Plus(last),
            Begun::Low(_, _) | Begun::Paren => unreachable!(),
        })
    }
}

/// The forms that are begun. Contracts see the list of them, innermost first.
#[derive(Debug, Drop)]
pub(crate) struct Forms {
    begun: VecDeque<Begun>,
    /// How many of them count for the nesting.
    nested: usize,
}

impl Model for Forms {
    ghost use Rattle.std.specs.Prelude.{◌≡◌, ◌≤◌, List, map};
    ghost use Rattle.selector_read.specs.Forms.{begun_of, forms_code};
    ghost use Rattle.selector_read.specs.Grammar.{most_nested};
    ghost use Rattle.selector_read.specs.Reading.{Begun as Form, nesting};

    ghost Value = { List Form };

    ghost coded = { forms_code };

    ghost view = { λ f. map begun_of f.begun.items };

    ghost invariant = { λ f. (f.nested ≡ nesting (map begun_of f.begun.items)) × (f.nested ≤ most_nested) };
}

impl Forms {
    /// No form. Takes no memory.
    pub(crate) fn none(alloc: Global) -> Forms
        ensures { result ≡ [] }
    {
        Forms {
            begun: VecDeque::new(alloc),
            nested: 0,
        }
    }

    /// Whether no form is begun.
    pub(crate) fn is_empty(&self) -> bool
        ensures { IsTrue result ↔ (self.now ≡ []) }
    {
        self.begun.is_empty()
    }

    /// The level of the part that must come.
    pub(crate) fn awaited(&self) -> u8
        ensures { result ≡ awaited self.now }
    {
        match self.begun.front() {
            Some(form) => form.awaits(),
            None => OR,
        }
    }

    /// How many forms count for the nesting.
    pub(crate) fn nesting(&self) -> usize
        ensures value { result ≡ nesting self.now }
        ensures bound { result ≤ most_nested }
    {
        self.nested
    }

    /// Begins a form. Refuses only for want of memory.
    pub(crate) fn begin(&mut self, form: Begun) -> Result<(), NoMemory>
        requires { 0 < nests (begun_of form) → nests (begun_of form) + nesting self.old ≤ most_nested }
        ensures { OnOk result (self.new ≡ begun_of form ∷ self.old) }
    {
        let nested = form.nests() + self.nested;
        if self.begun.push_front(form).is_err() {
            return Err(NoMemory);
        }
        self.nested = nested;
        Ok(())
    }

    /// Takes the innermost form out, if there is one.
    fn pop(&mut self) -> Option<Begun>
        ensures { MatchOption result ((self.old ≡ []) × (self.new ≡ [])) (λ form. self.old ≡ begun_of form ∷ self.new) }
    {
        let form = self.begun.pop_front()?;
        self.nested -= form.nests();
        Some(form)
    }

    /// Whether the innermost form has at least this level.
    fn may_take(&self, least: u8) -> bool
        ensures { result ≡ may_take least self.now }
    {
        match self.begun.front() {
            Some(form) => least <= form.level(),
            None => false,
        }
    }

    /// Takes the innermost form out, if it has at least this level.
    #[tactic(auto, using(crate::proofs::Stack::taken_from))]
    pub(crate) fn take_from(&mut self, least: u8) -> Option<Begun>
        ensures { MatchOption result ((self.new ≡ self.old) × (may_take least self.old ≡ false)) (λ form. (self.old ≡ begun_of form ∷ self.new) × (least ≤ level (begun_of form))) }
    {
        if self.may_take(least) {
            self.pop()
        } else {
            None
        }
    }

    /// Whether the innermost form is a BETWEEN that waits for its lower end.
    pub(crate) fn waits_low(&self) -> bool
        ensures { result ≡ waits_low self.now }
    {
        match self.begun.front() {
            Some(Begun::Low(_, _)) => true,
            _ => false,
        }
    }

    /// Takes the innermost form out, if it is a BETWEEN that waits for its lower end.
    pub(crate) fn take_low(&mut self) -> Option<(bool, Box<Expr>)>
        ensures { MatchOption result ((self.new ≡ self.old) × (waits_low self.old ≡ false)) (λ low. self.old ≡ low_of low.0 (tree_of (box_value low.1)) ∷ self.new) }
    {
        if !self.waits_low() {
            return None;
        }
        match self.pop() {
            Some(Begun::Low(negated, value)) => Some((negated, value)),
            _ => unreachable!(),
        }
    }

    /// Whether the innermost form is an open parenthesis.
    fn waits_close(&self) -> bool
        ensures { result ≡ waits_close self.now }
    {
        match self.begun.front() {
            Some(Begun::Paren) => true,
            _ => false,
        }
    }

    /// Takes the innermost form out, if it is an open parenthesis.
    pub(crate) fn take_paren(&mut self) -> bool
        ensures { MatchBool result (self.old ≡ paren ∷ self.new) ((self.new ≡ self.old) × (waits_close self.old ≡ false)) }
    {
        if !self.waits_close() {
            return false;
        }
        self.pop().is_some()
    }

    /// Makes each form whole that the expression ends, if it is of this level or above. They are no longer begun.
    pub(crate) fn settle(&mut self, alloc: Global, least: u8, expr: Expr) -> Result<Expr, NoMemory>
        requires { 1 ≤ least }
        ensures { IfOk result (λ e. settle least self.old (tree_of expr) ≡ held self.new (tree_of e)) }
    {
        let mut expr = expr;
        while let Some(form) = self.take_from(least) {
            expr = form.whole(alloc, expr)?;
        }
        Ok(expr)
    }
}
