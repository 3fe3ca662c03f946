//! The levels of forms, from the loosest to the tightest (docs/SELECTORS.md, "Grammar").
ghost use Rattle.std.specs.Prelude.{◌≡◌};
ghost use Rattle.selector_read.specs.Grammar.{math_level};

use crate::trees::MathOp;

pub(crate) const OR: u8 = 1;

pub(crate) const AND: u8 = 2;

pub(crate) const NOT: u8 = 3;

pub(crate) const COMPARISON: u8 = 4;

pub(crate) const SUM: u8 = 5;

pub(crate) const PRODUCT: u8 = 6;

pub(crate) const UNARY: u8 = 7;

pub(crate) const PRIMARY: u8 = 8;

/// The level of a sum or a product.
pub(crate) fn math_level(op: MathOp) -> u8
    ensures { result ≡ math_level op }
{
    match op {
        MathOp::Add | MathOp::Sub => SUM,
        MathOp::Mul | MathOp::Div => PRODUCT,
    }
}
