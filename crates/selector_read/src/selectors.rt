//! Selectors.
ghost use Rattle.std.specs.Prelude.{◌≡◌};
ghost use Rattle.selector_read.specs.Selectors.{IsWritable};
ghost use Rattle.selector_read.specs.Trees.{tree_of};

use crate::trees::Expr;
use std::marker::Model;

/// A selector (JMS 1.1, section 3.8.1). Contracts see its tree, and that some text within the limit of nesting
/// stands for it.
#[derive(Debug, Drop)]
pub struct Selector {
    expr: Expr,
}

impl Model for Selector {
    ghost use Rattle.selector_read.specs.Selectors.{IsWritable};
    ghost use Rattle.selector_read.specs.Codes.{tree_code};
    ghost use Rattle.selector_read.specs.Trees.{Tree, tree_of};

    ghost Value = { Tree };

    ghost coded = { tree_code };

    ghost view = { λ s. tree_of s.expr };

    ghost invariant = { λ s. IsWritable (tree_of s.expr) };
}

impl Selector {
    /// Of an expression that some text stands for.
    pub(crate) fn of(expr: Expr) -> Selector
        requires { IsWritable (tree_of expr) }
        ensures { result ≡ tree_of expr }
    {
        Selector { expr }
    }

    /// The expression, whose value `selector_eval` tells.
    pub fn expr(&self) -> &Expr
        ensures { tree_of result.now ≡ self.now }
    {
        &self.expr
    }

    /// The expression, where it matters that some text stands for it.
    pub(crate) fn written(&self) -> &Expr
        ensures tree { tree_of result.now ≡ self.now }
        ensures writable { IsWritable self.now }
    {
        &self.expr
    }
}
