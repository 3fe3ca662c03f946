//! Laws of selectors. Each is the contract of a function with no body.
ghost use Rattle.selector_eval.specs.Laws.{LikeTest};

/// The test by which LIKE is evaluated says exactly what patterns stand for.
pub fn like()
    ensures { LikeTest }
{}
