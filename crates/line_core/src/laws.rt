//! Laws on lines and their calls. No program needs to call them: each has its laws as its contract.
ghost use Rattle.line_core.specs.Laws.{CallsAppend, FitsAppend, GotIsHeld, RanAppend, RanCall, RanNone};

/// Lines, one after the other.
pub fn lines()
    ensures calls_append { CallsAppend }
    ensures fits_append { FitsAppend }
    ensures got_is_held { GotIsHeld }
{}

/// Calls by a pass, one after the other.
pub fn passes()
    ensures none { RanNone }
    ensures call { RanCall }
    ensures append { RanAppend }
{}
