//! Laws of cursors. Each is the contract of a function with no body.
ghost use Rattle.cursor_core.specs.Laws.{CallOutlasts, CallUntaken, SplitOutlasts, JoinOutlasts};

/// What leaves a cursor true of its consumer's pass.
pub fn cursors_outlast()
    ensures calls { CallOutlasts }
    ensures untaken { CallUntaken }
    ensures splits { SplitOutlasts }
    ensures joins { JoinOutlasts }
{}
