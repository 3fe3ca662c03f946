//! Laws on one call after another. No program needs to call them: each has its law as its contract.
ghost use Rattle.outside_io.specs.Told.{TakesThen, AddsThen};
ghost use Rattle.outside_io.specs.Says.{SaysCut, SaysThen};

/// What two calls in a row took, they took together.
pub fn takes_then()
    ensures { TakesThen }
{}

/// What two calls in a row added, they added together.
pub fn adds_then()
    ensures { AddsThen }
{}

/// Where writing a text failed, writing that text and more has failed.
pub fn says_cut()
    ensures { SaysCut }
{}

/// Where a text was written, and then another or a front of it, that is how both together were.
pub fn says_then()
    ensures { SaysThen }
{}
