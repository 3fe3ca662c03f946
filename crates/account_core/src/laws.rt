//! Laws on accounts. No program needs to call them: each has its laws as its contract.
ghost use Rattle.account_core.specs.Laws.{AccountTold, CarryFrees, CarryKeeps, ClosedPlayed, DequeuedOnce, GotCounts, LogTold, OneState, PhasesAppend, TextAppend};
ghost use Rattle.account_core.specs.Dropping.{DropsGone, DropsTold};
ghost use Rattle.account_core.specs.Last.{LastTouch};
ghost use Rattle.account_core.specs.Runs.{NoneRan};
ghost use Rattle.account_core.specs.Served.{StoryServes};
ghost use Rattle.account_core.specs.Settling.{FewEntered, HandsOnCount, OpensCount, RowsCount, Settles, StatesNamed};
ghost use Rattle.account_core.specs.TwoPhases.{TwoPhasesRuns, TwoPhasesText};

/// What no history has: an entry with two holders, or one that is dequeued twice; and how a row came into its state.
pub fn histories()
    ensures one_state { OneState }
    ensures dequeued_once { DequeuedOnce }
    ensures last_touch { LastTouch }
{}

/// What the number of a delivery counts, over releases and carries.
pub fn deliveries()
    ensures got_counts { GotCounts }
    ensures carry_keeps { CarryKeeps }
    ensures carry_frees { CarryFrees }
{}

/// The text of a phase is that of its account.
pub fn texts()
    ensures log { LogTold }
    ensures account { AccountTold }
{}

/// What an actor's lines hand to the targets of consumers.
pub fn targets()
    ensures { StoryServes }
{}

/// What the passes of a queue tell of its phase, when they were joined and it was closed.
pub fn queues()
    ensures { ClosedPlayed }
{}

/// How many rows of some ids a queue opens with, has when all passes were joined, and hands on.
pub fn counts()
    ensures opens { OpensCount }
    ensures rows { RowsCount }
    ensures entered { FewEntered }
    ensures hands_on { HandsOnCount }
{}

/// What holds of each row of a queue when all passes were joined.
pub fn rests()
    ensures { Settles }
{}

/// What the answers of an actor's lines tell of the entries that its puts dropped.
pub fn drops()
    ensures told { DropsTold }
    ensures gone { DropsGone }
{}

/// What is told of a phase can be printed.
pub fn names()
    ensures { StatesNamed }
{}

/// Phases, one after the other.
pub fn runs()
    ensures phases { PhasesAppend }
    ensures text { TextAppend }
    ensures none { NoneRan }
{}

/// An account of two phases with a rest between them: its text, and that it is one.
pub fn put_take_rest_take()
    ensures text { TwoPhasesText }
    ensures runs { TwoPhasesRuns }
{}
