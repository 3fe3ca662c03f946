//! Laws on what is generated. No program needs to call them: each has its laws as its contract.
ghost use Rattle.gen_core.specs.Laws.{PutsAll, PutsBytes, TakesAll, TakesShares};

/// How many messages the phases put, and how many bytes of bodies.
pub fn puts()
    ensures all { PutsAll }
    ensures bytes { PutsBytes }
{}

/// How many takes and acknowledgements the phases have.
pub fn takes()
    ensures shares { TakesShares }
    ensures all { TakesAll }
{}
