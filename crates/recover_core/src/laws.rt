//! Laws on what is recovered. No program needs to call them: each has its law as its contract.
ghost use Rattle.recover_core.specs.Recovered.{EntriesLive};

/// Without their places, the entries that are recovered are those that the transactions of the journal leave.
pub fn recovered()
    ensures { EntriesLive }
{}
