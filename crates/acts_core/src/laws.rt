//! Laws of calls, on which the callers of queues rest. Each is the contract of a function with no body.
ghost use Rattle.acts_core.specs.Laws.{Forgets, CallSpares, CallGains, CallDequeues, CallLeaves, CallPasses, CallRows, CallFinds, CallReserved, CallReserves, ReservedSmall, PassStays, PlanStays, PassGains, PassHands, PassLeaves, PassDequeues, PassKeeps, PassRows, PassFinds, PassReserved, PassReserves, ChainLater, ChainAppend, ChainOne, ChainOwn, ChainGrows, OneHistory};

/// What a call leaves and gives its caller, over histories.
pub fn calls()
    ensures forgets { Forgets }
    ensures spares { CallSpares }
    ensures gains { CallGains }
    ensures dequeues { CallDequeues }
    ensures leaves { CallLeaves }
    ensures passes { CallPasses }
    ensures rows { CallRows }
    ensures finds { CallFinds }
{}

/// What a caller has reserved.
pub fn reservations()
    ensures reserved { CallReserved }
    ensures reserves { CallReserves }
    ensures small { ReservedSmall }
{}

/// What a call on a pass leaves and gives its caller.
pub fn passes()
    ensures stays { PassStays }
    ensures plan { PlanStays }
    ensures gains { PassGains }
    ensures hands { PassHands }
    ensures leaves { PassLeaves }
    ensures dequeues { PassDequeues }
    ensures keeps { PassKeeps }
    ensures rows { PassRows }
    ensures finds { PassFinds }
    ensures reserved { PassReserved }
    ensures reserves { PassReserves }
{}

/// Calls of one caller, one after the other.
pub fn chains()
    ensures later { ChainLater }
    ensures append { ChainAppend }
    ensures one { ChainOne }
    ensures own { ChainOwn }
    ensures grows { ChainGrows }
    ensures whole { OneHistory }
{}
