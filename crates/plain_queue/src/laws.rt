//! Laws of a queue of one list. Each is the contract of a function with no body.
ghost use Rattle.plain_queue.specs.Calls.{FirstInOrder};

/// What a take acquires is first in queue order among all rows that are available.
pub fn first_in_order()
    ensures { FirstInOrder }
{}
