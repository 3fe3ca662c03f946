//! What the answers of an actor's lines mean: which calls on queues a line made, and what the actor then has in its
//! hands and what its targets were handed.
#![tactic(auto)]

pub mod laws;
