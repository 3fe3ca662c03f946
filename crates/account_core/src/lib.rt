//! Accounts of phases: what each actor did, the one history of each queue, what is carried, and the text of it.
#![tactic(auto)]

pub mod laws;
