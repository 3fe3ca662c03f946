//! One lock round a queue for one thread, which many callers share then: the held queues. Each call takes the
//! lock once, may wait for it, and does what it does in the step that gives the lock back.
#![tactic(auto)]

mod calls;
mod making;
mod parts;
mod pass;
mod table;
mod turns;
mod view;
mod works;

pub use pass::HeldPass;
pub use table::Held;
pub use view::{Outset, Tales};

#[cfg(test)]
mod tests;
