//! Finalizing an address: from what an access names to a form that its instruction has.

#![tactic(auto)]

pub mod finalize;
pub mod window;
