//! Conditions: comparing integers, and branching on the condition code.

#![tactic(auto)]

pub mod cond;
pub mod condcodes;
#[cfg(test)]
mod tests;
