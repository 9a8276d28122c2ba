//! What instructions are given: registers and immediates.

#![tactic(auto)]

pub mod imms;
pub mod reg;
#[cfg(test)]
mod tests;
