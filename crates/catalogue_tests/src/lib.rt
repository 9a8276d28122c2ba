//! Tests of the catalogue: every refusal and its order, limits, writing and reading.

#![tactic(auto)]

#[cfg(test)]
mod tests;
