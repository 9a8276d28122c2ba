//! Tests of sections with the label and the relocation family.

#![tactic(auto)]

#[cfg(test)]
mod tests;
