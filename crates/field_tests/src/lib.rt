//! Families of fields of other makers, which show that the interface fits more than ours, and tests of fields, books and settling.

#![tactic(auto)]

mod added;
mod quarters;
#[cfg(test)]
mod tests;
