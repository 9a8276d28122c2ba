//! A code section: instructions are put into a lent buffer, labels are reserved and bound, and the fields that are to be filled are recorded.

#![tactic(auto)]

pub mod section;
