//! The books of what is to be filled: labels with their places, and the fields that are to hold a distance.

#![tactic(auto)]

pub mod label_book;
pub mod target;
pub mod use_book;
