//! Fields that hold a distance, and the interface of a family of them: one that reads, and one that adds writing.

#![tactic(auto)]

pub mod aligned;
mod bytes;
pub mod distance;
pub mod family;
pub mod fit;
pub mod info;
pub mod verdict;
