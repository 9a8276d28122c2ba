//! Addresses: what an access to memory names, the stack frame that some of them are counted in, and the registers of the calling convention.

#![tactic(auto)]

pub mod access;
pub mod args;
pub mod convention;
pub mod frame;
