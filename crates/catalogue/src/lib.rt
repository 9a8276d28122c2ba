//! The catalogue of admitted opcodes: which forms and opcodes may be written, writing an instruction, reading one.

#![tactic(auto)]

pub mod catalogue;
pub mod entry;
