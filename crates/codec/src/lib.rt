//! One instruction by its form: operands and opcode to bytes, through the encoders, and back, by the row of digits.

#![tactic(auto)]

pub mod decode;
pub mod encode;
pub mod operands;
pub mod row;
