//! The instruction forms: their rows of hexadecimal digits, the kinds of their operands, and encoding and decoding by them.

#![tactic(auto)]

ghost use Rattle.form.specs.Specimens.{InstructionSpecimens};

pub mod instr;
pub mod table;

/// The instruction forms, in the order of the encoders.
#[derive(Clone, Copy, PartialEq, Eq, Debug)]
pub enum Form {
    E,
    RiA,
    RiB,
    RiC,
    RieA,
    RieD,
    RieF,
    RieG,
    RilA,
    RilB,
    RilC,
    Rr,
    Rrd,
    Rre,
    RrfAb,
    RrfCde,
    Rs,
    Rsy,
    Rx,
    Rxy,
    Si,
    Sil,
    Siy,
    VriA,
    VriB,
    VriC,
    VriK,
    VrrA,
    VrrB,
    VrrC,
    VrrD,
    VrrE,
    VrrF,
    VrsA,
    VrsB,
    VrsC,
    Vrx,
}

/// The kinds of operands.
#[derive(Clone, Copy, PartialEq, Eq, Debug)]
pub enum OperandKind {
    /// an integer register, 0 to 15
    G,
    /// a register of either class, 0 to 15
    N,
    /// a vector register, 0 to 31
    V,
    /// a float register, 0 to 15
    F,
    /// a mask, 0 to 15
    M,
    U8,
    U16,
    U32,
    S16,
    /// an unsigned displacement of 12 bits
    D12,
    /// a signed displacement of 20 bits
    D20,
    /// an even distance, written halved in 16 bits
    H16,
    /// an even distance, written halved in 32 bits
    H32,
}

/// Worked examples of single instructions hold of the definitions.
pub fn specimens()
    ensures { InstructionSpecimens }
{}
