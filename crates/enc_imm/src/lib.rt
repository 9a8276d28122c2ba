//! The encoders of instructions with immediates and branch distances. Each answers the bytes of its row and 0, or, where a register is not of
//! its kind or does not exist, zero bytes and the number of the refusal OPERAND. Opcodes, masks, displacements and distances are cut to
//! their digits.

#![tactic(auto)]

// A number beside the bytes, and no `Result`: the encoders' interface is fixed.

ghost use Rattle.std.specs.Prelude.{◌≡◌, [], ◌∷◌, pos};
ghost use Rattle.form.specs.declared.Form.TheVariants.{E, RiA, RiB, RiC, RieA, RieD, RieF, RieG, RilA, RilB, RilC};
ghost use Rattle.form.specs.Encoders.{encoder, register, numeral};

use operand::reg::{Reg, is_gpr};
use refusal::Reason;

/// E-type instructions.
///
///   15
///   opcode
///        0
///
pub fn enc_e(opcode: u16) -> ([u8; 2], u8)
    ensures { result ≡ encoder E opcode [] }
{
    let mut enc: [u8; 2] = [0; 2];
    let opcode1 = ((opcode >> 8) & 0xff) as u8;
    let opcode2 = (opcode & 0xff) as u8;
    enc[0] = opcode1;
    enc[1] = opcode2;
    (enc, 0)
}

/// RIa-type instructions.
///
///   31      23 19      15
///   opcode1 r1 opcode2 i2
///        24 20      16  0
///
pub fn enc_ri_a(opcode: u16, r1: Reg, i2: u16) -> ([u8; 4], u8)
    ensures { result ≡ encoder RiA opcode (register r1 ∷ numeral (pos i2) ∷ []) }
{
    let mut enc: [u8; 4] = [0; 4];
    if !is_gpr(r1) {
        return (enc, Reason::Operand as u8);
    }
    let opcode1 = ((opcode >> 4) & 0xff) as u8;
    let opcode2 = (opcode & 0xf) as u8;
    let r1 = r1.number & 0x0f;
    enc[0] = opcode1;
    enc[1] = r1 << 4 | opcode2; // RI-a: ap
    enc[2..].copy_from_slice(&i2.to_be_bytes());
    (enc, 0)
}

/// RIb-type instructions.
///
///   31      23 19      15
///   opcode1 r1 opcode2 ri2
///        24 20      16   0
///
pub fn enc_ri_b(opcode: u16, r1: Reg, ri2: i32) -> ([u8; 4], u8)
    ensures { result ≡ encoder RiB opcode (register r1 ∷ numeral ri2 ∷ []) }
{
    let mut enc: [u8; 4] = [0; 4];
    if !is_gpr(r1) {
        return (enc, Reason::Operand as u8);
    }
    let opcode1 = ((opcode >> 4) & 0xff) as u8;
    let opcode2 = (opcode & 0xf) as u8;
    let r1 = r1.number & 0x0f;
    let ri2 = ((ri2 >> 1) & 0xffff) as u16;
    enc[0] = opcode1;
    enc[1] = r1 << 4 | opcode2; // RI-b: ap
    enc[2..].copy_from_slice(&ri2.to_be_bytes());
    (enc, 0)
}

/// RIc-type instructions.
///
///   31      23 19      15
///   opcode1 m1 opcode2 ri2
///        24 20      16   0
///
pub fn enc_ri_c(opcode: u16, m1: u8, ri2: i32) -> ([u8; 4], u8)
    ensures { result ≡ encoder RiC opcode (numeral (pos m1) ∷ numeral ri2 ∷ []) }
{
    let mut enc: [u8; 4] = [0; 4];
    let opcode1 = ((opcode >> 4) & 0xff) as u8;
    let opcode2 = (opcode & 0xf) as u8;
    let m1 = m1 & 0x0f;
    let ri2 = ((ri2 >> 1) & 0xffff) as u16;
    enc[0] = opcode1;
    enc[1] = m1 << 4 | opcode2; // RI-c: ap
    enc[2..].copy_from_slice(&ri2.to_be_bytes());
    (enc, 0)
}

/// RIEa-type instructions.
///
///   47      39 35 31 15 11 7
///   opcode1 r1 -- i2 m3 -- opcode2
///        40 36 32 16 12 8       0
///
pub fn enc_rie_a(opcode: u16, r1: Reg, i2: u16, m3: u8) -> ([u8; 6], u8)
    ensures { result ≡ encoder RieA opcode (register r1 ∷ numeral (pos i2) ∷ numeral (pos m3) ∷ []) }
{
    let mut enc: [u8; 6] = [0; 6];
    if !is_gpr(r1) {
        return (enc, Reason::Operand as u8);
    }
    let opcode1 = ((opcode >> 8) & 0xff) as u8;
    let opcode2 = (opcode & 0xff) as u8;
    let r1 = r1.number & 0x0f;
    let m3 = m3 & 0x0f;
    enc[0] = opcode1;
    enc[1] = r1 << 4;
    enc[2..4].copy_from_slice(&i2.to_be_bytes());
    enc[4] = m3 << 4;
    enc[5] = opcode2;
    (enc, 0)
}

/// RIEd-type instructions.
///
///   47      39 35 31 15 7
///   opcode1 r1 r3 i2 -- opcode2
///        40 36 32 16  8       0
///
pub fn enc_rie_d(opcode: u16, r1: Reg, r3: Reg, i2: u16) -> ([u8; 6], u8)
    ensures { result ≡ encoder RieD opcode (register r1 ∷ register r3 ∷ numeral (pos i2) ∷ []) }
{
    let mut enc: [u8; 6] = [0; 6];
    if !(is_gpr(r1) && is_gpr(r3)) {
        return (enc, Reason::Operand as u8);
    }
    let opcode1 = ((opcode >> 8) & 0xff) as u8;
    let opcode2 = (opcode & 0xff) as u8;
    let r1 = r1.number & 0x0f;
    let r3 = r3.number & 0x0f;
    enc[0] = opcode1;
    enc[1] = r1 << 4 | r3;
    enc[2..4].copy_from_slice(&i2.to_be_bytes());
    enc[5] = opcode2;
    (enc, 0)
}

/// RIEf-type instructions.
///
///   47      39 35 31 23 15 7
///   opcode1 r1 r2 i3 i4 i5 opcode2
///        40 36 32 24 16  8       0
///
pub fn enc_rie_f(opcode: u16, r1: Reg, r2: Reg, i3: u8, i4: u8, i5: u8) -> ([u8; 6], u8)
    ensures { result ≡ encoder RieF opcode (register r1 ∷ register r2 ∷ numeral (pos i3) ∷ numeral (pos i4) ∷ numeral (pos i5) ∷ []) }
{
    let mut enc: [u8; 6] = [0; 6];
    if !(is_gpr(r1) && is_gpr(r2)) {
        return (enc, Reason::Operand as u8);
    }
    let opcode1 = ((opcode >> 8) & 0xff) as u8;
    let opcode2 = (opcode & 0xff) as u8;
    let r1 = r1.number & 0x0f;
    let r2 = r2.number & 0x0f;
    enc[0] = opcode1;
    enc[1] = r1 << 4 | r2;
    enc[2] = i3;
    enc[3] = i4;
    enc[4] = i5;
    enc[5] = opcode2;
    (enc, 0)
}

/// RIEg-type instructions.
///
///   47      39 35 31 15 7
///   opcode1 r1 m3 i2 -- opcode2
///        40 36 32 16  8       0
///
pub fn enc_rie_g(opcode: u16, r1: Reg, i2: u16, m3: u8) -> ([u8; 6], u8)
    ensures { result ≡ encoder RieG opcode (register r1 ∷ numeral (pos i2) ∷ numeral (pos m3) ∷ []) }
{
    let mut enc: [u8; 6] = [0; 6];
    if !is_gpr(r1) {
        return (enc, Reason::Operand as u8);
    }
    let opcode1 = ((opcode >> 8) & 0xff) as u8;
    let opcode2 = (opcode & 0xff) as u8;
    let r1 = r1.number & 0x0f;
    let m3 = m3 & 0x0f;
    enc[0] = opcode1;
    enc[1] = r1 << 4 | m3;
    enc[2..4].copy_from_slice(&i2.to_be_bytes());
    enc[5] = opcode2;
    (enc, 0)
}

/// RILa-type instructions.
///
///   47      39 35      31
///   opcode1 r1 opcode2 i2
///        40 36      32  0
///
pub fn enc_ril_a(opcode: u16, r1: Reg, i2: u32) -> ([u8; 6], u8)
    ensures { result ≡ encoder RilA opcode (register r1 ∷ numeral (pos i2) ∷ []) }
{
    let mut enc: [u8; 6] = [0; 6];
    if !is_gpr(r1) {
        return (enc, Reason::Operand as u8);
    }
    let opcode1 = ((opcode >> 4) & 0xff) as u8;
    let opcode2 = (opcode & 0xf) as u8;
    let r1 = r1.number & 0x0f;
    enc[0] = opcode1;
    enc[1] = r1 << 4 | opcode2; // RIL-a: ap
    enc[2..].copy_from_slice(&i2.to_be_bytes());
    (enc, 0)
}

/// RILb-type instructions.
///
///   47      39 35      31
///   opcode1 r1 opcode2 ri2
///        40 36      32   0
///
pub fn enc_ril_b(opcode: u16, r1: Reg, ri2: u32) -> ([u8; 6], u8)
    ensures { result ≡ encoder RilB opcode (register r1 ∷ numeral (pos ri2) ∷ []) }
{
    let mut enc: [u8; 6] = [0; 6];
    if !is_gpr(r1) {
        return (enc, Reason::Operand as u8);
    }
    let opcode1 = ((opcode >> 4) & 0xff) as u8;
    let opcode2 = (opcode & 0xf) as u8;
    let r1 = r1.number & 0x0f;
    let ri2 = ri2 >> 1; // RIL-b
    enc[0] = opcode1;
    enc[1] = r1 << 4 | opcode2;
    enc[2..].copy_from_slice(&ri2.to_be_bytes());
    (enc, 0)
}

/// RILc-type instructions.
///
///   47      39 35      31
///   opcode1 m1 opcode2 i2
///        40 36      32  0
///
pub fn enc_ril_c(opcode: u16, m1: u8, ri2: u32) -> ([u8; 6], u8)
    ensures { result ≡ encoder RilC opcode (numeral (pos m1) ∷ numeral (pos ri2) ∷ []) }
{
    let mut enc: [u8; 6] = [0; 6];
    let opcode1 = ((opcode >> 4) & 0xff) as u8;
    let opcode2 = (opcode & 0xf) as u8;
    let m1 = m1 & 0x0f;
    let ri2 = ri2 >> 1;
    enc[0] = opcode1;
    enc[1] = m1 << 4 | opcode2; // RIL-c: ap
    enc[2..].copy_from_slice(&ri2.to_be_bytes());
    (enc, 0)
}
