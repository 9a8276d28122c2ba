//! The encoders of instructions with vector registers. Each answers the bytes of its row and 0, or, where a register is not of
//! its kind or does not exist, zero bytes and the number of the refusal OPERAND. Opcodes, masks, displacements and distances are cut to
//! their digits.

#![tactic(auto)]

// A number beside the bytes, and no `Result`: the encoders' interface is fixed.

ghost use Rattle.std.specs.Prelude.{◌≡◌, [], ◌∷◌, pos};
ghost use Rattle.form.specs.declared.Form.TheVariants.{VriA, VriB, VriC, VriK, VrrA, VrrB, VrrC, VrrD, VrrE, VrrF, VrsA, VrsB, VrsC, Vrx};
ghost use Rattle.form.specs.Encoders.{encoder, register, numeral};

use operand::reg::{Reg, is_gpr, is_vr};
use refusal::Reason;
use rxb::rxb;

pub mod rxb;

/// VRIa-type instructions.
///
///   47      39 35 31 15 11  7
///   opcode1 v1 -  i2 m3 rxb opcode2
///        40 36 32 16 12   8       0
///
pub fn enc_vri_a(opcode: u16, v1: Reg, i2: u16, m3: u8) -> ([u8; 6], u8)
    ensures { result ≡ encoder VriA opcode (register v1 ∷ numeral (pos i2) ∷ numeral (pos m3) ∷ []) }
{
    let mut enc: [u8; 6] = [0; 6];
    if !is_vr(v1) {
        return (enc, Reason::Operand as u8);
    }
    let opcode1 = ((opcode >> 8) & 0xff) as u8;
    let opcode2 = (opcode & 0xff) as u8;
    let rxb = rxb(Some(v1), None, None, None);
    let v1 = v1.number & 0x0f;
    let m3 = m3 & 0x0f;
    enc[0] = opcode1;
    enc[1] = v1 << 4;
    enc[2..4].copy_from_slice(&i2.to_be_bytes());
    enc[4] = m3 << 4 | rxb; // VRI-a: cx
    enc[5] = opcode2;
    (enc, 0)
}

/// VRIb-type instructions.
///
///   47      39 35 31 23 15 11  7
///   opcode1 v1 -  i2 i3 m4 rxb opcode2
///        40 36 32 24 16 12   8       0
///
pub fn enc_vri_b(opcode: u16, v1: Reg, i2: u8, i3: u8, m4: u8) -> ([u8; 6], u8)
    ensures { result ≡ encoder VriB opcode (register v1 ∷ numeral (pos i2) ∷ numeral (pos i3) ∷ numeral (pos m4) ∷ []) }
{
    let mut enc: [u8; 6] = [0; 6];
    if !is_vr(v1) {
        return (enc, Reason::Operand as u8);
    }
    let opcode1 = ((opcode >> 8) & 0xff) as u8;
    let opcode2 = (opcode & 0xff) as u8;
    let rxb = rxb(Some(v1), None, None, None);
    let v1 = v1.number & 0x0f;
    let m4 = m4 & 0x0f;
    enc[0] = opcode1;
    enc[1] = v1 << 4;
    enc[2] = i2;
    enc[3] = i3;
    enc[4] = m4 << 4 | rxb;
    enc[5] = opcode2;
    (enc, 0)
}

/// VRIc-type instructions.
///
///   47      39 35 31 15 11  7
///   opcode1 v1 v3 i2 m4 rxb opcode2
///        40 36 32 16 12   8       0
///
pub fn enc_vri_c(opcode: u16, v1: Reg, i2: u16, v3: Reg, m4: u8) -> ([u8; 6], u8)
    ensures { result ≡ encoder VriC opcode (register v1 ∷ numeral (pos i2) ∷ register v3 ∷ numeral (pos m4) ∷ []) }
{
    let mut enc: [u8; 6] = [0; 6];
    if !(is_vr(v1) && is_vr(v3)) {
        return (enc, Reason::Operand as u8);
    }
    let opcode1 = ((opcode >> 8) & 0xff) as u8;
    let opcode2 = (opcode & 0xff) as u8;
    let rxb = rxb(Some(v1), Some(v3), None, None);
    let v1 = v1.number & 0x0f;
    let v3 = v3.number & 0x0f;
    let m4 = m4 & 0x0f;
    enc[0] = opcode1;
    enc[1] = v1 << 4 | v3; // VRI-c: ac
    enc[2..4].copy_from_slice(&i2.to_be_bytes());
    enc[4] = m4 << 4 | rxb;
    enc[5] = opcode2;
    (enc, 0)
}

/// VRIk-type instructions.
///
///   47      39 35 31 27 23 15 11  7
///   opcode1 v1 v2 v3 -  i5 v4 rxb opcode2
///        40 36 32 28 24 16 12   8       0
///
pub fn enc_vri_k(opcode: u16, i5: u8, v1: Reg, v2: Reg, v3: Reg, v4: Reg) -> ([u8; 6], u8)
    ensures { result ≡ encoder VriK opcode (numeral (pos i5) ∷ register v1 ∷ register v2 ∷ register v3 ∷ register v4 ∷ []) }
{
    let mut enc: [u8; 6] = [0; 6];
    if !(is_vr(v1) && is_vr(v2) && is_vr(v3) && is_vr(v4)) {
        return (enc, Reason::Operand as u8);
    }
    let opcode1 = ((opcode >> 8) & 0xff) as u8;
    let opcode2 = (opcode & 0xff) as u8;
    let rxb = rxb(Some(v1), Some(v2), Some(v3), Some(v4)); // VRI-k
    let v1 = v1.number & 0x0f;
    let v2 = v2.number & 0x0f;
    let v3 = v3.number & 0x0f;
    let v4 = v4.number & 0x0f;
    enc[0] = opcode1;
    enc[1] = v1 << 4 | v2;
    enc[2] = v3 << 4;
    enc[3] = i5;
    enc[4] = v4 << 4 | rxb;
    enc[5] = opcode2;
    (enc, 0)
}

/// VRRa-type instructions.
///
///   47      39 35 31 23 19 15 11  7
///   opcode1 v1 v2 -  m5 m3 m2 rxb opcode2
///        40 36 32 24 20 16 12   8       0
///
pub fn enc_vrr_a(opcode: u16, v1: Reg, v2: Reg, m3: u8, m4: u8, m5: u8) -> ([u8; 6], u8)
    ensures { result ≡ encoder VrrA opcode (register v1 ∷ register v2 ∷ numeral (pos m3) ∷ numeral (pos m4) ∷ numeral (pos m5) ∷ []) }
{
    let mut enc: [u8; 6] = [0; 6];
    if !(is_vr(v1) && is_vr(v2)) {
        return (enc, Reason::Operand as u8);
    }
    let opcode1 = ((opcode >> 8) & 0xff) as u8;
    let opcode2 = (opcode & 0xff) as u8;
    let rxb = rxb(Some(v1), Some(v2), None, None);
    let v1 = v1.number & 0x0f;
    let v2 = v2.number & 0x0f;
    let m3 = m3 & 0x0f;
    let m4 = m4 & 0x0f;
    let m5 = m5 & 0x0f;
    enc[0] = opcode1;
    enc[1] = v1 << 4 | v2;
    enc[2] = 0;
    enc[3] = m5 << 4 | m4;
    enc[4] = m3 << 4 | rxb;
    enc[5] = opcode2;
    (enc, 0)
}

/// VRRb-type instructions.
///
///   47      39 35 31 27 23 19 15 11  7
///   opcode1 v1 v2 v3 -  m5 -  m4 rxb opcode2
///        40 36 32 28 24 20 16 12   8       0
///
pub fn enc_vrr_b(opcode: u16, v1: Reg, v2: Reg, v3: Reg, m4: u8, m5: u8) -> ([u8; 6], u8)
    ensures { result ≡ encoder VrrB opcode (register v1 ∷ register v2 ∷ register v3 ∷ numeral (pos m4) ∷ numeral (pos m5) ∷ []) }
{
    let mut enc: [u8; 6] = [0; 6];
    if !(is_vr(v1) && is_vr(v2) && is_vr(v3)) {
        return (enc, Reason::Operand as u8);
    }
    let opcode1 = ((opcode >> 8) & 0xff) as u8;
    let opcode2 = (opcode & 0xff) as u8;
    let rxb = rxb(Some(v1), Some(v2), Some(v3), None); // VRR-b
    let v1 = v1.number & 0x0f;
    let v2 = v2.number & 0x0f;
    let v3 = v3.number & 0x0f;
    let m4 = m4 & 0x0f;
    let m5 = m5 & 0x0f;
    enc[0] = opcode1;
    enc[1] = v1 << 4 | v2;
    enc[2] = v3 << 4;
    enc[3] = m5 << 4;
    enc[4] = m4 << 4 | rxb;
    enc[5] = opcode2;
    (enc, 0)
}

/// VRRc-type instructions.
///
///   47      39 35 31 27 23 19 15 11  7
///   opcode1 v1 v2 v3 -  m6 m5 m4 rxb opcode2
///        40 36 32 28 24 20 16 12   8       0
///
pub fn enc_vrr_c(opcode: u16, v1: Reg, v2: Reg, v3: Reg, m4: u8, m5: u8, m6: u8) -> ([u8; 6], u8)
    ensures { result ≡ encoder VrrC opcode (register v1 ∷ register v2 ∷ register v3 ∷ numeral (pos m4) ∷ numeral (pos m5) ∷ numeral (pos m6) ∷ []) }
{
    let mut enc: [u8; 6] = [0; 6];
    if !(is_vr(v1) && is_vr(v2) && is_vr(v3)) {
        return (enc, Reason::Operand as u8);
    }
    let opcode1 = ((opcode >> 8) & 0xff) as u8;
    let opcode2 = (opcode & 0xff) as u8;
    let rxb = rxb(Some(v1), Some(v2), Some(v3), None);
    let v1 = v1.number & 0x0f;
    let v2 = v2.number & 0x0f;
    let v3 = v3.number & 0x0f;
    let m4 = m4 & 0x0f;
    let m5 = m5 & 0x0f;
    let m6 = m6 & 0x0f;
    enc[0] = opcode1;
    enc[1] = v1 << 4 | v2;
    enc[2] = v3 << 4;
    enc[3] = m6 << 4 | m5;
    enc[4] = m4 << 4 | rxb;
    enc[5] = opcode2;
    (enc, 0)
}

/// VRRd-type instructions.
///
///   47      39 35 31 27 23 19 15 11  7
///   opcode1 v1 v2 v3 m5 m6 -  v4 rxb opcode2
///        40 36 32 28 24 20 16 12   8       0
///
pub fn enc_vrr_d(opcode: u16, v1: Reg, v2: Reg, v3: Reg, v4: Reg, m5: u8, m6: u8) -> ([u8; 6], u8)
    ensures { result ≡ encoder VrrD opcode (register v1 ∷ register v2 ∷ register v3 ∷ register v4 ∷ numeral (pos m5) ∷ numeral (pos m6) ∷ []) }
{
    let mut enc: [u8; 6] = [0; 6];
    if !(is_vr(v1) && is_vr(v2) && is_vr(v3) && is_vr(v4)) {
        return (enc, Reason::Operand as u8);
    }
    let opcode1 = ((opcode >> 8) & 0xff) as u8;
    let opcode2 = (opcode & 0xff) as u8;
    let rxb = rxb(Some(v1), Some(v2), Some(v3), Some(v4));
    let v1 = v1.number & 0x0f;
    let v2 = v2.number & 0x0f;
    let v3 = v3.number & 0x0f;
    let v4 = v4.number & 0x0f;
    let m5 = m5 & 0x0f;
    let m6 = m6 & 0x0f;
    enc[0] = opcode1;
    enc[1] = v1 << 4 | v2;
    enc[2] = v3 << 4 | m5;
    enc[3] = m6 << 4;
    enc[4] = v4 << 4 | rxb;
    enc[5] = opcode2;
    (enc, 0)
}

/// VRRe-type instructions.
///
///   47      39 35 31 27 23 19 15 11  7
///   opcode1 v1 v2 v3 m6 -  m5 v4 rxb opcode2
///        40 36 32 28 24 20 16 12   8       0
///
pub fn enc_vrr_e(opcode: u16, v1: Reg, v2: Reg, v3: Reg, v4: Reg, m5: u8, m6: u8) -> ([u8; 6], u8)
    ensures { result ≡ encoder VrrE opcode (register v1 ∷ register v2 ∷ register v3 ∷ register v4 ∷ numeral (pos m5) ∷ numeral (pos m6) ∷ []) }
{
    let mut enc: [u8; 6] = [0; 6];
    if !(is_vr(v1) && is_vr(v2) && is_vr(v3) && is_vr(v4)) {
        return (enc, Reason::Operand as u8);
    }
    let opcode1 = ((opcode >> 8) & 0xff) as u8;
    let opcode2 = (opcode & 0xff) as u8;
    let rxb = rxb(Some(v1), Some(v2), Some(v3), Some(v4)); // VRR-e
    let v1 = v1.number & 0x0f;
    let v2 = v2.number & 0x0f;
    let v3 = v3.number & 0x0f;
    let v4 = v4.number & 0x0f;
    let m5 = m5 & 0x0f;
    let m6 = m6 & 0x0f;
    enc[0] = opcode1;
    enc[1] = v1 << 4 | v2;
    enc[2] = v3 << 4 | m6;
    enc[3] = m5;
    enc[4] = v4 << 4 | rxb;
    enc[5] = opcode2;
    (enc, 0)
}

/// VRRf-type instructions.
///
///   47      39 35 31 27 11  7
///   opcode1 v1 r2 r3 -  rxb opcode2
///        40 36 32 28 12   8       0
///
pub fn enc_vrr_f(opcode: u16, v1: Reg, r2: Reg, r3: Reg) -> ([u8; 6], u8)
    ensures { result ≡ encoder VrrF opcode (register v1 ∷ register r2 ∷ register r3 ∷ []) }
{
    let mut enc: [u8; 6] = [0; 6];
    if !(is_vr(v1) && is_gpr(r2) && is_gpr(r3)) {
        return (enc, Reason::Operand as u8);
    }
    let opcode1 = ((opcode >> 8) & 0xff) as u8;
    let opcode2 = (opcode & 0xff) as u8;
    let rxb = rxb(Some(v1), None, None, None);
    let v1 = v1.number & 0x0f;
    let r2 = r2.number & 0x0f;
    let r3 = r3.number & 0x0f;
    enc[0] = opcode1;
    enc[1] = v1 << 4 | r2;
    enc[2] = r3 << 4;
    enc[4] = rxb;
    enc[5] = opcode2;
    (enc, 0)
}

/// VRSa-type instructions.
///
///   47      39 35 31 27 15 11  7
///   opcode1 v1 v3 b2 d2 m4 rxb opcode2
///        40 36 32 28 16 12   8       0
///
pub fn enc_vrs_a(opcode: u16, v1: Reg, b2: Reg, d2: u32, v3: Reg, m4: u8) -> ([u8; 6], u8)
    ensures { result ≡ encoder VrsA opcode (register v1 ∷ register b2 ∷ numeral (pos d2) ∷ register v3 ∷ numeral (pos m4) ∷ []) }
{
    let mut enc: [u8; 6] = [0; 6];
    if !(is_vr(v1) && is_gpr(b2) && is_vr(v3)) {
        return (enc, Reason::Operand as u8);
    }
    let opcode1 = ((opcode >> 8) & 0xff) as u8;
    let opcode2 = (opcode & 0xff) as u8;
    let rxb = rxb(Some(v1), Some(v3), None, None); // VRS-a
    let v1 = v1.number & 0x0f;
    let b2 = b2.number & 0x0f;
    let v3 = v3.number & 0x0f;
    let d2_lo = (d2 & 0xff) as u8;
    let d2_hi = ((d2 >> 8) & 0x0f) as u8;
    let m4 = m4 & 0x0f;
    enc[0] = opcode1;
    enc[1] = v1 << 4 | v3;
    enc[2] = b2 << 4 | d2_hi;
    enc[3] = d2_lo;
    enc[4] = m4 << 4 | rxb;
    enc[5] = opcode2;
    (enc, 0)
}

/// VRSb-type instructions.
///
///   47      39 35 31 27 15 11  7
///   opcode1 v1 r3 b2 d2 m4 rxb opcode2
///        40 36 32 28 16 12   8       0
///
pub fn enc_vrs_b(opcode: u16, v1: Reg, b2: Reg, d2: u32, r3: Reg, m4: u8) -> ([u8; 6], u8)
    ensures { result ≡ encoder VrsB opcode (register v1 ∷ register b2 ∷ numeral (pos d2) ∷ register r3 ∷ numeral (pos m4) ∷ []) }
{
    let mut enc: [u8; 6] = [0; 6];
    if !(is_vr(v1) && is_gpr(b2) && is_gpr(r3)) {
        return (enc, Reason::Operand as u8);
    }
    let opcode1 = ((opcode >> 8) & 0xff) as u8;
    let opcode2 = (opcode & 0xff) as u8;
    let rxb = rxb(Some(v1), None, None, None);
    let v1 = v1.number & 0x0f;
    let b2 = b2.number & 0x0f;
    let r3 = r3.number & 0x0f;
    let d2_lo = (d2 & 0xff) as u8;
    let d2_hi = ((d2 >> 8) & 0x0f) as u8;
    let m4 = m4 & 0x0f;
    enc[0] = opcode1;
    enc[1] = v1 << 4 | r3;
    enc[2] = b2 << 4 | d2_hi;
    enc[3] = d2_lo;
    enc[4] = m4 << 4 | rxb;
    enc[5] = opcode2;
    (enc, 0)
}

/// VRSc-type instructions.
///
///   47      39 35 31 27 15 11  7
///   opcode1 r1 v3 b2 d2 m4 rxb opcode2
///        40 36 32 28 16 12   8       0
///
pub fn enc_vrs_c(opcode: u16, r1: Reg, b2: Reg, d2: u32, v3: Reg, m4: u8) -> ([u8; 6], u8)
    ensures { result ≡ encoder VrsC opcode (register r1 ∷ register b2 ∷ numeral (pos d2) ∷ register v3 ∷ numeral (pos m4) ∷ []) }
{
    let mut enc: [u8; 6] = [0; 6];
    if !(is_gpr(r1) && is_gpr(b2) && is_vr(v3)) {
        return (enc, Reason::Operand as u8);
    }
    let opcode1 = ((opcode >> 8) & 0xff) as u8;
    let opcode2 = (opcode & 0xff) as u8;
    let rxb = rxb(None, Some(v3), None, None);
    let r1 = r1.number & 0x0f;
    let b2 = b2.number & 0x0f;
    let v3 = v3.number & 0x0f;
    let d2_lo = (d2 & 0xff) as u8;
    let d2_hi = ((d2 >> 8) & 0x0f) as u8;
    let m4 = m4 & 0x0f;
    enc[0] = opcode1;
    enc[1] = r1 << 4 | v3;
    enc[2] = b2 << 4 | d2_hi;
    enc[3] = d2_lo;
    enc[4] = m4 << 4 | rxb;
    enc[5] = opcode2;
    (enc, 0)
}

/// VRX-type instructions.
///
///   47      39 35 31 27 15 11  7
///   opcode1 v1 x2 b2 d2 m3 rxb opcode2
///        40 36 32 28 16 12   8       0
///
pub fn enc_vrx(opcode: u16, v1: Reg, b2: Reg, x2: Reg, d2: u32, m3: u8) -> ([u8; 6], u8)
    ensures { result ≡ encoder Vrx opcode (register v1 ∷ register b2 ∷ register x2 ∷ numeral (pos d2) ∷ numeral (pos m3) ∷ []) }
{
    let mut enc: [u8; 6] = [0; 6];
    if !(is_vr(v1) && is_gpr(b2) && is_gpr(x2)) {
        return (enc, Reason::Operand as u8);
    }
    let opcode1 = ((opcode >> 8) & 0xff) as u8;
    let opcode2 = (opcode & 0xff) as u8;
    let rxb = rxb(Some(v1), None, None, None);
    let v1 = v1.number & 0x0f;
    let b2 = b2.number & 0x0f;
    let x2 = x2.number & 0x0f;
    let d2_lo = (d2 & 0xff) as u8;
    let d2_hi = ((d2 >> 8) & 0x0f) as u8;
    let m3 = m3 & 0x0f;
    enc[0] = opcode1;
    enc[1] = v1 << 4 | x2;
    enc[2] = b2 << 4 | d2_hi;
    enc[3] = d2_lo;
    enc[4] = m3 << 4 | rxb;
    enc[5] = opcode2;
    (enc, 0)
}
