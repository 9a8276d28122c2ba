//! The encoders of instructions with registers and memory operands. Each answers the bytes of its row and 0, or, where a register is not of
//! its kind or does not exist, zero bytes and the number of the refusal OPERAND. Opcodes, masks, displacements and distances are cut to
//! their digits.

#![tactic(auto)]

// A number beside the bytes, and no `Result`: the encoders' interface is fixed.

ghost use Rattle.std.specs.Prelude.{◌≡◌, [], ◌∷◌, pos};
ghost use Rattle.form.specs.declared.Form.TheVariants.{Rr, Rrd, Rre, RrfAb, RrfCde, Rs, Rsy, Rx, Rxy, Si, Sil, Siy};
ghost use Rattle.form.specs.Encoders.{encoder, register, numeral};

use operand::reg::{Reg, is_fpr, is_gpr, is_gpr_or_fpr};
use refusal::Reason;

/// RR-type instructions.
///
///   15     7  3
///   opcode r1 r2
///        8  4  0
///
pub fn enc_rr(opcode: u16, r1: Reg, r2: Reg) -> ([u8; 2], u8)
    ensures { result ≡ encoder Rr opcode (register r1 ∷ register r2 ∷ []) }
{
    let mut enc: [u8; 2] = [0; 2];
    if !(is_gpr_or_fpr(r1) && is_gpr_or_fpr(r2)) {
        return (enc, Reason::Operand as u8);
    }
    let opcode = (opcode & 0xff) as u8;
    let r1 = r1.number & 0x0f;
    let r2 = r2.number & 0x0f;
    enc[0] = opcode;
    enc[1] = r1 << 4 | r2;
    (enc, 0)
}

/// RRD-type instructions.
///
///   31     15 11 7  3
///   opcode r1 -- r3 r2
///       16 12  8 4  0
///
pub fn enc_rrd(opcode: u16, r1: Reg, r2: Reg, r3: Reg) -> ([u8; 4], u8)
    ensures { result ≡ encoder Rrd opcode (register r1 ∷ register r2 ∷ register r3 ∷ []) }
{
    let mut enc: [u8; 4] = [0; 4];
    if !(is_fpr(r1) && is_fpr(r2) && is_fpr(r3)) {
        return (enc, Reason::Operand as u8);
    }
    let opcode1 = ((opcode >> 8) & 0xff) as u8;
    let opcode2 = (opcode & 0xff) as u8;
    let r1 = r1.number & 0x0f;
    let r2 = r2.number & 0x0f;
    let r3 = r3.number & 0x0f;
    enc[0] = opcode1;
    enc[1] = opcode2;
    enc[2] = r1 << 4;
    enc[3] = r3 << 4 | r2;
    (enc, 0)
}

/// RRE-type instructions.
///
///   31     15 7  3
///   opcode -- r1 r2
///       16  8  4  0
///
pub fn enc_rre(opcode: u16, r1: Reg, r2: Reg) -> ([u8; 4], u8)
    ensures { result ≡ encoder Rre opcode (register r1 ∷ register r2 ∷ []) }
{
    let mut enc: [u8; 4] = [0; 4];
    if !(is_gpr_or_fpr(r1) && is_gpr_or_fpr(r2)) {
        return (enc, Reason::Operand as u8);
    }
    let opcode1 = ((opcode >> 8) & 0xff) as u8;
    let opcode2 = (opcode & 0xff) as u8;
    let r1 = r1.number & 0x0f;
    let r2 = r2.number & 0x0f;
    enc[0] = opcode1;
    enc[1] = opcode2;
    enc[3] = r1 << 4 | r2; // RRE: ab
    (enc, 0)
}

/// RRFa/b-type instructions.
///
///   31     15 11 7  3
///   opcode r3 m4 r1 r2
///       16 12  8  4  0
///
pub fn enc_rrf_ab(opcode: u16, r1: Reg, r2: Reg, r3: Reg, m4: u8) -> ([u8; 4], u8)
    ensures { result ≡ encoder RrfAb opcode (register r1 ∷ register r2 ∷ register r3 ∷ numeral (pos m4) ∷ []) }
{
    let mut enc: [u8; 4] = [0; 4];
    if !(is_gpr_or_fpr(r1) && is_gpr_or_fpr(r2) && is_gpr_or_fpr(r3)) {
        return (enc, Reason::Operand as u8);
    }
    let opcode1 = ((opcode >> 8) & 0xff) as u8;
    let opcode2 = (opcode & 0xff) as u8;
    let r1 = r1.number & 0x0f;
    let r2 = r2.number & 0x0f;
    let r3 = r3.number & 0x0f;
    let m4 = m4 & 0x0f;
    enc[0] = opcode1;
    enc[1] = opcode2;
    enc[2] = r3 << 4 | m4;
    enc[3] = r1 << 4 | r2;
    (enc, 0)
}

/// RRFc/d/e-type instructions.
///
///   31     15 11 7  3
///   opcode m3 m4 r1 r2
///       16 12  8  4  0
///
pub fn enc_rrf_cde(opcode: u16, r1: Reg, r2: Reg, m3: u8, m4: u8) -> ([u8; 4], u8)
    ensures { result ≡ encoder RrfCde opcode (register r1 ∷ register r2 ∷ numeral (pos m3) ∷ numeral (pos m4) ∷ []) }
{
    let mut enc: [u8; 4] = [0; 4];
    if !(is_gpr_or_fpr(r1) && is_gpr_or_fpr(r2)) {
        return (enc, Reason::Operand as u8);
    }
    let opcode1 = ((opcode >> 8) & 0xff) as u8;
    let opcode2 = (opcode & 0xff) as u8;
    let r1 = r1.number & 0x0f;
    let r2 = r2.number & 0x0f;
    let m3 = m3 & 0x0f;
    let m4 = m4 & 0x0f;
    enc[0] = opcode1;
    enc[1] = opcode2;
    enc[2] = m3 << 4 | m4;
    enc[3] = r1 << 4 | r2;
    (enc, 0)
}

/// RS-type instructions.
///
///   31     23 19 15 11
///   opcode r1 r3 b2 d2
///       24 20 16 12  0
///
pub fn enc_rs(opcode: u16, r1: Reg, r3: Reg, b2: Reg, d2: u32) -> ([u8; 4], u8)
    ensures { result ≡ encoder Rs opcode (register r1 ∷ register r3 ∷ register b2 ∷ numeral (pos d2) ∷ []) }
{
    let mut enc: [u8; 4] = [0; 4];
    if !(is_gpr_or_fpr(r1) && is_gpr_or_fpr(r3) && is_gpr(b2)) {
        return (enc, Reason::Operand as u8);
    }
    let opcode = (opcode & 0xff) as u8;
    let r1 = r1.number & 0x0f;
    let r3 = r3.number & 0x0f;
    let b2 = b2.number & 0x0f;
    let d2_lo = (d2 & 0xff) as u8;
    let d2_hi = ((d2 >> 8) & 0x0f) as u8;
    enc[0] = opcode;
    enc[1] = r1 << 4 | r3; // RS: ab
    enc[2] = b2 << 4 | d2_hi;
    enc[3] = d2_lo;
    (enc, 0)
}

/// RSY-type instructions.
///
///   47      39 35 31 27  15  7
///   opcode1 r1 r3 b2 dl2 dh2 opcode2
///        40 36 32 28  16   8       0
///
pub fn enc_rsy(opcode: u16, r1: Reg, r3: Reg, b2: Reg, d2: u32) -> ([u8; 6], u8)
    ensures { result ≡ encoder Rsy opcode (register r1 ∷ register r3 ∷ register b2 ∷ numeral (pos d2) ∷ []) }
{
    let mut enc: [u8; 6] = [0; 6];
    if !(is_gpr_or_fpr(r1) && is_gpr_or_fpr(r3) && is_gpr(b2)) {
        return (enc, Reason::Operand as u8);
    }
    let opcode1 = ((opcode >> 8) & 0xff) as u8;
    let opcode2 = (opcode & 0xff) as u8;
    let r1 = r1.number & 0x0f;
    let r3 = r3.number & 0x0f;
    let b2 = b2.number & 0x0f;
    let dl2_lo = (d2 & 0xff) as u8;
    let dl2_hi = ((d2 >> 8) & 0x0f) as u8;
    let dh2 = ((d2 >> 12) & 0xff) as u8;
    enc[0] = opcode1;
    enc[1] = r1 << 4 | r3; // RSY: ab
    enc[2] = b2 << 4 | dl2_hi;
    enc[3] = dl2_lo;
    enc[4] = dh2;
    enc[5] = opcode2;
    (enc, 0)
}

/// RX-type instructions.
///
///   31     23 19 15 11
///   opcode r1 x2 b2 d2
///       24 20 16 12  0
///
pub fn enc_rx(opcode: u16, r1: Reg, b2: Reg, x2: Reg, d2: u32) -> ([u8; 4], u8)
    ensures { result ≡ encoder Rx opcode (register r1 ∷ register b2 ∷ register x2 ∷ numeral (pos d2) ∷ []) }
{
    let mut enc: [u8; 4] = [0; 4];
    if !(is_gpr_or_fpr(r1) && is_gpr(b2) && is_gpr(x2)) {
        return (enc, Reason::Operand as u8);
    }
    let opcode = (opcode & 0xff) as u8;
    let r1 = r1.number & 0x0f;
    let b2 = b2.number & 0x0f;
    let x2 = x2.number & 0x0f;
    let d2_lo = (d2 & 0xff) as u8;
    let d2_hi = ((d2 >> 8) & 0x0f) as u8;
    enc[0] = opcode;
    enc[1] = r1 << 4 | x2;
    enc[2] = b2 << 4 | d2_hi; // RX: bd
    enc[3] = d2_lo;
    (enc, 0)
}

/// RXY-type instructions.
///
///   47      39 35 31 27  15  7
///   opcode1 r1 x2 b2 dl2 dh2 opcode2
///        40 36 32 28  16   8       0
///
pub fn enc_rxy(opcode: u16, r1: Reg, b2: Reg, x2: Reg, d2: u32) -> ([u8; 6], u8)
    ensures { result ≡ encoder Rxy opcode (register r1 ∷ register b2 ∷ register x2 ∷ numeral (pos d2) ∷ []) }
{
    let mut enc: [u8; 6] = [0; 6];
    if !(is_gpr_or_fpr(r1) && is_gpr(b2) && is_gpr(x2)) {
        return (enc, Reason::Operand as u8);
    }
    let opcode1 = ((opcode >> 8) & 0xff) as u8;
    let opcode2 = (opcode & 0xff) as u8;
    let r1 = r1.number & 0x0f;
    let b2 = b2.number & 0x0f;
    let x2 = x2.number & 0x0f;
    let dl2_lo = (d2 & 0xff) as u8;
    let dl2_hi = ((d2 >> 8) & 0x0f) as u8;
    let dh2 = ((d2 >> 12) & 0xff) as u8;
    enc[0] = opcode1;
    enc[1] = r1 << 4 | x2; // RXY: ac
    enc[2] = b2 << 4 | dl2_hi;
    enc[3] = dl2_lo;
    enc[4] = dh2;
    enc[5] = opcode2;
    (enc, 0)
}

/// SI-type instructions.
///
///   31     23 15 11
///   opcode i2 b1 d1
///       24 16 12  0
///
pub fn enc_si(opcode: u16, b1: Reg, d1: u32, i2: u8) -> ([u8; 4], u8)
    ensures { result ≡ encoder Si opcode (register b1 ∷ numeral (pos d1) ∷ numeral (pos i2) ∷ []) }
{
    let mut enc: [u8; 4] = [0; 4];
    if !is_gpr(b1) {
        return (enc, Reason::Operand as u8);
    }
    let opcode = (opcode & 0xff) as u8;
    let b1 = b1.number & 0x0f;
    let d1_lo = (d1 & 0xff) as u8;
    let d1_hi = ((d1 >> 8) & 0x0f) as u8;
    enc[0] = opcode;
    enc[1] = i2;
    enc[2] = b1 << 4 | d1_hi; // SI: ab
    enc[3] = d1_lo;
    (enc, 0)
}

/// SIL-type instructions.
///
///   47     31 27 15
///   opcode b1 d1 i2
///       32 28 16  0
///
pub fn enc_sil(opcode: u16, b1: Reg, d1: u32, i2: i16) -> ([u8; 6], u8)
    ensures { result ≡ encoder Sil opcode (register b1 ∷ numeral (pos d1) ∷ numeral i2 ∷ []) }
{
    let mut enc: [u8; 6] = [0; 6];
    if !is_gpr(b1) {
        return (enc, Reason::Operand as u8);
    }
    let opcode1 = ((opcode >> 8) & 0xff) as u8;
    let opcode2 = (opcode & 0xff) as u8;
    let b1 = b1.number & 0x0f;
    let d1_lo = (d1 & 0xff) as u8;
    let d1_hi = ((d1 >> 8) & 0x0f) as u8;
    enc[0] = opcode1;
    enc[1] = opcode2;
    enc[2] = b1 << 4 | d1_hi; // SIL: ab
    enc[3] = d1_lo;
    enc[4..].copy_from_slice(&i2.to_be_bytes());
    (enc, 0)
}

/// SIY-type instructions.
///
///   47      39 31 27  15  7
///   opcode1 i2 b1 dl1 dh1 opcode2
///        40 32 28  16   8       0
///
pub fn enc_siy(opcode: u16, b1: Reg, d1: u32, i2: u8) -> ([u8; 6], u8)
    ensures { result ≡ encoder Siy opcode (register b1 ∷ numeral (pos d1) ∷ numeral (pos i2) ∷ []) }
{
    let mut enc: [u8; 6] = [0; 6];
    if !is_gpr(b1) {
        return (enc, Reason::Operand as u8);
    }
    let opcode1 = ((opcode >> 8) & 0xff) as u8;
    let opcode2 = (opcode & 0xff) as u8;
    let b1 = b1.number & 0x0f;
    let dl1_lo = (d1 & 0xff) as u8;
    let dl1_hi = ((d1 >> 8) & 0x0f) as u8;
    let dh1 = ((d1 >> 12) & 0xff) as u8;
    enc[0] = opcode1;
    enc[1] = i2;
    enc[2] = b1 << 4 | dl1_hi;
    enc[3] = dl1_lo;
    enc[4] = dh1;
    enc[5] = opcode2;
    (enc, 0)
}
