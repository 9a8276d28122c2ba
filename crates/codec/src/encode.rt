ghost use Rattle.std.specs.Prelude.{◌≡◌, ◌-◌, ◌≤◌, ◌++◌, true, length, replicate};
ghost use Rattle.std.specs.Int.Signed.{shr_z};
ghost use Rattle.refusal.specs.Numbers.{wrap};
ghost use Rattle.refusal.specs.Refusals.{answered};
ghost use Rattle.form.specs.declared.OperandKind.TheVariants.{S16, H16};
ghost use Rattle.form.specs.Form.{kinds as kinds_of};
ghost use Rattle.form.specs.Encode.{In, takes as takes_them};
ghost use Rattle.form.specs.Instr.{bytes_of};
ghost use Rattle.codec.specs.Encoded.{operand_refusal};
ghost use Rattle.codec.specs.Given.{general_reg, vector_reg};

use crate::operands::takes;
use enc_imm::{
    enc_e, enc_ri_a, enc_ri_b, enc_ri_c, enc_rie_a, enc_rie_d, enc_rie_f, enc_rie_g, enc_ril_a,
};
use enc_mem::{
    enc_rr, enc_rrd, enc_rre, enc_rrf_ab, enc_rrf_cde, enc_rs, enc_rsy, enc_rx, enc_rxy, enc_si,
    enc_sil, enc_siy,
};
use enc_vec::{
    enc_vri_a, enc_vri_b, enc_vri_c, enc_vri_k, enc_vrr_a, enc_vrr_b, enc_vrr_c, enc_vrr_d,
    enc_vrr_e, enc_vrr_f, enc_vrs_a, enc_vrs_b, enc_vrs_c, enc_vrx,
};
use form::Form;
use form::instr::Instr;
use operand::reg::{Reg, gpr, vr};
use refusal::Reason;
use std::marker::Model;

/// The bytes of an instruction, at most six.
#[derive(Clone, Copy)]
pub struct Encoded {
    bytes: [u8; 6],
    count: usize,
}

// Clauses see the first `count` bytes; the others are 0.
impl Model for Encoded {
    ghost use Rattle.std.specs.Prelude.{◌≡◌, ℕ, ◌≤◌, List, take};

    ghost Value = { List ℕ };

    ghost use Rattle.codec.specs.Padded.{padded};

    ghost view = { λ e. take e.count e.bytes };

    ghost invariant = { λ e. (e.count ≤ 6) × (padded (take e.count e.bytes) ≡ e) };

    ghost inverse = { padded };

    ghost inverse_ok = { λ e h. h.1 };
}

impl Encoded {
    fn new<const N: usize>(bytes: [u8; N]) -> Encoded
        requires { N ≤ 6 }
        ensures { result ≡ bytes.entry }
    {
        let mut padded = [0; 6];
        padded[..N].copy_from_slice(&bytes);
        Encoded {
            bytes: padded,
            count: N,
        }
    }

    pub fn len(&self) -> usize
        ensures { result ≡ length self.now }
    {
        self.count
    }

    pub fn as_slice(&self) -> &[u8]
        ensures bytes { result.now ≡ self.now }
        ensures few { length self.now ≤ 6 }
    {
        &self.bytes[..self.len()]
    }

    /// The bytes, and zeros behind them up to six.
    pub fn bytes(&self) -> [u8; 6]
        ensures { result ≡ self.now ++ replicate (6 - length self.now) 0 }
    {
        self.bytes
    }
}

// `byte`, `half` and `word` stay apart: the new form is no plainer, since a trait for them would have these three bodies in its impls.

fn byte(z: i64) -> u8
    ensures { result ≡ wrap 8 z }
{
    (z.cast_unsigned() & 0xff) as u8
}

fn half(z: i64) -> u16
    ensures { result ≡ wrap 16 z }
{
    (z.cast_unsigned() & 0xffff) as u16
}

fn word(z: i64) -> u32
    ensures { result ≡ wrap 32 z }
{
    (z.cast_unsigned() & 0xffff_ffff) as u32
}

/// A distance of kind H32, halved: the encoders of RIL-b and RIL-c halve unsigned numbers of 32 bits, and a distance has 33 bits and a
/// sign, so that the digits are formed here and written as those of RIL-a.
fn halved(z: i64) -> u32
    ensures { result ≡ wrap 32 (shr_z z 2) }
{
    ((z >> 1) & 0xffff_ffff) as u32
}

fn short(z: i64) -> i16
    requires { In S16 z ≡ true }
    ensures { result ≡ z }
{
    z as i16
}

fn distance(z: i64) -> i32
    requires { In H16 z ≡ true }
    ensures { result ≡ z }
{
    z as i32
}

fn general(z: i64) -> Reg
    ensures { result ≡ general_reg z }
{
    gpr(byte(z))
}

fn vector(z: i64) -> Reg
    ensures { result ≡ vector_reg z }
{
    vr(byte(z))
}

/// The instruction's bytes, by the encoder of its form.
fn formed(instr: &Instr) -> Encoded
    requires { takes_them (kinds_of instr.now.form) instr.now.operands ≡ true }
    ensures { result ≡ bytes_of instr.now }
{
    let opcode = instr.opcode;
    let [a, b, c, d, e, f] = instr.operands;
    match instr.form {
        Form::E => Encoded::new(enc_e(opcode).0),
        Form::RiA => Encoded::new(enc_ri_a(opcode, general(a), half(b)).0),
        Form::RiB => Encoded::new(enc_ri_b(opcode, general(a), distance(b)).0),
        Form::RiC => Encoded::new(enc_ri_c(opcode, byte(a), distance(b)).0),
        Form::RieA => Encoded::new(enc_rie_a(opcode, general(a), half(b), byte(c)).0),
        Form::RieD => Encoded::new(enc_rie_d(opcode, general(a), general(b), half(c)).0),
        Form::RieF => Encoded::new(
            enc_rie_f(opcode, general(a), general(b), byte(c), byte(d), byte(e)).0,
        ),
        Form::RieG => Encoded::new(enc_rie_g(opcode, general(a), half(b), byte(c)).0),
        Form::RilA => Encoded::new(enc_ril_a(opcode, general(a), word(b)).0),
        Form::RilB | Form::RilC => Encoded::new(enc_ril_a(opcode, general(a), halved(b)).0),
        Form::Rr => Encoded::new(enc_rr(opcode, general(a), general(b)).0),
        Form::Rrd => Encoded::new(enc_rrd(opcode, vector(a), vector(b), vector(c)).0),
        Form::Rre => Encoded::new(enc_rre(opcode, general(a), general(b)).0),
        Form::RrfAb => Encoded::new(
            enc_rrf_ab(opcode, general(a), general(b), general(c), byte(d)).0,
        ),
        Form::RrfCde => Encoded::new(
            enc_rrf_cde(opcode, general(a), general(b), byte(c), byte(d)).0,
        ),
        Form::Rs => Encoded::new(enc_rs(opcode, general(a), general(b), general(c), word(d)).0),
        Form::Rsy => Encoded::new(enc_rsy(opcode, general(a), general(b), general(c), word(d)).0),
        Form::Rx => Encoded::new(enc_rx(opcode, general(a), general(b), general(c), word(d)).0),
        Form::Rxy => Encoded::new(enc_rxy(opcode, general(a), general(b), general(c), word(d)).0),
        Form::Si => Encoded::new(enc_si(opcode, general(a), word(b), byte(c)).0),
        Form::Sil => Encoded::new(enc_sil(opcode, general(a), word(b), short(c)).0),
        Form::Siy => Encoded::new(enc_siy(opcode, general(a), word(b), byte(c)).0),
        Form::VriA => Encoded::new(enc_vri_a(opcode, vector(a), half(b), byte(c)).0),
        Form::VriB => Encoded::new(enc_vri_b(opcode, vector(a), byte(b), byte(c), byte(d)).0),
        Form::VriC => Encoded::new(enc_vri_c(opcode, vector(a), half(b), vector(c), byte(d)).0),
        Form::VriK => Encoded::new(
            enc_vri_k(opcode, byte(a), vector(b), vector(c), vector(d), vector(e)).0,
        ),
        Form::VrrA => Encoded::new(
            enc_vrr_a(opcode, vector(a), vector(b), byte(c), byte(d), byte(e)).0,
        ),
        Form::VrrB => Encoded::new(
            enc_vrr_b(opcode, vector(a), vector(b), vector(c), byte(d), byte(e)).0,
        ),
        Form::VrrC => Encoded::new(
            enc_vrr_c(
                opcode,
                vector(a),
                vector(b),
                vector(c),
                byte(d),
                byte(e),
                byte(f),
            )
            .0,
        ),
        Form::VrrD => Encoded::new(
            enc_vrr_d(
                opcode,
                vector(a),
                vector(b),
                vector(c),
                vector(d),
                byte(e),
                byte(f),
            )
            .0,
        ),
        Form::VrrE => Encoded::new(
            enc_vrr_e(
                opcode,
                vector(a),
                vector(b),
                vector(c),
                vector(d),
                byte(e),
                byte(f),
            )
            .0,
        ),
        Form::VrrF => Encoded::new(enc_vrr_f(opcode, vector(a), general(b), general(c)).0),
        Form::VrsA => Encoded::new(
            enc_vrs_a(opcode, vector(a), general(b), word(c), vector(d), byte(e)).0,
        ),
        Form::VrsB => Encoded::new(
            enc_vrs_b(opcode, vector(a), general(b), word(c), general(d), byte(e)).0,
        ),
        Form::VrsC => Encoded::new(
            enc_vrs_c(opcode, general(a), general(b), word(c), vector(d), byte(e)).0,
        ),
        Form::Vrx => Encoded::new(
            enc_vrx(opcode, vector(a), general(b), general(c), word(d), byte(e)).0,
        ),
    }
}

/// The bytes of an instruction, the opcode cut to its digits. Refused by OPERAND where the operands are not of the form's kinds, the unused
/// ones 0.
pub fn encode(instr: &Instr) -> Result<Encoded, Reason>
    ensures { result ≡ answered (operand_refusal instr.now.form instr.now.operands) (bytes_of instr.now) }
{
    if takes(instr.form, &instr.operands) {
        Ok(formed(instr))
    } else {
        Err(Reason::Operand)
    }
}
