ghost use Rattle.std.specs.Prelude.{◌≡◌, ℕ, ◌+◌, ◌*◌, ◌^◌, ◌<◌, ◌≤◌, true, ◌&&◌, ◌||◌, map, length, pos, neg_ℤ, ◌≤ℤ◌, if◌then◌else◌, Some, None, ◌==◌, nat_eq, slice_index, slice_index_or};
ghost use Rattle.form.specs.Form.{row as row_of, unused, size as size_of, kinds as kinds_of};
ghost use Rattle.form.specs.Encode.{nibbles, operand_part, gather, bit_part, bit_of, field_of as field_at, width, operands_of as operands_at, operands_from, six, is_vec, rxb_clean, digit_clean, clean, all_clean, opcode_of as opcode_at};
ghost use Rattle.refusal.specs.Numbers.{from_bits};
ghost use Rattle.codec.specs.Digits.{digit_of, low, operand_at, twos_by, twelve};
ghost use Rattle.refusal.specs.Tests.{all};

use crate::row::{Digit, row};
use form::table::OpcodeDigits;
use form::{Form, OperandKind};
use std::array;

/// Digit i of the bytes, 0 past the end.
fn nibble(bytes: &[u8], i: usize) -> u8
    ensures { result ≡ slice_index (nibbles bytes.now) i }
{
    let byte = bytes.get(i / 2).copied().unwrap_or(0);
    if i % 2 == 0 { byte / 16 } else { byte % 16 }
}

/// The digits of the bytes, zeros past the end.
fn digits_of(bytes: &[u8]) -> [u8; 12]
    requires { length bytes.now ≤ 6 }
    ensures { result ≡ twelve (nibbles bytes.now) }
{
    array::from_fn(|i| nibble(bytes, i))
}

fn scaled(x: u8, k: usize) -> u64
    requires { k < 8 }
    ensures is { result ≡ x * 16 ^ k }
    ensures small { result < 2 ^ 36 }
{
    x as u64 * 16u64.pow(k as u32)
}

/// What a digit of the row says about operand i.
fn weigh(i: usize, d: Digit, x: u8) -> u64
    requires { low d ≡ true }
    ensures is { result ≡ operand_part i (digit_of d) x }
    ensures small { result < 2 ^ 36 }
{
    match d {
        Digit::Arg(j, k) => if i == j { scaled(x, k) } else { 0 },
        Digit::Vector(j) => if i == j { x as u64 } else { 0 },
        Digit::Op(_) | Digit::Unused | Digit::Rxb => 0,
    }
}

/// A bit of RXB, where the digit is the low one of the vector register i.
fn bit_of(i: usize, d: Digit, bit: u8) -> u8
    requires { bit < 2 }
    ensures is { result ≡ bit_part i (digit_of d) bit }
    ensures small { result < 2 }
{
    match d {
        Digit::Vector(j) => if i == j { bit } else { 0 },
        Digit::Op(_) | Digit::Arg(_, _) | Digit::Unused | Digit::Rxb => 0,
    }
}

/// The number that a field of this kind spells.
fn number(kind: OperandKind, n: u64) -> i64
    requires { n < 2 ^ 40 }
    ensures { result ≡ from_bits (width kind) n }
{
    match kind {
        OperandKind::G | OperandKind::N | OperandKind::V | OperandKind::F => n as i64,
        OperandKind::M | OperandKind::U8 | OperandKind::U16 | OperandKind::U32 => n as i64,
        OperandKind::D12 => n as i64,
        OperandKind::S16 => signed(n, 0x8000),
        OperandKind::D20 => signed(n, 0x8_0000),
        OperandKind::H16 => 2 * signed(n, 0x8000),
        OperandKind::H32 => 2 * signed(n, 0x8000_0000),
    }
}

/// Two's complement, whose top bit is `half`.
fn signed(n: u64, half: u64) -> i64
    requires { (n < 2 ^ 40) × (half < 2 ^ 32) }
    ensures is { result ≡ twos_by half n }
    ensures low { neg_ℤ (pos (2 ^ 40)) ≤ℤ result }
    ensures high { result ≤ℤ pos (2 ^ 40) }
{
    if n < half {
        n as i64
    } else if n < 2 * half {
        n as i64 - 2 * half as i64
    } else {
        -1
    }
}

fn is_vector(d: Digit) -> bool
    ensures { result ≡ is_vec (digit_of d) }
{
    matches!(d, Digit::Vector(_))
}

/// Byte i, 0 past the end.
fn byte_at(bytes: &[u8], i: usize) -> u16
    ensures is { result ≡ slice_index bytes.now i }
    ensures small { result < 256 }
{
    bytes.get(i).copied().unwrap_or(0) as u16
}

/// The opcode's digits.
fn opcode_of(form: Form, bytes: &[u8]) -> u16
    requires { length bytes.now ≡ size_of form }
    ensures { result ≡ opcode_at form bytes.now }
{
    let first = byte_at(bytes, 0);
    match form.opcode_digits() {
        OpcodeDigits::Two => first,
        OpcodeDigits::Three => first * 16 + byte_at(bytes, 1) % 16,
        OpcodeDigits::FourFront => first * 256 + byte_at(bytes, 1),
        OpcodeDigits::FourEnds => first * 256 + byte_at(bytes, 5),
    }
}

/// Whether a bit of RXB is a vector register's or not set.
fn bit_clean(d: Digit, bit: u8) -> bool
    ensures { result ≡ (is_vec (digit_of d) || bit == 0) }
{
    is_vector(d) || bit == 0
}

/// An instruction's digits beside the row of its form.
#[derive(Drop)]
struct Laid {
    form: Form,
    row: &'static [Digit],
    digits: [u8; 12],
    ghost is: { map digit_of row.now ≡ row_of form },
    ghost low: { all low row.now ≡ true },
}

impl Laid {
    fn new(form: Form, bytes: &[u8]) -> Laid
        requires { length bytes.now ≤ 6 }
        ensures form { result.form ≡ form }
        ensures digits { result.digits ≡ twelve (nibbles bytes.now) }
    {
        Laid {
            form,
            row: row(form),
            digits: digits_of(bytes),
        }
    }

    /// The row's digit at a place, unused past the end.
    fn digit_at(&self, place: usize) -> Digit
        ensures { digit_of result ≡ slice_index_or (row_of self.now.form) place unused }
    {
        self.row.get(place).copied().unwrap_or(Digit::Unused)
    }

    /// The sum of operand i's digits.
    fn operand_sum(&self, i: usize) -> u64
        ensures is { result ≡ gather (operand_part i) (row_of self.now.form) self.now.digits }
        ensures small { result ≤ 12 * 2 ^ 36 }
    {
        let mut total: u64 = 0;
        for (d, x) in self.row.iter().zip(&self.digits) {
            total += weigh(i, *d, *x);
        }
        total
    }

    /// Operand i's bit in RXB, which is digit 9 wherever a row has one.
    fn bit(&self, i: usize) -> u8
        ensures is { result ≡ bit_of i (row_of self.now.form) (slice_index self.now.digits 9) }
        ensures small { result < 8 }
    {
        let x = self.digits[9];
        let a = bit_of(i, self.digit_at(2), x / 8 % 2);
        let b = bit_of(i, self.digit_at(3), x / 4 % 2);
        let c = bit_of(i, self.digit_at(4), x / 2 % 2);
        let d = bit_of(i, self.digit_at(8), x % 2);
        a + b + c + d
    }

    /// Operand i's field.
    fn field(&self, i: usize) -> u64
        ensures is { result ≡ field_at i (row_of self.now.form) self.now.digits }
        ensures small { result < 2 ^ 40 }
    {
        self.operand_sum(i) + 16 * self.bit(i) as u64
    }

    /// Operand i, 0 where the form has none.
    fn operand(&self, i: usize) -> i64
        ensures { result ≡ operand_at (kinds_of self.now.form) (row_of self.now.form) self.now.digits i }
    {
        self.form
            .kinds()
            .get(i)
            .map_or(0, |kind| number(*kind, self.field(i)))
    }

    /// The six operands, the unused ones 0.
    fn operands(&self) -> [i64; 6]
        ensures { result ≡ six (operands_from 0 (kinds_of self.now.form) (row_of self.now.form) self.now.digits) }
    {
        [
            self.operand(0),
            self.operand(1),
            self.operand(2),
            self.operand(3),
            self.operand(4),
            self.operand(5),
        ]
    }

    /// Whether no bit of RXB, which is x, is set but those of vector registers.
    fn rxb_is_clean(&self, x: u8) -> bool
        ensures { result ≡ rxb_clean (row_of self.now.form) x }
    {
        let a = bit_clean(self.digit_at(2), x / 8 % 2);
        let b = bit_clean(self.digit_at(3), x / 4 % 2);
        let c = bit_clean(self.digit_at(4), x / 2 % 2);
        let d = bit_clean(self.digit_at(8), x % 2);
        a && b && c && d
    }

    fn digit_is_clean(&self, d: Digit, x: u8) -> bool
        ensures { result ≡ digit_clean (row_of self.now.form) (digit_of d) x }
    {
        match d {
            Digit::Op(_) | Digit::Arg(_, _) | Digit::Vector(_) => true,
            Digit::Unused => x == 0,
            Digit::Rxb => self.rxb_is_clean(x),
        }
    }

    /// Whether no unused digit is set.
    fn is_clean(&self) -> bool
        ensures { result ≡ all_clean (row_of self.now.form) (row_of self.now.form) self.now.digits }
    {
        self.row
            .iter()
            .zip(&self.digits)
            .all(|(d, x)| self.digit_is_clean(*d, *x))
    }
}

/// The opcode in these bytes, if they are as many as the form has.
pub fn opcode_in(form: Form, bytes: &[u8]) -> Option<u16>
    ensures { result ≡ (if nat_eq (length bytes.now) (size_of form) then Some (opcode_at form bytes.now) else None) }
{
    if bytes.len() == form.size() {
        Some(opcode_of(form, bytes))
    } else {
        None
    }
}

/// The six operands in these bytes, the unused ones 0; none where the bytes are not as many as the form has, or an unused digit or an
/// unused bit of RXB is set.
pub fn decode(form: Form, bytes: &[u8]) -> Option<[i64; 6]>
    ensures { result ≡ (if nat_eq (length bytes.now) (size_of form) && clean form bytes.now then Some (operands_at form bytes.now) else None) }
{
    if bytes.len() != form.size() {
        return None;
    }
    let laid = Laid::new(form, bytes);
    if !laid.is_clean() {
        return None;
    }
    Some(laid.operands())
}
