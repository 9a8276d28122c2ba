ghost use Rattle.std.specs.Prelude.{◌≡◌};
ghost use Rattle.form.specs.Form.{kinds as kinds_of};
ghost use Rattle.form.specs.Encode.{In, takes as takes_them};
ghost use Rattle.codec.specs.Digits.{taken_at};

use form::{Form, OperandKind};

/// Whether a number is of a kind.
fn is_in(kind: OperandKind, z: i64) -> bool
    ensures { result ≡ In kind z }
{
    match kind {
        OperandKind::G | OperandKind::N | OperandKind::F | OperandKind::M => 0 <= z && z < 16,
        OperandKind::V => 0 <= z && z < 32,
        OperandKind::U8 => 0 <= z && z < 256,
        OperandKind::U16 => 0 <= z && z < 65536,
        OperandKind::U32 => 0 <= z && z < 4294967296,
        OperandKind::D12 => 0 <= z && z < 4096,
        OperandKind::S16 => -32768 <= z && z < 32768,
        OperandKind::D20 => -524288 <= z && z < 524288,
        OperandKind::H16 => -65536 <= z && z < 65536 && z.unsigned_abs() % 2 == 0,
        OperandKind::H32 => -4294967296 <= z && z < 4294967296 && z.unsigned_abs() % 2 == 0,
    }
}

/// Whether operand i may be z: of its kind, or 0 where the form has none.
fn is_taken(form: Form, i: usize, z: i64) -> bool
    ensures { result ≡ taken_at (kinds_of form) i z }
{
    form.kinds().get(i).map_or(z == 0, |kind| is_in(*kind, z))
}

/// Whether the operands are of the form's kinds, the unused ones 0.
pub fn takes(form: Form, operands: &[i64; 6]) -> bool
    ensures { result ≡ takes_them (kinds_of form) operands.now }
{
    operands
        .iter()
        .enumerate()
        .all(|(i, z)| is_taken(form, i, *z))
}
