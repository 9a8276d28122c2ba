use crate::Answered;
use crate::fault::Fault;
use crate::words::Args;
use enc_vec::{
    enc_vri_a, enc_vri_b, enc_vri_c, enc_vri_k, enc_vrr_a, enc_vrr_b, enc_vrr_c, enc_vrr_d,
    enc_vrr_e, enc_vrr_f, enc_vrs_a, enc_vrs_b, enc_vrs_c, enc_vrx,
};

/// Vector registers, with immediates, masks or an address.
pub fn answer(name: &str, args: &mut Args) -> Answered {
    match name {
        "enc_vri_a" => args.answer(|(opcode, v1, i2, m3)| enc_vri_a(opcode, v1, i2, m3)),
        "enc_vri_b" => args.answer(|(opcode, v1, i2, i3, m4)| enc_vri_b(opcode, v1, i2, i3, m4)),
        "enc_vri_c" => args.answer(|(opcode, v1, i2, v3, m4)| enc_vri_c(opcode, v1, i2, v3, m4)),
        "enc_vri_k" => args.answer(|(opcode, i5, v1, v2, v3, v4)| {
            enc_vri_k(opcode, i5, v1, v2, v3, v4)
        }),
        "enc_vrr_a" => args.answer(|(opcode, v1, v2, m3, m4, m5)| {
            enc_vrr_a(opcode, v1, v2, m3, m4, m5)
        }),
        "enc_vrr_b" => args.answer(|(opcode, v1, v2, v3, m4, m5)| {
            enc_vrr_b(opcode, v1, v2, v3, m4, m5)
        }),
        "enc_vrr_c" => args.answer(|(opcode, v1, v2, v3, m4, m5, m6)| {
            enc_vrr_c(opcode, v1, v2, v3, m4, m5, m6)
        }),
        "enc_vrr_d" => args.answer(|(opcode, v1, v2, v3, v4, m5, m6)| {
            enc_vrr_d(opcode, v1, v2, v3, v4, m5, m6)
        }),
        "enc_vrr_e" => args.answer(|(opcode, v1, v2, v3, v4, m5, m6)| {
            enc_vrr_e(opcode, v1, v2, v3, v4, m5, m6)
        }),
        "enc_vrr_f" => args.answer(|(opcode, v1, r2, r3)| enc_vrr_f(opcode, v1, r2, r3)),
        "enc_vrs_a" => args.answer(|(opcode, v1, b2, d2, v3, m4)| {
            enc_vrs_a(opcode, v1, b2, d2, v3, m4)
        }),
        "enc_vrs_b" => args.answer(|(opcode, v1, b2, d2, r3, m4)| {
            enc_vrs_b(opcode, v1, b2, d2, r3, m4)
        }),
        "enc_vrs_c" => args.answer(|(opcode, r1, b2, d2, v3, m4)| {
            enc_vrs_c(opcode, r1, b2, d2, v3, m4)
        }),
        "enc_vrx" => args.answer(|(opcode, v1, b2, x2, d2, m3)| {
            enc_vrx(opcode, v1, b2, x2, d2, m3)
        }),
        _ => Err(Fault::UnknownCommand.into()),
    }
}
