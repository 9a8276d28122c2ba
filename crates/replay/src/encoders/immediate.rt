use crate::Answered;
use crate::fault::Fault;
use crate::words::Args;
use enc_imm::{
    enc_e, enc_ri_a, enc_ri_b, enc_ri_c, enc_rie_a, enc_rie_d, enc_rie_f, enc_rie_g, enc_ril_a,
    enc_ril_b, enc_ril_c,
};

/// Registers, masks, and immediates or distances of 16 and 32 bits.
pub fn answer(name: &str, args: &mut Args) -> Answered {
    match name {
        "enc_e" => args.answer(|opcode| enc_e(opcode)),
        "enc_ri_a" => args.answer(|(opcode, r1, i2)| enc_ri_a(opcode, r1, i2)),
        "enc_ri_b" => args.answer(|(opcode, r1, ri2)| enc_ri_b(opcode, r1, ri2)),
        "enc_ri_c" => args.answer(|(opcode, m1, ri2)| enc_ri_c(opcode, m1, ri2)),
        "enc_ril_a" => args.answer(|(opcode, r1, i2)| enc_ril_a(opcode, r1, i2)),
        "enc_ril_b" => args.answer(|(opcode, r1, ri2)| enc_ril_b(opcode, r1, ri2)),
        "enc_ril_c" => args.answer(|(opcode, m1, ri2)| enc_ril_c(opcode, m1, ri2)),
        "enc_rie_a" => args.answer(|(opcode, r1, i2, m3)| enc_rie_a(opcode, r1, i2, m3)),
        "enc_rie_d" => args.answer(|(opcode, r1, r3, i2)| enc_rie_d(opcode, r1, r3, i2)),
        "enc_rie_f" => args.answer(|(opcode, r1, r2, i3, i4, i5)| {
            enc_rie_f(opcode, r1, r2, i3, i4, i5)
        }),
        "enc_rie_g" => args.answer(|(opcode, r1, i2, m3)| enc_rie_g(opcode, r1, i2, m3)),
        _ => Err(Fault::UnknownCommand.into()),
    }
}
