use crate::Answered;
use crate::fault::Fault;
use crate::words::Args;
use enc_mem::{
    enc_rr, enc_rrd, enc_rre, enc_rrf_ab, enc_rrf_cde, enc_rs, enc_rsy, enc_rx, enc_rxy, enc_si,
    enc_sil, enc_siy,
};

/// Registers, masks, and an address.
pub fn answer(name: &str, args: &mut Args) -> Answered {
    match name {
        "enc_rr" => args.answer(|(opcode, r1, r2)| enc_rr(opcode, r1, r2)),
        "enc_rrd" => args.answer(|(opcode, r1, r2, r3)| enc_rrd(opcode, r1, r2, r3)),
        "enc_rre" => args.answer(|(opcode, r1, r2)| enc_rre(opcode, r1, r2)),
        "enc_rrf_ab" => args.answer(|(opcode, r1, r2, r3, m4)| enc_rrf_ab(opcode, r1, r2, r3, m4)),
        "enc_rrf_cde" => args.answer(|(opcode, r1, r2, m3, m4)| {
            enc_rrf_cde(opcode, r1, r2, m3, m4)
        }),
        "enc_rs" => args.answer(|(opcode, r1, r3, b2, d2)| enc_rs(opcode, r1, r3, b2, d2)),
        "enc_rsy" => args.answer(|(opcode, r1, r3, b2, d2)| enc_rsy(opcode, r1, r3, b2, d2)),
        "enc_rx" => args.answer(|(opcode, r1, b2, x2, d2)| enc_rx(opcode, r1, b2, x2, d2)),
        "enc_rxy" => args.answer(|(opcode, r1, b2, x2, d2)| enc_rxy(opcode, r1, b2, x2, d2)),
        "enc_si" => args.answer(|(opcode, b1, d1, i2)| enc_si(opcode, b1, d1, i2)),
        "enc_sil" => args.answer(|(opcode, b1, d1, i2)| enc_sil(opcode, b1, d1, i2)),
        "enc_siy" => args.answer(|(opcode, b1, d1, i2)| enc_siy(opcode, b1, d1, i2)),
        _ => Err(Fault::UnknownCommand.into()),
    }
}
