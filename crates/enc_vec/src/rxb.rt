ghost use Rattle.std.specs.Prelude.{◌≡◌, ◌<◌, if◌then◌else◌};
ghost use Rattle.enc_vec.specs.Rxb.{bit, rxb_of};

use operand::reg::{Reg, is_fpr};

/// Whether a register takes a bit of RXB: it is there, and is no float register below 16.
fn is_high_vr(reg: Option<Reg>) -> bool
    ensures { (if result then 1 else 0) ≡ bit reg }
{
    reg.is_some_and(|reg| !is_fpr(reg))
}

/// The digit RXB: its bits 8, 4, 2 and 1 are for the registers in the digits 2, 3, 4 and 8 of a row.
pub fn rxb(v1: Option<Reg>, v2: Option<Reg>, v3: Option<Reg>, v4: Option<Reg>) -> u8
    ensures is { result ≡ rxb_of v1 v2 v3 v4 }
    ensures small { result < 16 }
{
    let mut rxb = 0;
    if is_high_vr(v1) {
        rxb |= 8;
    }
    if is_high_vr(v2) {
        rxb |= 4;
    }
    if is_high_vr(v3) {
        rxb |= 2;
    }
    if is_high_vr(v4) {
        rxb |= 1;
    }
    rxb
}
