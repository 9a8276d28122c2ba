//! Encodes a short price routine and prints each instruction: a parcel's weight in grams comes in register 3, and its price in cents goes
//! out in register 2, 350 up to 500 grams, 590 up to 2000 grams, −1 above.

#![tactic(auto)]

use condition::cond::Cond;
use condition::condcodes::IntCC;
use enc_imm::{enc_ri_a, enc_ri_c, enc_ril_a};
use enc_mem::enc_rr;
use operand::reg::gpr;
use std::io;

const LGHI: u16 = 0xa79;

const CLGFI: u16 = 0xc2e;

const BRC: u16 = 0xa74;

const BCR: u16 = 0x07;

const PRICE: u8 = 2;

const WEIGHT: u8 = 3;

const RETURN: u8 = 14;

/// A band of the routine: compare, branch past it, load the price, return.
const BAND_SIZE: i32 = 16;

/// Prints one instruction, as its encoder answers it, and answers where the next one stands.
fn show<const N: usize>(
    rt: &HostRuntime,
    place: u32,
    text: &str,
    (bytes, refused): ([u8; N], u8),
) -> io::Result<u32> {
    if refused != 0 {
        println!(rt; "{place:4}  refused {refused:<9} {text}")?;
        return Ok(place);
    }
    print!(rt; "{place:4}  ")?;
    for b in bytes {
        print!(rt; "{b:02x}")?;
    }
    for _ in bytes.len()..6 {
        print!(rt; "  ")?;
    }
    println!(rt; "  {text}")?;
    Ok(place.saturating_add(bytes.len().min(6) as u32))
}

/// Up to `grams` the price is `cents`: where the weight is higher, control goes on past the band.
fn band(rt: &HostRuntime, place: u32, grams: u32, cents: u16) -> io::Result<u32> {
    let higher = Cond::from_intcc(IntCC::UnsignedGreaterThan).bits();
    let compare = enc_ril_a(CLGFI, gpr(WEIGHT), grams);
    let next = show(rt, place, "clgfi  weight, grams", compare)?;
    let branch = enc_ri_c(BRC, higher, BAND_SIZE - 6);
    let next = show(rt, next, "brc    high, next band", branch)?;
    let next = load_price(rt, next, "lghi   price, cents", cents)?;
    give_back(rt, next)
}

fn load_price(rt: &HostRuntime, place: u32, text: &str, cents: u16) -> io::Result<u32> {
    show(rt, place, text, enc_ri_a(LGHI, gpr(PRICE), cents))
}

fn give_back(rt: &HostRuntime, place: u32) -> io::Result<u32> {
    let back = enc_rr(BCR, gpr(15), gpr(RETURN));
    show(rt, place, "bcr    always, return", back)
}

fn main(rt: HostRuntime) -> io::Result<()> {
    let next = band(&rt, 0, 500, 350)?;
    let next = band(&rt, next, 2000, 590)?;
    let next = load_price(&rt, next, "lghi   price, -1", 0xffff)?;
    let size = give_back(&rt, next)?;
    println!(rt; "{size} bytes")
}
