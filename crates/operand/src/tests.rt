use crate::imms::{SImm20, UImm12, UImm16Shifted, UImm32Shifted};
use std::test::Fail;

#[test]
fn ranges(rt: HostRuntime) -> Result<(), Fail> {
    assert_eq!(rt; UImm12::maybe_from_u64(4095).ok_or(())?.bits(), 4095);
    assert!(rt; UImm12::maybe_from_u64(4096).is_none());
    assert!(rt; UImm12::maybe_from_i64(-1).is_none());
    assert_eq!(rt; SImm20::maybe_from_i64(-524288).ok_or(())?.bits(), 0x80000);
    assert_eq!(rt; SImm20::maybe_from_i64(524287).ok_or(())?.bits(), 0x7ffff);
    assert!(rt; SImm20::maybe_from_i64(-524289).is_none());
    assert!(rt; SImm20::maybe_from_i64(524288).is_none());
    Ok(())
}

#[test]
fn shifts(rt: HostRuntime) -> Result<(), Fail> {
    let high = UImm16Shifted::maybe_from_u64(0x8000_0000_0000_0000).ok_or("one digit")?;
    assert!(rt; high.bits == 0x8000 && high.shift == 3);
    assert!(rt; UImm16Shifted::maybe_from_u64(0x1_8000).is_none());
    assert!(rt; UImm32Shifted::maybe_from_u64(0x1_8000).is_some());
    assert!(rt; UImm16Shifted::maybe_with_shift(1, 63).is_some());
    assert!(rt; UImm16Shifted::maybe_with_shift(1, 64).is_none());
    assert!(rt; UImm32Shifted::maybe_with_shift(1, 127).is_some());
    assert!(rt; UImm32Shifted::maybe_with_shift(1, 128).is_none());
    Ok(())
}

#[test]
fn texts(rt: HostRuntime) -> Result<(), Fail> {
    let least = SImm20::maybe_from_i64(-524288).ok_or(())?;
    assert!(rt; least.to_string(rt.alloc())?.as_str() == "-524288");
    let short = UImm16Shifted::maybe_from_u64(1).ok_or(())?;
    let text = format!(in rt.alloc(); "{short:?}")?;
    assert!(rt; text.as_str() == "UImm16Shifted { bits: 1, shift: 0 }");
    let long = UImm32Shifted::maybe_from_u64(1 << 32).ok_or(())?;
    let text = format!(in rt.alloc(); "{long:?}")?;
    assert!(rt; text.as_str() == "UImm32Shifted { bits: 1, shift: 1 }");
    Ok(())
}
