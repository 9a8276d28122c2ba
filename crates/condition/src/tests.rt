use crate::cond::Cond;
use crate::condcodes::{CondCode, IntCC};
use std::test::Fail;

#[test]
fn masks(rt: HostRuntime) {
    assert!(rt; Cond::from_mask(1).is_ok() && Cond::from_mask(14).is_ok());
    assert!(rt; Cond::from_mask(0).is_err() && Cond::from_mask(15).is_err());
    assert!(rt; Cond::from_mask(16).is_err() && Cond::from_mask(255).is_err());
    assert_eq!(rt; Cond::from_intcc(IntCC::SignedLessThan).invert().bits(), 11);
}

#[test]
fn texts(rt: HostRuntime) -> Result<(), Fail> {
    assert_eq!(rt;
        "uge".parse::<IntCC>().ok().ok_or("a name")?,
        IntCC::UnsignedLessThan.complement()
    );
    assert!(rt; "lt".parse::<IntCC>().is_err());
    assert!(rt;
        Cond::from_intcc(IntCC::Equal)
            .invert()
            .to_string(rt.alloc())?
            .as_str()
            == "ne"
    );
    Ok(())
}
