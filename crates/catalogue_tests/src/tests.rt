use catalogue::catalogue::Catalogue;
use codec::encode::Encoded;
use form::Form;
use form::instr::{Entry, Instr, Placed};
use refusal::{Layer, Reason, Refusal};
use std::test::Fail;

/// Why it was refused, if it was.
fn refused<T: Drop>(answer: Result<T, Refusal>) -> Option<Reason> {
    answer.err().map(|e| e.reason)
}

fn is_at(answer: Result<Encoded, Refusal>, place: usize) -> bool {
    answer
        .err()
        .is_some_and(|e| e.place == place && e.layer == Layer::Form)
}

/// The instruction of this form and opcode.
fn instr(form: Form, opcode: u16, operands: [i64; 6]) -> Instr {
    Instr::new(Entry::new(form, opcode), operands)
}

#[test]
fn admits(rt: HostRuntime) -> Result<(), Fail> {
    let mut c = Catalogue::new(rt.alloc()).ok().ok_or("memory")?;
    // more digits than the row has; a first byte that means another length
    assert!(rt; refused(c.admit(Entry::new(Form::Rx, 0x141))) == Some(Reason::Misfit));
    assert!(rt; refused(c.admit(Entry::new(Form::Rx, 0xc1))) == Some(Reason::Misfit));
    assert!(rt; refused(c.admit(Entry::new(Form::E, 0x4100))) == Some(Reason::Misfit));
    // the same opcode, also under another form; the rest of the opcode in other digits
    assert!(rt; refused(c.admit(Entry::new(Form::Rx, 0x41))) == Some(Reason::Clash));
    assert!(rt; refused(c.admit(Entry::new(Form::Rs, 0x41))) == Some(Reason::Clash));
    assert!(rt; refused(c.admit(Entry::new(Form::Rsy, 0xe371))) == Some(Reason::Clash));
    assert!(rt; refused(c.admit(Entry::new(Form::Sil, 0xe344))) == Some(Reason::Clash));
    // another first byte, though the numbers are alike
    assert!(rt; refused(c.admit(Entry::new(Form::E, 0x0041))).is_none());
    assert!(rt; refused(c.admit(Entry::new(Form::RiC, 0xa74))).is_none());
    assert!(rt; refused(c.admit(Entry::new(Form::E, 0x0a74))).is_none());
    // RR 0x0a has its whole opcode in the first byte, which 0x0a74 has too
    assert!(rt; refused(c.admit(Entry::new(Form::Rr, 0x0a))) == Some(Reason::Clash));
    assert!(rt; c.holds(Entry::new(Form::RiC, 0xa74)) && !c.holds(Entry::new(Form::RiB, 0xa74)));
    Ok(())
}

#[test]
fn fills(rt: HostRuntime) -> Result<(), Fail> {
    let mut c = Catalogue::new(rt.alloc()).ok().ok_or("memory")?;
    let mut taken = 0u32;
    for low in 0..256u16 {
        if refused(c.admit(Entry::new(Form::Rre, 0xb900 | low))).is_none() {
            taken = taken.saturating_add(1);
        }
        if refused(c.admit(Entry::new(Form::Rre, 0xb200 | low))).is_none() {
            taken = taken.saturating_add(1);
        }
    }
    assert_eq!(rt; taken, 508);
    assert!(rt; refused(c.admit(Entry::new(Form::Rr, 0x18))) == Some(Reason::Full));
    assert!(rt; refused(c.admit(Entry::new(Form::Rx, 0x41))) == Some(Reason::Clash));
    assert!(rt; refused(c.admit(Entry::new(Form::Rx, 0x141))) == Some(Reason::Misfit));
    Ok(())
}

#[test]
fn writes(rt: HostRuntime) -> Result<(), Fail> {
    let mut c = Catalogue::new(rt.alloc()).ok().ok_or("memory")?;
    assert!(rt;
        refused(c.write(8, &instr(Form::Rx, 0x141, [99, 0, 0, 0, 0, 0]))) == Some(Reason::Misfit)
    );
    assert!(rt;
        refused(c.write(8, &instr(Form::Rx, 0x58, [99, 0, 0, 0, 0, 0]))) == Some(Reason::Opcode)
    );
    assert!(rt; refused(c.admit(Entry::new(Form::Rx, 0x58))).is_none());
    assert!(rt;
        refused(c.write(8, &instr(Form::Rx, 0x58, [16, 0, 0, 0, 0, 0]))) == Some(Reason::Operand)
    );
    assert!(rt;
        refused(c.write(8, &instr(Form::Rx, 0x58, [1, 2, 3, 4096, 0, 0]))) == Some(Reason::Operand)
    );
    assert!(rt;
        refused(c.write(8, &instr(Form::Rx, 0x58, [1, 2, 3, 4, 1, 0]))) == Some(Reason::Operand)
    );
    assert!(rt; is_at(c.write(8, &instr(Form::Rx, 0x58, [1, 2, 3, -1, 0, 0])), 8));
    let e = c
        .write(8, &instr(Form::Rx, 0x58, [1, 2, 3, 0x123, 0, 0]))
        .ok()
        .ok_or("RX")?;
    assert!(rt; e.len() == 4);
    assert_eq!(rt; e.as_slice(), [0x58, 0x13, 0x21, 0x23].as_slice());
    assert_eq!(rt; e.bytes(), [0x58, 0x13, 0x21, 0x23, 0, 0]);
    let far = c
        .write(0, &instr(Form::RilB, 0xc00, [1, -4294967296, 0, 0, 0, 0]))
        .ok()
        .ok_or("RIL-b")?;
    assert_eq!(rt; far.as_slice(), [0xc0, 0x10, 0x80, 0, 0, 0].as_slice());
    assert!(rt;
        refused(c.write(0, &instr(Form::RilB, 0xc00, [1, 4294967296, 0, 0, 0, 0])))
            == Some(Reason::Operand)
    );
    assert!(rt;
        refused(c.write(0, &instr(Form::RilB, 0xc00, [1, 3, 0, 0, 0, 0]))) == Some(Reason::Operand)
    );
    Ok(())
}

fn read(c: &Catalogue, bytes: &[u8]) -> Result<Option<Placed>, Refusal> {
    c.read_one(bytes, 6).0
}

#[test]
fn reads(rt: HostRuntime) -> Result<(), Fail> {
    let mut c = Catalogue::new(rt.alloc()).ok().ok_or("memory")?;
    assert!(rt; refused(c.admit(Entry::new(Form::Rre, 0xb908))).is_none());
    assert!(rt; refused(c.admit(Entry::new(Form::Vrx, 0xe706))).is_none());
    assert!(rt; refused(read(&c, &[])).is_none());
    assert!(rt; refused(read(&c, &[0xb9, 0x08, 0x00])) == Some(Reason::Cut));
    assert!(rt; refused(read(&c, &[0xb9, 0x09, 0x10, 0x23])) == Some(Reason::Unknown));
    assert!(rt; refused(read(&c, &[0xb9, 0x08, 0x10, 0x23])) == Some(Reason::Unused));
    // a bit of RXB that belongs to no vector register
    assert!(rt; refused(read(&c, &[0xe7, 0x10, 0x20, 0x10, 0x04, 0x06])) == Some(Reason::Unused));
    let vector = read(&c, &[0xe7, 0x10, 0x20, 0x10, 0x08, 0x06, 0xff])
        .ok()
        .ok_or("read")?
        .ok_or("VRX")?;
    assert_eq!(rt; vector.instr.operands, [17, 2, 0, 16, 0, 0]);
    assert!(rt; vector.place == 6 && vector.instr.opcode == 0xe706);
    let (_, rest) = c.read_one(&[0xb9, 0x08, 0x00, 0x23, 0x07], 0);
    assert_eq!(rt; rest.len(), 1);
    Ok(())
}
