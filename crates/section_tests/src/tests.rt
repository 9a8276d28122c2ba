use address::access::{Access, MemAccess};
use address::args::{MachMemFlags, MemArg};
use address::frame::Frame;
use catalogue::catalogue::Catalogue;
use families::labels::Labels;
use families::relocations::Relocations;
use form::Form;
use form::instr::{Entry, Instr};
use operand::reg::gpr;
use reader::Reader;
use refusal::{Reason, Refusal};
use section::section::{Finished, Section, Unclosed};
use std::test::Fail;

type Code = Section<Labels, Relocations>;

/// Why it was refused, none where it was not.
fn refused(r: Result<(), Refusal>) -> Option<Reason> {
    r.err().map(|refusal| refusal.reason)
}

/// How a close was refused, or the length of the code; the section that is handed back is let go.
fn closed(r: Result<Finished, Unclosed<Labels, Relocations>>) -> Result<usize, Refusal> {
    match r {
        Ok(done) => Ok(done.len()),
        Err(unclosed) => {
            let Unclosed {
                refusal,
                section: _,
            } = unclosed;
            Err(refusal)
        }
    }
}

fn mixed(heap: std::alloc::Global) -> Option<Catalogue> {
    let mut c = Catalogue::new(heap).ok()?;
    let _ = c.admit(Entry::new(Form::Sil, 0xe544));
    let _ = c.admit(Entry::new(Form::RilB, 0xc48));
    let _ = c.admit(Entry::new(Form::Rr, 0x07));
    Some(c)
}

/// RR 0x07 with two registers.
fn bcr(first: i64, second: i64) -> Instr {
    Instr::new(Entry::new(Form::Rr, 0x07), [first, second, 0, 0, 0, 0])
}

/// A halfword is stored far from register 2, a doubleword is loaded from a symbol, and the routine returns.
fn routine(s: &mut Code, c: &Catalogue, code: &mut [u8]) -> Result<(), Refusal> {
    let store = MemAccess {
        access: Access::MemImm16 {
            imm: -1,
            sil: 0xe544,
        },
        may_trap: false,
        mem: MemArg::reg_plus_off(gpr(2), 524288, MachMemFlags::trusted()),
        frame: &Frame::EMPTY,
    };
    s.access(c, code, &store)?;
    let load = MemAccess {
        access: Access::Mem {
            rd: gpr(2),
            rx: None,
            rxy: None,
            ril: Some(0xc48),
        },
        may_trap: false,
        mem: MemArg::Symbol {
            name: 0,
            offset: 8,
            flags: MachMemFlags::trusted(),
        },
        frame: &Frame::EMPTY,
    };
    s.access(c, code, &load)?;
    s.put(c, code, &bcr(15, 14))
}

#[test]
fn closes(rt: HostRuntime) -> Result<(), Fail> {
    let c = mixed(rt.alloc()).ok_or("memory")?;
    let mut code = [0u8; 24];
    let mut s = Code::open(&code, rt.alloc()).ok().ok_or("open")?;
    assert!(rt; routine(&mut s, &c, &mut code).is_ok());
    // exactly full: nothing more fits
    assert!(rt; refused(s.put(&c, &mut code, &bcr(15, 14))) == Some(Reason::Room));
    assert!(rt; closed(s.close(&mut code, &[32])) == Ok(24));
    assert_eq!(rt;
        code,
        [
            0xc0, 0x11, 0x00, 0x08, 0x00, 0x00, 0x41, 0x11, 0x20, 0x00, 0xe5, 0x44, 0x10, 0x00,
            0xff, 0xff, 0xc4, 0x28, 0x00, 0x00, 0x00, 0x0c, 0x07, 0xfe,
        ]
    );
    Ok(())
}

#[test]
fn refuses(rt: HostRuntime) -> Result<(), Fail> {
    let c = mixed(rt.alloc()).ok_or("memory")?;
    let mut code = [0u8; 24];
    let mut other = [0u8; 22];
    let mut s = Code::open(&code, rt.alloc()).ok().ok_or("open")?;
    let unknown = Instr::new(Entry::new(Form::Rr, 0x999), [16, 14, 0, 0, 0, 0]);
    let uncatalogued = Instr::new(Entry::new(Form::Rr, 0x18), [16, 14, 0, 0, 0, 0]);
    let branch = Entry::new(Form::Rr, 0x07);
    let relative = Entry::new(Form::RilB, 0xc48);
    assert!(rt; refused(s.put(&c, &mut other, &unknown)) == Some(Reason::Buffer));
    assert!(rt; refused(s.put(&c, &mut code, &unknown)) == Some(Reason::Misfit));
    assert!(rt; refused(s.put(&c, &mut code, &uncatalogued)) == Some(Reason::Opcode));
    assert!(rt; refused(s.put(&c, &mut code, &bcr(16, 14))) == Some(Reason::Operand));
    assert!(rt; refused(s.put_to_label(&c, &mut code, branch, 1, 0)) == Some(Reason::Form));
    assert!(rt; refused(s.put_to_label(&c, &mut code, relative, 1, 0)) == Some(Reason::Label));
    assert!(rt; routine(&mut s, &c, &mut code).is_ok());
    // the symbol has no place: refused at the load, which stands at byte 16
    let refusal = closed(s.close(&mut code, &[])).err().ok_or("closed")?;
    assert!(rt; refusal.reason == Reason::Unbound && refusal.place == 16);
    assert!(rt; code[18] == 0 && code[21] == 0);
    Ok(())
}

#[test]
fn reads(rt: HostRuntime) -> Result<(), Fail> {
    let c = mixed(rt.alloc()).ok_or("memory")?;
    let code = [0x07, 0xfe, 0xc4, 0x28, 0x00, 0x00, 0x00, 0x0c, 0xb9];
    let mut r = Reader::new(&c, &code);
    assert!(rt; r.next().is_ok() && r.place() == 2);
    let load = r.next().ok().ok_or("read")?.ok_or("an instruction")?;
    assert!(rt; load.place == 2 && load.instr.opcode == 0xc48);
    assert_eq!(rt; load.instr.operands, [2, 24, 0, 0, 0, 0]);
    assert!(rt; r.next().is_err() && r.place() == 8);
    Ok(())
}
