//! Addresses and accesses on examples.

#![tactic(auto)]

#[cfg(test)]
mod tests {
    use access::plan::plan;
    use address::access::{Access, Aimed, MemAccess};
    use address::args::{Helpers, MachMemFlags, MemArg, MemInstType};
    use address::frame::Frame;
    use finalize::finalize::mem_finalize;
    use finalize::window::finalize_in_window;
    use operand::reg::{Reg, gpr, vr};
    use refusal::{Reason, Refusal};
    use std::test::Fail;

    fn offset(register: u8, off: i64) -> MemArg {
        MemArg::reg_plus_off(gpr(register), off, MachMemFlags::trusted())
    }

    fn frame(size: u32) -> Frame {
        Frame {
            incoming_args_size: size,
            clobber_size: size,
            fixed_frame_storage_size: size,
            stackslots_size: size,
            outgoing_args_size: size,
            nominal_sp_offset: size,
            outgoing_sp_offset: size,
        }
    }

    fn all() -> MemInstType {
        MemInstType {
            have_d12: true,
            have_d20: true,
            have_pcrel: true,
            have_unaligned_pcrel: true,
            have_index: true,
        }
    }

    fn width(mem: MemArg) -> u8 {
        match mem {
            MemArg::BXD12 { .. } => 12,
            MemArg::BXD20 { .. } => 20,
            _ => 0,
        }
    }

    // 12 or 20 for a displacement with no helper, 0 for any other answer.
    fn shown(answer: Result<(Helpers, MemArg), Refusal>) -> Result<u8, Reason> {
        let (helpers, mem) = answer.map_err(|refusal| refusal.reason)?;
        Ok(if helpers.first.is_some() {
            0
        } else {
            width(mem)
        })
    }

    // The same of an offset from a register, where everything is permitted.
    fn from(register: u8, off: i64) -> Result<u8, Reason> {
        shown(mem_finalize(&offset(register, off), &frame(0), all()))
    }

    fn is(a: Option<Aimed>, opcode: u16, first: i64, second: i64, third: i64) -> bool {
        a.is_some_and(|a| {
            let o = a.instr.operands;
            a.instr.opcode == opcode && o[0] == first && o[1] == second && o[2] == third
        })
    }

    // A load relative to the instruction, by no other form.
    fn relative(rd: Reg) -> Access {
        Access::Mem {
            rd,
            rx: None,
            rxy: None,
            ril: Some(0xC4F),
        }
    }

    // Why an access in an empty frame is refused, if it is.
    fn refused(access: Access, may_trap: bool, mem: MemArg, lost_label: bool) -> Option<Reason> {
        let request = MemAccess {
            access,
            may_trap,
            mem,
            frame: &frame(0),
        };
        plan(&request, lost_label).err()
    }

    #[test]
    fn from_a_register(rt: HostRuntime) {
        assert_eq!(rt; from(2, 4095), Ok(12));
        assert_eq!(rt; from(2, 4096), Ok(20));
        assert_eq!(rt; from(2, -1), Ok(20));
        assert_eq!(rt; from(1, 524287), Ok(20));
        assert_eq!(rt; from(1, 524288), Err(Reason::Temporary));
        assert_eq!(rt; from(2, 2147483648), Err(Reason::Far));
        assert_eq!(rt; from(1, 2147483648), Err(Reason::Temporary));
        assert_eq!(rt; from(16, 0), Err(Reason::Operand));
    }

    #[test]
    fn in_the_frame(rt: HostRuntime) {
        let mem = MemArg::IncomingArgOffset { off: 0 };
        assert_eq!(rt; shown(mem_finalize(&mem, &frame(787), all())), Ok(12));
        assert_eq!(rt; shown(mem_finalize(&mem, &frame(788), all())), Ok(20));
        assert_eq!(rt;
            shown(mem_finalize(&mem, &frame(0x8000_0000), all())),
            Err(Reason::Frame)
        );
        let out = MemArg::OutgoingArgOffset { off: 0 };
        assert_eq!(rt; shown(mem_finalize(&out, &frame(160), all())), Ok(12));
        assert_eq!(rt; shown(mem_finalize(&out, &frame(161), all())), Ok(20));
        let mut fr = frame(161);
        assert_eq!(rt;
            shown(finalize_in_window(&mut fr, 160, &out, all())),
            Ok(12)
        );
        assert!(rt; fr.outgoing_sp_offset == 161);
    }

    // SIL 0xE544 with -1 at 524,288 from register 2: LGFI 1, LA 1 and the access at register 1
    #[test]
    fn two_helpers(rt: HostRuntime) -> Result<(), Fail> {
        let request = MemAccess {
            access: Access::MemImm16 {
                imm: -1,
                sil: 0xE544,
            },
            may_trap: false,
            mem: offset(2, 524288),
            frame: &frame(0),
        };
        let p = plan(&request, false).map_err(|_| Fail::new("refused"))?;
        assert!(rt; is(p.first, 0xC01, 1, 524288, 0));
        assert!(rt; is(p.second, 0x41, 1, 2, 1));
        assert!(rt; is(Some(p.access), 0xE544, 1, 0, -1));
        Ok(())
    }

    #[test]
    fn refusals_in_order(rt: HostRuntime) {
        let flags = MachMemFlags {
            aligned: false,
            trap: 1,
        };
        let symbol = MemArg::Symbol {
            name: 0,
            offset: 3,
            flags,
        };
        // relative, and no integer register
        assert_eq!(rt;
            refused(relative(vr(3)), false, symbol, false),
            Some(Reason::Operand)
        );
        // not relative where it may trap, and then no form for a displacement
        assert_eq!(rt;
            refused(relative(vr(3)), true, symbol, false),
            Some(Reason::Form)
        );
        let load = relative(gpr(3));
        assert_eq!(rt; refused(load, false, symbol, true), Some(Reason::Label));
        assert_eq!(rt; refused(load, false, symbol, false), Some(Reason::Odd));
        let constant = MemArg::Constant { constant: 0 };
        assert_eq!(rt;
            refused(load, false, constant, false),
            Some(Reason::Constant)
        );
        let label = MemArg::Label { target: 0 };
        assert_eq!(rt; refused(load, false, label, false), None);
        let vector = Access::MemVrx {
            rd: vr(31),
            opcode: 0xE706,
            m3: 16,
        };
        assert_eq!(rt;
            refused(vector, false, offset(2, 0), false),
            Some(Reason::Operand)
        );
    }
}
