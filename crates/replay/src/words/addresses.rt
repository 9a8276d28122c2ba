use crate::fault::Fault;
use crate::words::{Args, Argument};
use address::args::{MachMemFlags, MemArg, MemInstType};
use address::frame::Frame;

/// `a` aligned or `u` unaligned, with the trap code, 0 for none.
fn flags(word: &str) -> Option<MachMemFlags> {
    let (alignment, digits) = word.split_at_checked(1)?;
    let trap = digits.parse::<u8>().ok()?;
    match alignment {
        "a" => Some(MachMemFlags {
            aligned: true,
            trap,
        }),
        "u" => Some(MachMemFlags {
            aligned: false,
            trap,
        }),
        _ => None,
    }
}

impl Argument for MachMemFlags {
    fn read(args: &mut Args) -> Result<MachMemFlags, Fault> {
        flags(args.word()?).ok_or(Fault::BadFlags)
    }
}

impl Argument for MemInstType {
    fn read(args: &mut Args) -> Result<MemInstType, Fault> {
        Ok(MemInstType {
            have_d12: args.read()?,
            have_d20: args.read()?,
            have_pcrel: args.read()?,
            have_unaligned_pcrel: args.read()?,
            have_index: args.read()?,
        })
    }
}

impl Argument for Frame {
    fn read(args: &mut Args) -> Result<Frame, Fault> {
        Ok(Frame {
            nominal_sp_offset: args.read()?,
            outgoing_sp_offset: args.read()?,
            incoming_args_size: args.read()?,
            clobber_size: args.read()?,
            fixed_frame_storage_size: args.read()?,
            stackslots_size: args.read()?,
            outgoing_args_size: args.read()?,
        })
    }
}

impl Argument for MemArg {
    fn read(args: &mut Args) -> Result<MemArg, Fault> {
        Ok(match args.word()? {
            "bxd12" => MemArg::BXD12 {
                base: args.read()?,
                index: args.read()?,
                disp: args.read()?,
                flags: args.read()?,
            },
            "bxd20" => MemArg::BXD20 {
                base: args.read()?,
                index: args.read()?,
                disp: args.read()?,
                flags: args.read()?,
            },
            "reg" => MemArg::RegOffset {
                reg: args.read()?,
                off: args.read()?,
                flags: args.read()?,
            },
            "label" => MemArg::Label {
                target: args.read()?,
            },
            "const" => MemArg::Constant {
                constant: args.read()?,
            },
            "sym" => MemArg::Symbol {
                name: args.read()?,
                offset: args.read()?,
                flags: args.read()?,
            },
            "isp" => MemArg::InitialSPOffset { off: args.read()? },
            "inarg" => MemArg::IncomingArgOffset { off: args.read()? },
            "outarg" => MemArg::OutgoingArgOffset { off: args.read()? },
            "slot" => MemArg::SlotOffset { off: args.read()? },
            "spill" => MemArg::SpillOffset { off: args.read()? },
            _ => return Err(Fault::UnknownAddress),
        })
    }
}
