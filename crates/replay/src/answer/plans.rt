use crate::answer::Answer;
use crate::answer::instructions::hex;
use address::access::{AccessPlan, Aimed};
use book::target::Target;
use codec::encode::{Encoded, encode};
use refusal::Reason;
use std::fmt;

/// An instruction of a plan as bytes, and its place in the plan.
#[derive(Clone, Copy)]
struct Written {
    place: usize,
    code: Encoded,
    aim: Option<Target>,
}

/// A plan as bytes: its helpers, where there are such, and its access.
#[derive(Clone, Copy)]
pub struct WrittenPlan([Option<Written>; 3]);

impl Written {
    fn new(place: usize, item: Aimed) -> Result<Written, Reason> {
        let code = encode(&item.instr)?;
        Ok(Written {
            place,
            code,
            aim: item.aim,
        })
    }

    fn bytes(&self) -> &[u8] {
        self.code.as_slice()
    }

    /// The place behind it.
    fn end(&self) -> usize {
        self.place.saturating_add(self.bytes().len())
    }
}

impl WrittenPlan {
    pub fn new(plan: &AccessPlan) -> Result<WrittenPlan, Reason> {
        let mut written = [None; 3];
        let mut place = 0;
        let items = [plan.first, plan.second, Some(plan.access)];
        for (slot, item) in written.iter_mut().zip(items.iter().flatten()) {
            let instr = Written::new(place, *item)?;
            place = instr.end();
            *slot = Some(instr);
        }
        Ok(WrittenPlan(written))
    }
}

/// What an instruction is aimed at, if it is, and where its field lies.
impl Answer for Written {
    fn write<W: fmt::Write>(&self, f: &mut fmt::Formatter<W>) -> fmt::Result {
        let place = self.place;
        match self.aim {
            Some(Target::Label(label)) => write!(f, " use={place}:{label}:2"),
            Some(Target::Symbol(name, offset)) => {
                let field = place.saturating_add(2);
                let addend = i64::from(offset) + 2;
                write!(f, " reloc={field}:{name}:{addend}")
            }
            None => Ok(()),
        }
    }
}

/// The bytes of each instruction, and then what they are aimed at.
impl Answer for WrittenPlan {
    fn write<W: fmt::Write>(&self, f: &mut fmt::Formatter<W>) -> fmt::Result {
        for (i, instr) in self.0.iter().flatten().enumerate() {
            if i > 0 {
                f.write_str(" ")?;
            }
            hex(instr.bytes(), f)?;
        }
        for instr in self.0.iter().flatten() {
            instr.write(f)?;
        }
        Ok(())
    }
}
