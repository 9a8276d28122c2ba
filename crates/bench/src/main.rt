//! Writes instructions of a realistic mix by a catalogue, reads each back, and tells the time of both on the standard error stream.
//! The number of instructions is the first argument, a million where there is none.

#![tactic(auto)]

use catalogue::catalogue::Catalogue;
use codec::encode::Encoded;
use form::Form;
use form::instr::Instr;
use std::time::Instant;
use std::{env, io};

/// The mix: loads, stores, arithmetic, compares, branches, and a vector instruction.
const MIX: [Instr; 10] = [
    Instr {
        form: Form::Rxy,
        opcode: 0xe304,
        operands: [2, 15, 0, 160, 0, 0],
    },
    Instr {
        form: Form::Rxy,
        opcode: 0xe324,
        operands: [2, 15, 0, -8, 0, 0],
    },
    Instr {
        form: Form::Rx,
        opcode: 0x58,
        operands: [1, 2, 3, 0x123, 0, 0],
    },
    Instr {
        form: Form::Rre,
        opcode: 0xb904,
        operands: [2, 3, 0, 0, 0, 0],
    },
    Instr {
        form: Form::RiA,
        opcode: 0xa79,
        operands: [2, 350, 0, 0, 0, 0],
    },
    Instr {
        form: Form::RilA,
        opcode: 0xc2e,
        operands: [3, 500, 0, 0, 0, 0],
    },
    Instr {
        form: Form::RiC,
        opcode: 0xa74,
        operands: [2, -10, 0, 0, 0, 0],
    },
    Instr {
        form: Form::RilC,
        opcode: 0xc04,
        operands: [8, 4096, 0, 0, 0, 0],
    },
    Instr {
        form: Form::Rr,
        opcode: 0x07,
        operands: [15, 14, 0, 0, 0, 0],
    },
    Instr {
        form: Form::Vrx,
        opcode: 0xe706,
        operands: [17, 2, 0, 16, 0, 0],
    },
];

fn mixed(heap: std::alloc::Global) -> Option<Catalogue> {
    let mut catalogue = Catalogue::new(heap).ok()?;
    for instr in MIX {
        let _ = catalogue.admit(instr.entry());
    }
    Some(catalogue)
}

/// The instruction of this turn.
fn instr_of(turn: u32) -> Instr {
    MIX[turn as usize % 10]
}

/// Writes the instruction of this turn.
fn written(catalogue: &Catalogue, turn: u32) -> Option<Encoded> {
    catalogue.write(0, &instr_of(turn)).ok()
}

/// Writes so many instructions, and answers how many were accepted.
fn write_all(catalogue: &Catalogue, count: u32) -> usize {
    (0..count)
        .filter(|turn| written(catalogue, *turn).is_some())
        .count()
}

/// Whether the bytes are read as the instruction of this turn.
fn is_read(catalogue: &Catalogue, turn: u32, code: &Encoded) -> bool {
    let (answer, _) = catalogue.read_one(code.as_slice(), 0);
    matches!(answer, Ok(Some(read)) if read.instr == instr_of(turn))
}

/// Reads so many instructions, and answers how many were as written.
fn read_all(catalogue: &Catalogue, codes: &[Encoded], count: u32) -> usize {
    (0..count)
        .filter(|turn| {
            codes
                .get(*turn as usize % 10)
                .is_some_and(|code| is_read(catalogue, *turn, code))
        })
        .count()
}

fn wanted(rt: &HostRuntime) -> io::Result<u32> {
    let text = env::args(rt)?.nth(1);
    Ok(text.and_then(|text| text.parse().ok()).unwrap_or(1_000_000))
}

fn main(rt: HostRuntime) -> io::Result<()> {
    let count = wanted(&rt)?;
    let Some(catalogue) = mixed(rt.alloc()) else {
        return eprintln!(rt; "no memory");
    };
    let mut codes: Vec<Encoded> = Vec::new(rt.alloc());
    for turn in 0..10 {
        if let Some(code) = written(&catalogue, turn) {
            codes.push(code)?;
        }
    }
    let start = Instant::now(&rt)?;
    let accepted = write_all(&catalogue, count);
    let writing = start.elapsed(&rt)?.as_millis();
    let start = Instant::now(&rt)?;
    let same = read_all(&catalogue, &codes, count);
    let reading = start.elapsed(&rt)?.as_millis();
    eprintln!(rt; "writing {writing} ms, reading {reading} ms, for {count} instructions each")?;
    println!(rt; "{accepted} instructions written, {same} read back as written")
}
