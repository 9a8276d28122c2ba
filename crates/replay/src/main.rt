//! Answers commands from the standard input, one a line, with one line each on the standard output, so that any list of commands can be
//! compared with the answers of another implementation of the same calls.
//!
//! A line is a command and its arguments, separated by blanks; `#` begins a comment, and a line without words has no answer. An answer is a
//! value, `none`, `refused` and the number of the refusal, or `error` and what is wrong with the line.
//!
//! `state` sets the frame for the lines after it. `mem_emit`, `mem_rs_emit`, `mem_imm8_emit`, `mem_imm16_emit` and `mem_vrx_emit` plan an access,
//! with the opcodes as they are given, and answer the bytes of each instruction, then `use=PLACE:LABEL:2` or `reloc=PLACE:SYMBOL:ADDEND` for what
//! is aimed, without trap records.
//!
//! `admit FORM OPCODE` adds an opcode to the catalogue, which holds LGFI, LA, LAY and LARL at the start, and answers `ok`. `read BYTES` reads the
//! instruction that up to eight bytes begin with, and answers its form, opcode and six operands; `read -` has no bytes, and answers `none`.

#![tactic(auto)]

use address::frame::Frame;
use catalogue::catalogue::Catalogue;
use fault::{Fault, Found, Stop};
use refusal::Refusal;
use std::alloc::Global;
use std::io;
use std::io::{BufRead, BufReader};
use words::Args;

mod addresses;
mod answer;
mod conditions;
mod encoders;
mod entries;
mod fault;
mod forms;
mod immediates;
mod registers;
mod words;

/// That a command's answer is written, or why it is not.
type Answered = Result<(), Stop>;

/// What stays from one line to the next.
#[derive(Drop)]
struct State {
    /// the frame that offsets are counted in; all its parts are 0 at the start
    frame: Frame,
    catalogue: Catalogue,
}

impl State {
    fn new(heap: Global) -> Result<State, Refusal> {
        Ok(State {
            frame: Frame::EMPTY,
            catalogue: Catalogue::new(heap)?,
        })
    }
}

/// Hands a command to the group that its name belongs to: a command is text, so a match finds it.
fn dispatch(state: &mut State, name: &str, args: &mut Args) -> Answered {
    let (group, call) = name.split_once('_').unwrap_or((name, ""));
    match group {
        "enc" => encoders::answer(name, args),
        "rxb" | "machreg" => registers::answer(name, args),
        "uimm12" | "simm20" => immediates::displacement(name, args),
        "u16s" => immediates::shifted::<u16>(call, args),
        "u32s" => immediates::shifted::<u32>(call, args),
        "cond" => conditions::mask(name, args),
        "intcc" => conditions::comparison(name, args),
        "state" | "mem" | "memarg" => addresses::answer(state, name, args),
        "admit" | "read" => entries::answer(&mut state.catalogue, name, args),
        _ => Err(Fault::UnknownCommand.into()),
    }
}

/// Answers a line, if it has words.
fn respond(rt: &HostRuntime, state: &mut State, line: &str) -> io::Result<()> {
    let (text, _) = line.split_once('#').unwrap_or((line, ""));
    let mut args = Args::new(rt, text);
    let Ok(name) = args.word() else {
        return Ok(());
    };
    match dispatch(state, name, &mut args) {
        Ok(()) => Ok(()),
        Err(Stop::Output(error)) => Err(error),
        Err(Stop::Fault(fault)) => {
            let found = Found {
                fault,
                word: args.last(),
            };
            println!(rt; "error {found}")
        }
    }
}

fn main(rt: HostRuntime) -> io::Result<()> {
    let Ok(mut state) = State::new(rt.alloc()) else {
        return println!(rt; "no memory");
    };
    for line in BufReader::new(rt.alloc(), rt.stdin())?.split(rt.alloc(), b'\n') {
        match std::str::from_utf8(line?.as_slice()) {
            Ok(text) => respond(&rt, &mut state, text)?,
            Err(_) => println!(rt; "error not text")?,
        }
    }
    Ok(())
}
