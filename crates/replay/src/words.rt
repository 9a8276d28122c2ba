use crate::Answered;
use crate::answer::{Answer, Shown};
use crate::fault::Fault;
use std::io;
use std::iter::Peekable;
use std::str::SplitWhitespace;

mod addresses;
mod instructions;
mod lists;
mod numbers;
mod operands;

pub use instructions::Bytes;

/// The words of a line that are yet to be read, and the last one that was.
#[derive(Drop)]
pub struct Args<'a> {
    rt: &'a HostRuntime,
    words: Peekable<SplitWhitespace<'a>>,
    last: &'a str,
}

/// What can be read from the next words of a line.
pub trait Argument: Drop {
    fn read(args: &mut Args) -> Result<Self, Fault>;
}

/// Writes an answer as a line; apart, so that the stack holds a line's buffer only while it is written.
#[inline(never)]
fn write_line<R: Answer>(rt: &HostRuntime, answer: R) -> io::Result<()> {
    let shown = Shown(answer);
    println!(rt; "{shown}")
}

/// `-` is none.
impl<T: Argument> Argument for Option<T> {
    fn read(args: &mut Args) -> Result<Option<T>, Fault> {
        if args.words.next_if_eq(&"-").is_some() {
            return Ok(None);
        }
        args.read().map(Some)
    }
}

impl<'a> Args<'a> {
    pub fn new(rt: &'a HostRuntime, text: &'a str) -> Args<'a> {
        Args {
            rt,
            words: text.split_whitespace().peekable(),
            last: "",
        }
    }

    pub fn word(&mut self) -> Result<&'a str, Fault> {
        let word = self.words.next().ok_or(Fault::MissingArgument)?;
        self.last = word;
        Ok(word)
    }

    pub fn last(&self) -> &'a str {
        self.last
    }

    pub fn read<T: Argument>(&mut self) -> Result<T, Fault> {
        T::read(self)
    }

    /// Calls with the arguments that the next words are, and writes the answer if no word is left.
    pub(crate) fn answer<T: Argument, R: Answer, F: FnOnce(T) -> R>(&mut self, call: F) -> Answered
        requires { F.IsAlwaysCallable call }
    {
        let answer = call(self.read()?);
        self.end()?;
        Ok(write_line(self.rt, answer)?)
    }

    /// That every word has been read.
    pub fn end(&mut self) -> Result<(), Fault> {
        match self.words.next() {
            Some(_) => Err(Fault::TooManyArguments),
            None => Ok(()),
        }
    }
}
