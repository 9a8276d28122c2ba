use hex::FromHexError;
use std::{fmt, io};

/// What is wrong with a line.
#[derive(Clone, Copy, PartialEq, Eq, Debug)]
pub enum Fault {
    UnknownCommand,
    MissingArgument,
    TooManyArguments,
    NotNumber,
    /// of the type that has this name
    OutOfRange(&'static str),
    OutsideUImm12,
    OutsideSImm20,
    NotRegister,
    NotCondition,
    BadFlags,
    UnknownAddress,
    UnknownForm,
    NotBytes,
}

impl From<FromHexError> for Fault {
    fn from(_: FromHexError) -> Fault {
        Fault::NotBytes
    }
}

/// Why a command has no answer: its line is wrong, or the answer cannot be written.
#[derive(Drop)]
pub enum Stop {
    Fault(Fault),
    Output(io::Error),
}

impl From<Fault> for Stop {
    fn from(fault: Fault) -> Stop {
        Stop::Fault(fault)
    }
}

impl From<io::Error> for Stop {
    fn from(error: io::Error) -> Stop {
        Stop::Output(error)
    }
}

/// A fault with the word that it was found at.
#[derive(Clone, Copy, PartialEq, Eq, Debug)]
pub struct Found<'a> {
    pub fault: Fault,
    pub word: &'a str,
}

impl<'a> fmt::Display for Found<'a> {
    fn fmt<W: fmt::Write>(&self, f: &mut fmt::Formatter<W>) -> fmt::Result {
        let word = self.word;
        match self.fault {
            Fault::UnknownCommand => write!(f, "unknown command {word}"),
            Fault::MissingArgument => f.write_str("missing argument"),
            Fault::TooManyArguments => f.write_str("too many arguments"),
            Fault::NotNumber => write!(f, "not a number: {word}"),
            Fault::OutOfRange(of) => write!(f, "{word} out of range of {of}"),
            Fault::OutsideUImm12 => f.write_str("outside UImm12"),
            Fault::OutsideSImm20 => f.write_str("outside SImm20"),
            Fault::NotRegister => write!(f, "not a register: {word}"),
            Fault::NotCondition => write!(f, "unknown IntCC {word}"),
            Fault::BadFlags => write!(f, "bad flags {word}"),
            Fault::UnknownAddress => write!(f, "unknown address form {word}"),
            Fault::UnknownForm => write!(f, "unknown form {word}"),
            Fault::NotBytes => write!(f, "not bytes: {word}"),
        }
    }
}
