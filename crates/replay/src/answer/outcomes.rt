use crate::answer::Answer;
use refusal::{Reason, Refusal};
use std::fmt;

impl Answer for () {
    fn write<W: fmt::Write>(&self, f: &mut fmt::Formatter<W>) -> fmt::Result {
        f.write_str("ok")
    }
}

impl<T: Answer> Answer for Option<T> {
    fn write<W: fmt::Write>(&self, f: &mut fmt::Formatter<W>) -> fmt::Result {
        match self {
            Some(answer) => answer.write(f),
            None => f.write_str("none"),
        }
    }
}

impl<T: Answer, E: Answer> Answer for Result<T, E> {
    fn write<W: fmt::Write>(&self, f: &mut fmt::Formatter<W>) -> fmt::Result {
        match self {
            Ok(answer) => answer.write(f),
            Err(refusal) => refusal.write(f),
        }
    }
}

impl Answer for Reason {
    fn write<W: fmt::Write>(&self, f: &mut fmt::Formatter<W>) -> fmt::Result {
        let number = self.number();
        write!(f, "refused {number}")
    }
}

impl Answer for Refusal {
    fn write<W: fmt::Write>(&self, f: &mut fmt::Formatter<W>) -> fmt::Result {
        self.reason.write(f)
    }
}
