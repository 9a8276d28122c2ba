use std::fmt;

mod addresses;
mod instructions;
mod operands;
mod outcomes;
mod plans;

pub use plans::WrittenPlan;

/// What a command answers, or a part of it, as a line shows it.
pub trait Answer: Copy {
    fn write<W: fmt::Write>(&self, f: &mut fmt::Formatter<W>) -> fmt::Result;
}

/// An answer as text.
#[derive(Clone, Copy)]
pub struct Shown<T>(pub T);

impl<T: Answer> fmt::Display for Shown<T> {
    fn fmt<W: fmt::Write>(&self, f: &mut fmt::Formatter<W>) -> fmt::Result {
        self.0.write(f)
    }
}
