ghost use Rattle.std.specs.Prelude.{◌≤◌};

pub mod accessing;
mod buffer;
pub mod closing;
pub mod labels;
pub mod opening;
pub mod promised;
pub mod sizes;
pub mod writing;

use book::label_book::LabelBook;
use book::use_book::UseBook;
use refusal::Refusal;
use std::marker::PhantomData;

/// A label that was reserved and is to be bound or given up. It cannot be let go.
pub struct Promise {
    label: usize,
}

/// Why a promise was not taken, and the promise.
pub struct Unkept {
    pub refusal: Refusal,
    pub promise: Promise,
}

/// A code section. The code itself lies in a buffer that each call is lent: `room` bytes, of which `len` are written. Labels and symbols each
/// have a family of fields.
#[derive(Drop)]
pub struct Section<L, S> {
    room: usize,
    len: usize,
    labels: LabelBook,
    uses: UseBook,
    label_family: PhantomData<L>,
    symbol_family: PhantomData<S>,
    ghost within: { len ≤ room },
    ghost small: { room ≤ 1048576 },
}

/// Finished code: how many bytes of the buffer it has, and where its labels lie.
#[derive(Drop)]
pub struct Finished {
    count: usize,
    labels: LabelBook,
}

/// Why a section was not closed, and the section.
pub struct Unclosed<L, S> {
    pub refusal: Refusal,
    pub section: Section<L, S>,
}
