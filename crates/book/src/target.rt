ghost use Rattle.std.specs.Prelude.{◌≡◌};
ghost use Rattle.book.specs.Labels.{is_usable};

/// What became of a label that was reserved.
#[derive(Clone, Copy, PartialEq, Eq, Debug)]
pub enum Slot {
    Waiting,
    /// at this place
    Bound(usize),
    GivenUp,
}

/// What a field is to reach: a label, or a symbol and an offset.
#[derive(Clone, Copy, PartialEq, Eq, Debug)]
pub enum Target {
    Label(usize),
    Symbol(usize, i32),
}

/// A field to fill: its instruction's place, the family's kind, and the target.
#[derive(Clone, Copy, PartialEq, Eq, Debug)]
pub struct Use {
    pub place: usize,
    // a number, since a book holds uses of two families
    pub kind: u8,
    pub target: Target,
}

impl Slot {
    /// Whether a use may name it: reserved and not given up.
    pub fn is_usable(self) -> bool
        ensures { result ≡ is_usable self }
    {
        matches!(self, Slot::Waiting | Slot::Bound(_))
    }
}
