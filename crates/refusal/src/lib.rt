#![tactic(auto)]

ghost use Rattle.std.specs.Prelude.{◌≡◌, Some};
ghost use Rattle.refusal.specs.Refusals.{number_of, layer_of, refused_at, distance_refused_at};
ghost use Rattle.refusal.specs.Names.{reason_text, layer_text, refusal_text};

use std::fmt;

/// Why a call was refused.
#[derive(Clone, Copy, PartialEq, Eq, Debug)]
pub enum Reason {
    Buffer = 1,
    Kind = 2,
    Misfit = 3,
    Clash = 4,
    Opcode = 5,
    Operand = 6,
    Frame = 7,
    Temporary = 8,
    Unbound = 9,
    Far = 10,
    Form = 11,
    Label = 12,
    Odd = 13,
    Constant = 14,
    Full = 15,
    Room = 16,
    Cut = 17,
    Unknown = 18,
    Unused = 19,
    /// want of memory, met only where something is opened or made
    Memory = 100,
}

/// The layer that refused.
#[derive(Clone, Copy, PartialEq, Eq, Debug)]
pub enum Layer {
    Field,
    Form,
    Address,
    Reading,
    Section,
}

/// A refusal: why, at which byte, by which layer.
#[derive(Clone, Copy, PartialEq, Eq, Debug)]
pub struct Refusal {
    pub reason: Reason,
    pub place: usize,
    pub layer: Layer,
}

impl Reason {
    pub fn number(self) -> u8
        ensures { result ≡ number_of self }
    {
        self as u8
    }

    /// The layer that refuses for this reason, where no distance is refused.
    pub fn layer(self) -> Layer
        ensures { result ≡ layer_of self }
    {
        match self {
            Reason::Kind => Layer::Field,
            Reason::Misfit | Reason::Clash | Reason::Opcode | Reason::Operand => Layer::Form,
            Reason::Frame | Reason::Temporary | Reason::Unbound | Reason::Far => Layer::Address,
            Reason::Form | Reason::Label | Reason::Odd | Reason::Constant => Layer::Address,
            Reason::Cut | Reason::Unknown | Reason::Unused => Layer::Reading,
            Reason::Buffer | Reason::Full | Reason::Room | Reason::Memory => Layer::Section,
        }
    }
}

/// A refusal by this layer.
fn refusal_by(layer: Layer, place: usize, reason: Reason) -> Refusal
    ensures layer { result.layer ≡ layer }
    ensures place { result.place ≡ place }
    ensures reason { result.reason ≡ reason }
{
    Refusal {
        reason,
        place,
        layer,
    }
}

impl Refusal {
    /// A refusal by the layer that refuses for this reason.
    pub fn at(place: usize, reason: Reason) -> Refusal
        ensures { result ≡ refused_at place reason }
    {
        refusal_by(reason.layer(), place, reason)
    }

    /// A distance's refusal.
    pub fn of_distance(place: usize, reason: Reason) -> Refusal
        ensures { result ≡ distance_refused_at place reason }
    {
        refusal_by(Layer::Field, place, reason)
    }
}

impl fmt::Display for Reason {
    ghost output = { λ x. Some (reason_text x) };

    fn fmt<W: fmt::Write>(&self, f: &mut fmt::Formatter<W>) -> fmt::Result {
        match self {
            Reason::Buffer => f.write_str("BUFFER"),
            Reason::Kind => f.write_str("KIND"),
            Reason::Misfit => f.write_str("MISFIT"),
            Reason::Clash => f.write_str("CLASH"),
            Reason::Opcode => f.write_str("OPCODE"),
            Reason::Operand => f.write_str("OPERAND"),
            Reason::Frame => f.write_str("FRAME"),
            Reason::Temporary => f.write_str("TEMPORARY"),
            Reason::Unbound => f.write_str("UNBOUND"),
            Reason::Far => f.write_str("FAR"),
            Reason::Form => f.write_str("FORM"),
            Reason::Label => f.write_str("LABEL"),
            Reason::Odd => f.write_str("ODD"),
            Reason::Constant => f.write_str("CONSTANT"),
            Reason::Full => f.write_str("FULL"),
            Reason::Room => f.write_str("ROOM"),
            Reason::Cut => f.write_str("CUT"),
            Reason::Unknown => f.write_str("UNKNOWN"),
            Reason::Unused => f.write_str("UNUSED"),
            Reason::Memory => f.write_str("MEMORY"),
        }
    }
}

impl fmt::Display for Layer {
    ghost output = { λ x. Some (layer_text x) };

    fn fmt<W: fmt::Write>(&self, f: &mut fmt::Formatter<W>) -> fmt::Result {
        match self {
            Layer::Field => f.write_str("field"),
            Layer::Form => f.write_str("form"),
            Layer::Address => f.write_str("address"),
            Layer::Reading => f.write_str("reading"),
            Layer::Section => f.write_str("section"),
        }
    }
}

impl fmt::Display for Refusal {
    ghost output = { λ x. Some (refusal_text x) };

    fn fmt<W: fmt::Write>(&self, f: &mut fmt::Formatter<W>) -> fmt::Result {
        let reason = self.reason;
        let number = reason.number();
        let place = self.place;
        let layer = self.layer;
        write!(f, "{number} {reason} at byte {place} ({layer})")
    }
}
