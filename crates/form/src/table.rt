ghost use Rattle.std.specs.Prelude.{◌≡◌, Some};
ghost use Rattle.form.specs.Form.{kinds as kinds_of, size as size_of, opcode_digits as opcode_digits_of, form_number};
ghost use Rattle.form.specs.Table.{places, form_text};

use crate::{Form, OperandKind};
use std::fmt;

/// Which digits of a row are the opcode's: 0 and 1; 0, 1 and 3; 0 to 3; or 0, 1, 10 and 11.
#[derive(Clone, Copy, PartialEq, Eq, Debug)]
pub enum OpcodeDigits {
    Two,
    Three,
    FourFront,
    FourEnds,
}

impl Form {
    /// A form's number, by which forms are told apart.
    pub fn number(self) -> u8
        ensures { result ≡ form_number self }
    {
        self as u8
    }

    /// How many bytes an instruction of this form has.
    pub fn size(self) -> usize
        ensures { result ≡ size_of self }
    {
        match self {
            Form::E | Form::Rr => 2,
            Form::RiA | Form::RiB | Form::RiC => 4,
            Form::Rrd | Form::Rre | Form::RrfAb | Form::RrfCde => 4,
            Form::Rs | Form::Rx | Form::Si => 4,
            Form::RieA | Form::RieD | Form::RieF | Form::RieG => 6,
            Form::RilA | Form::RilB | Form::RilC => 6,
            Form::Rsy | Form::Rxy | Form::Sil | Form::Siy => 6,
            Form::VriA | Form::VriB | Form::VriC | Form::VriK => 6,
            Form::VrrA | Form::VrrB | Form::VrrC | Form::VrrD | Form::VrrE | Form::VrrF => 6,
            Form::VrsA | Form::VrsB | Form::VrsC | Form::Vrx => 6,
        }
    }

    /// Where the opcode's digits stand.
    pub fn opcode_digits(self) -> OpcodeDigits
        ensures { places result ≡ opcode_digits_of self }
    {
        match self {
            Form::Rr | Form::Rs | Form::Rx | Form::Si => OpcodeDigits::Two,
            Form::RiA | Form::RiB | Form::RiC => OpcodeDigits::Three,
            Form::RilA | Form::RilB | Form::RilC => OpcodeDigits::Three,
            Form::E | Form::Rrd | Form::Rre => OpcodeDigits::FourFront,
            Form::RrfAb | Form::RrfCde | Form::Sil => OpcodeDigits::FourFront,
            Form::RieA | Form::RieD | Form::RieF | Form::RieG => OpcodeDigits::FourEnds,
            Form::Rsy | Form::Rxy | Form::Siy => OpcodeDigits::FourEnds,
            Form::VriA | Form::VriB | Form::VriC | Form::VriK => OpcodeDigits::FourEnds,
            Form::VrrA | Form::VrrB | Form::VrrC => OpcodeDigits::FourEnds,
            Form::VrrD | Form::VrrE | Form::VrrF => OpcodeDigits::FourEnds,
            Form::VrsA | Form::VrsB | Form::VrsC | Form::Vrx => OpcodeDigits::FourEnds,
        }
    }

    /// The kinds of the operands, in order.
    pub fn kinds(self) -> &'static [OperandKind]
        ensures { result.now ≡ kinds_of self }
    {
        match self {
            Form::E => &[],
            Form::RiA => &[OperandKind::G, OperandKind::U16],
            Form::RiB => &[OperandKind::G, OperandKind::H16],
            Form::RiC => &[OperandKind::M, OperandKind::H16],
            Form::RieA => &[OperandKind::G, OperandKind::U16, OperandKind::M],
            Form::RieD => &[OperandKind::G, OperandKind::G, OperandKind::U16],
            Form::RieF => &[
                OperandKind::G,
                OperandKind::G,
                OperandKind::U8,
                OperandKind::U8,
                OperandKind::U8,
            ],
            Form::RieG => &[OperandKind::G, OperandKind::U16, OperandKind::M],
            Form::RilA => &[OperandKind::G, OperandKind::U32],
            Form::RilB => &[OperandKind::G, OperandKind::H32],
            Form::RilC => &[OperandKind::M, OperandKind::H32],
            Form::Rr => &[OperandKind::N, OperandKind::N],
            Form::Rrd => &[OperandKind::F, OperandKind::F, OperandKind::F],
            Form::Rre => &[OperandKind::N, OperandKind::N],
            Form::RrfAb => &[
                OperandKind::N,
                OperandKind::N,
                OperandKind::N,
                OperandKind::M,
            ],
            Form::RrfCde => &[
                OperandKind::N,
                OperandKind::N,
                OperandKind::M,
                OperandKind::M,
            ],
            Form::Rs => &[
                OperandKind::N,
                OperandKind::N,
                OperandKind::G,
                OperandKind::D12,
            ],
            Form::Rsy => &[
                OperandKind::N,
                OperandKind::N,
                OperandKind::G,
                OperandKind::D20,
            ],
            Form::Rx => &[
                OperandKind::N,
                OperandKind::G,
                OperandKind::G,
                OperandKind::D12,
            ],
            Form::Rxy => &[
                OperandKind::N,
                OperandKind::G,
                OperandKind::G,
                OperandKind::D20,
            ],
            Form::Si => &[OperandKind::G, OperandKind::D12, OperandKind::U8],
            Form::Sil => &[OperandKind::G, OperandKind::D12, OperandKind::S16],
            Form::Siy => &[OperandKind::G, OperandKind::D20, OperandKind::U8],
            Form::VriA => &[OperandKind::V, OperandKind::U16, OperandKind::M],
            Form::VriB => &[
                OperandKind::V,
                OperandKind::U8,
                OperandKind::U8,
                OperandKind::M,
            ],
            Form::VriC => &[
                OperandKind::V,
                OperandKind::U16,
                OperandKind::V,
                OperandKind::M,
            ],
            Form::VriK => &[
                OperandKind::U8,
                OperandKind::V,
                OperandKind::V,
                OperandKind::V,
                OperandKind::V,
            ],
            Form::VrrA => &[
                OperandKind::V,
                OperandKind::V,
                OperandKind::M,
                OperandKind::M,
                OperandKind::M,
            ],
            Form::VrrB => &[
                OperandKind::V,
                OperandKind::V,
                OperandKind::V,
                OperandKind::M,
                OperandKind::M,
            ],
            Form::VrrC => &[
                OperandKind::V,
                OperandKind::V,
                OperandKind::V,
                OperandKind::M,
                OperandKind::M,
                OperandKind::M,
            ],
            Form::VrrD => &[
                OperandKind::V,
                OperandKind::V,
                OperandKind::V,
                OperandKind::V,
                OperandKind::M,
                OperandKind::M,
            ],
            Form::VrrE => &[
                OperandKind::V,
                OperandKind::V,
                OperandKind::V,
                OperandKind::V,
                OperandKind::M,
                OperandKind::M,
            ],
            Form::VrrF => &[OperandKind::V, OperandKind::G, OperandKind::G],
            Form::VrsA => &[
                OperandKind::V,
                OperandKind::G,
                OperandKind::D12,
                OperandKind::V,
                OperandKind::M,
            ],
            Form::VrsB => &[
                OperandKind::V,
                OperandKind::G,
                OperandKind::D12,
                OperandKind::G,
                OperandKind::M,
            ],
            Form::VrsC => &[
                OperandKind::G,
                OperandKind::G,
                OperandKind::D12,
                OperandKind::V,
                OperandKind::M,
            ],
            Form::Vrx => &[
                OperandKind::V,
                OperandKind::G,
                OperandKind::G,
                OperandKind::D12,
                OperandKind::M,
            ],
        }
    }
}

impl fmt::Display for Form {
    ghost output = { λ x. Some (form_text x) };

    fn fmt<W: fmt::Write>(&self, f: &mut fmt::Formatter<W>) -> fmt::Result {
        match self {
            Form::E => f.write_str("E"),
            Form::RiA => f.write_str("RI-a"),
            Form::RiB => f.write_str("RI-b"),
            Form::RiC => f.write_str("RI-c"),
            Form::RieA => f.write_str("RIE-a"),
            Form::RieD => f.write_str("RIE-d"),
            Form::RieF => f.write_str("RIE-f"),
            Form::RieG => f.write_str("RIE-g"),
            Form::RilA => f.write_str("RIL-a"),
            Form::RilB => f.write_str("RIL-b"),
            Form::RilC => f.write_str("RIL-c"),
            Form::Rr => f.write_str("RR"),
            Form::Rrd => f.write_str("RRD"),
            Form::Rre => f.write_str("RRE"),
            Form::RrfAb => f.write_str("RRF-ab"),
            Form::RrfCde => f.write_str("RRF-cde"),
            Form::Rs => f.write_str("RS"),
            Form::Rsy => f.write_str("RSY"),
            Form::Rx => f.write_str("RX"),
            Form::Rxy => f.write_str("RXY"),
            Form::Si => f.write_str("SI"),
            Form::Sil => f.write_str("SIL"),
            Form::Siy => f.write_str("SIY"),
            Form::VriA => f.write_str("VRI-a"),
            Form::VriB => f.write_str("VRI-b"),
            Form::VriC => f.write_str("VRI-c"),
            Form::VriK => f.write_str("VRI-k"),
            Form::VrrA => f.write_str("VRR-a"),
            Form::VrrB => f.write_str("VRR-b"),
            Form::VrrC => f.write_str("VRR-c"),
            Form::VrrD => f.write_str("VRR-d"),
            Form::VrrE => f.write_str("VRR-e"),
            Form::VrrF => f.write_str("VRR-f"),
            Form::VrsA => f.write_str("VRS-a"),
            Form::VrsB => f.write_str("VRS-b"),
            Form::VrsC => f.write_str("VRS-c"),
            Form::Vrx => f.write_str("VRX"),
        }
    }
}
