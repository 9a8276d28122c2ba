ghost use Rattle.std.specs.Prelude.{pos};
ghost use Rattle.field_tests.specs.Samples.{quarter_family};
ghost use Rattle.std.proofs.Common.{rules};
ghost use Rattle.field_tests.specs.SamplesLemmas.{quarter_lawful};

use field::aligned::AlignedField;
use field::family::{FieldPatch, FieldRead};
use field::info::FieldInfo;
use field::verdict::FieldRefusal;

/// Two bytes in the middle of four, in units of four bytes.
pub struct Quarters;

impl FieldRead for Quarters {
    ghost fields = { quarter_family.fields };

    ghost ALIGN = { pos 4 };

    const ALIGN: i64 = 4;

    ghost lawful = { Prim.search rules };

    ghost aligned = { Prim.search rules };

    fn info(kind: u8) -> Result<FieldInfo, FieldRefusal> {
        match kind {
            0 => Ok(FieldInfo {
                lead: 3,
                size: 4,
                first: 1,
                past: 3,
                least: -131_072,
                greatest: 131_068,
            }),
            _ => Err(FieldRefusal::Kind),
        }
    }

    fn held(kind: u8, bytes: &[u8]) -> Result<i64, FieldRefusal> {
        AlignedField {
            align: Self::ALIGN,
            info: Self::info(kind)?,
        }
        .held(bytes)
    }
}

impl FieldPatch for Quarters {
    ghost patched = { quarter_family.patched };

    ghost patches = { quarter_lawful };

    fn patch(kind: u8, bytes: &mut [u8], distance: i64) -> Result<(), FieldRefusal> {
        AlignedField {
            align: Self::ALIGN,
            info: Self::info(kind)?,
        }
        .overwrite(bytes, distance)
    }
}
