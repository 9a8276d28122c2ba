ghost use Rattle.std.specs.Prelude.{pos};
ghost use Rattle.field.specs.Family.{label_family};
ghost use Rattle.std.proofs.Common.{rules};
ghost use Rattle.families.specs.Families.{label_lawful};

use field::aligned::AlignedField;
use field::family::{FieldPatch, FieldRead};
use field::info::FieldInfo;
use field::verdict::FieldRefusal;

/// Branch fields: kind 1 is BranchRI, kind 2 BranchRIL.
pub struct Labels;

// The table stands here as it is read; what families share is written once in `field`, and a body that names its own constants is no shorter.

impl FieldRead for Labels {
    ghost fields = { label_family.fields };

    ghost ALIGN = { pos 2 };

    const ALIGN: i64 = 2;

    ghost lawful = { Prim.search rules };

    ghost aligned = { Prim.search rules };

    fn info(kind: u8) -> Result<FieldInfo, FieldRefusal> {
        let (size, least, greatest) = match kind {
            1 => (4, -65_536, 65_534),
            2 => (6, -4_294_967_295, 4_294_967_294),
            _ => return Err(FieldRefusal::Kind),
        };
        Ok(FieldInfo {
            lead: 0,
            size,
            first: 2,
            past: size,
            least,
            greatest,
        })
    }

    fn held(kind: u8, bytes: &[u8]) -> Result<i64, FieldRefusal> {
        AlignedField {
            align: Self::ALIGN,
            info: Self::info(kind)?,
        }
        .held(bytes)
    }
}

impl FieldPatch for Labels {
    ghost patched = { label_family.patched };

    ghost patches = { label_lawful };

    fn patch(kind: u8, bytes: &mut [u8], distance: i64) -> Result<(), FieldRefusal> {
        AlignedField {
            align: Self::ALIGN,
            info: Self::info(kind)?,
        }
        .overwrite(bytes, distance)
    }
}
