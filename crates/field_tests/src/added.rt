ghost use Rattle.std.specs.Prelude.{◌≡◌, pos, negsuc, ◌≤ℤ◌};
ghost use Rattle.refusal.specs.Numbers.{wrap};
ghost use Rattle.field_tests.specs.Samples.{added_family};
ghost use Rattle.std.proofs.Common.{rules};
ghost use Rattle.field_tests.specs.SamplesLemmas.{added_lawful};

use field::aligned::AlignedField;
use field::family::{FieldPatch, FieldRead};
use field::info::FieldInfo;
use field::verdict::FieldRefusal;

/// One byte that holds any distance; a patch adds to it.
pub struct Added;

/// The distance in eight bits.
fn cut(distance: i64) -> u8
    requires low { negsuc 127 ≤ℤ distance }
    requires high { distance ≤ℤ pos 127 }
    ensures { result ≡ wrap 8 distance }
{
    if distance < 0 {
        (distance + 256) as u8
    } else {
        distance as u8
    }
}

impl FieldRead for Added {
    ghost fields = { added_family.fields };

    ghost ALIGN = { pos 1 };

    const ALIGN: i64 = 1;

    ghost lawful = { Prim.search rules };

    ghost aligned = { Prim.search rules };

    fn info(kind: u8) -> Result<FieldInfo, FieldRefusal> {
        match kind {
            7 => Ok(FieldInfo {
                lead: 1,
                size: 1,
                first: 0,
                past: 1,
                least: -128,
                greatest: 127,
            }),
            _ => Err(FieldRefusal::Kind),
        }
    }

    fn held(kind: u8, bytes: &[u8]) -> Result<i64, FieldRefusal> {
        AlignedField {
            align: Self::ALIGN,
            info: Self::info(kind)?,
        }
        .held(bytes)
    }
}

impl FieldPatch for Added {
    ghost patched = { added_family.patched };

    ghost patches = { added_lawful };

    fn patch(kind: u8, bytes: &mut [u8], distance: i64) -> Result<(), FieldRefusal> {
        match kind {
            7 => {
                if bytes.len() < 1 {
                    return Err(FieldRefusal::Kind);
                }
                if distance < -128 || distance > 127 {
                    return Err(FieldRefusal::Far);
                }
                let b = bytes[0];
                bytes[0] = b.wrapping_add(cut(distance));
                Ok(())
            }
            _ => Err(FieldRefusal::Kind),
        }
    }
}
