use field::family::FieldPatch;
use field::verdict::FieldRefusal;
use std::test::Fail;

/// Patches zero bytes with each distance in turn: each is refused as given, or held where no refusal is.
pub(crate) fn patches<F: FieldPatch>(
    kind: u8,
    size: usize,
    cases: &[(i64, Option<FieldRefusal>)],
) -> Result<(), Fail> {
    for (wanted, refusal) in cases {
        let mut bytes = [0u8; 8];
        if size > 8 {
            return Err(Fail::new("more than 8 bytes"));
        }
        let part = &mut bytes[0..size];
        if F::patch(kind, part, *wanted).err() != *refusal {
            return Err(Fail::new("a patch answers otherwise"));
        }
        if refusal.is_none() && F::held(kind, part) != Ok(*wanted) {
            return Err(Fail::new("another distance is held"));
        }
    }
    Ok(())
}
