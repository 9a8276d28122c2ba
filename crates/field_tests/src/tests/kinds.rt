use crate::added::Added;
use crate::quarters::Quarters;
use crate::tests::answers::patches;
use families::labels::Labels;
use families::relocations::Relocations;
use field::family::{FieldPatch, FieldRead};
use field::verdict::FieldRefusal::{Far, Kind, Odd};
use std::test::Fail;

// both ends, one past each, odd distances
#[test]
fn labels_short(rt: HostRuntime) -> Result<(), Fail> {
    assert!(rt; Labels::least(1) == Ok(-65_536) && Labels::greatest(1) == Ok(65_534));
    patches::<Labels>(
        1,
        4,
        &[
            (-65_536, None),
            (65_534, None),
            (0, None),
            (-65_537, Some(Far)),
            (-65_538, Some(Far)),
            (65_535, Some(Far)),
            (65_536, Some(Far)),
            (7, Some(Odd)),
            (-65_535, Some(Odd)),
        ],
    )
}

#[test]
fn labels_long(rt: HostRuntime) -> Result<(), Fail> {
    assert!(rt; Labels::least(2) == Ok(-4_294_967_295) && Labels::greatest(2) == Ok(4_294_967_294));
    patches::<Labels>(
        2,
        6,
        &[
            (-4_294_967_294, None),
            (4_294_967_294, None),
            (-4_294_967_295, Some(Odd)),
            (-4_294_967_296, Some(Far)),
            (4_294_967_295, Some(Far)),
            (i64::MIN, Some(Far)),
            (i64::MAX, Some(Far)),
            (1, Some(Odd)),
        ],
    )
}

#[test]
fn relocations_short(rt: HostRuntime) -> Result<(), Fail> {
    assert!(rt; Relocations::least(1) == Ok(-65_536) && Relocations::greatest(1) == Ok(65_534));
    patches::<Relocations>(
        1,
        2,
        &[
            (-65_536, None),
            (65_534, None),
            (-65_537, Some(Far)),
            (65_535, Some(Far)),
            (-1, Some(Odd)),
        ],
    )
}

#[test]
fn relocations_long(rt: HostRuntime) -> Result<(), Fail> {
    assert!(rt;
        Relocations::least(2) == Ok(-4_294_967_296) && Relocations::greatest(2) == Ok(4_294_967_294)
    );
    patches::<Relocations>(
        2,
        4,
        &[
            (-4_294_967_296, None),
            (4_294_967_294, None),
            (-4_294_967_297, Some(Far)),
            (4_294_967_295, Some(Far)),
            (3, Some(Odd)),
        ],
    )
}

#[test]
fn quarters() -> Result<(), Fail> {
    patches::<Quarters>(
        0,
        4,
        &[
            (-131_072, None),
            (131_068, None),
            (-131_073, Some(Far)),
            (131_069, Some(Far)),
            (2, Some(Odd)),
            (-1, Some(Odd)),
        ],
    )
}

#[test]
fn added() -> Result<(), Fail> {
    patches::<Added>(
        7,
        1,
        &[
            (-128, None),
            (127, None),
            (-1, None),
            (-129, Some(Far)),
            (128, Some(Far)),
        ],
    )
}

// one byte too few, and kinds that no family has
#[test]
fn too_few_bytes() -> Result<(), Fail> {
    patches::<Labels>(1, 3, &[(0, Some(Kind)), (65_536, Some(Kind))])?;
    patches::<Labels>(2, 5, &[(0, Some(Kind))])?;
    patches::<Relocations>(1, 1, &[(0, Some(Kind))])?;
    patches::<Relocations>(2, 3, &[(1, Some(Kind))])?;
    patches::<Labels>(0, 8, &[(0, Some(Kind))])?;
    patches::<Relocations>(3, 8, &[(0, Some(Kind))])
}

// the field's bytes, the others untouched; a field that was not zero is overwritten, or added to
#[test]
fn bytes_in_order(rt: HostRuntime) {
    let mut code = [0xc0u8, 0xf4, 1, 1, 1, 1, 9];
    assert!(rt; Labels::patch(2, &mut code, -4) == Ok(()) && Labels::held(2, &code) == Ok(-4));
    assert!(rt; code == [0xc0, 0xf4, 0xff, 0xff, 0xff, 0xfe, 9]);
    assert!(rt; Labels::patch(1, &mut code, 0x2468) == Ok(()));
    assert!(rt; code[2..5] == [0x12, 0x34, 0xff]);
    let mut byte = [3u8];
    assert!(rt; Added::patch(7, &mut byte, 4) == Ok(()) && byte == [7]);
}
