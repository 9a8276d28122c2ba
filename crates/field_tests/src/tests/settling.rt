use crate::added::Added;
use crate::quarters::Quarters;
use crate::tests::books::reserved;
use book::label_book::LabelBook;
use book::target::{Target, Use};
use families::labels::Labels;
use families::relocations::Relocations;
use field::family::FieldPatch;
use refusal::{Layer, Reason, Refusal};
use settle::{Places, settle};
use std::alloc::Global;
use std::test::Fail;

/// Two labels, the first bound at 12.
fn labels(heap: Global) -> Result<LabelBook, Fail> {
    let mut labels = reserved(heap, 2).ok().ok_or("memory")?;
    let _ = labels.bind(0, 12);
    Ok(labels)
}

fn settled<L: FieldPatch, S: FieldPatch>(
    uses: &[Use],
    labels: &LabelBook,
    symbols: &[i64],
    code: &mut [u8],
) -> Result<(), Refusal> {
    settle::<L, S>(uses, &Places { labels, symbols }, code)
}

fn refused(reason: Reason, place: usize, layer: Layer) -> Result<(), Refusal> {
    Err(Refusal {
        reason,
        place,
        layer,
    })
}

// a branch to the label, and one to the address of symbol 0 + 4
#[test]
fn fills_both(rt: HostRuntime) -> Result<(), Fail> {
    let labels = labels(rt.alloc())?;
    let uses = [
        Use {
            place: 0,
            kind: 1,
            target: Target::Label(0),
        },
        Use {
            place: 4,
            kind: 2,
            target: Target::Symbol(0, 4),
        },
    ];
    let mut code = [0xa7u8, 0xf4, 0, 0, 0xc0, 0x10, 0, 0, 0, 0, 0x07, 0xfe];
    assert!(rt; settled::<Labels, Relocations>(&uses, &labels, &[-4], &mut code) == Ok(()));
    assert!(rt; code[0] == 0xa7 && code[1] == 0xf4 && code[2] == 0 && code[3] == 6);
    assert!(rt;
        code[4] == 0xc0 && code[5] == 0x10 && code[6] == 255 && code[9] == 254 && code[10] == 0x07
    );
    Ok(())
}

// each use is fine but the second, which is named, whatever stands behind it; nothing is written
#[test]
fn refuses(rt: HostRuntime) -> Result<(), Fail> {
    let labels = labels(rt.alloc())?;
    let symbols = [8i64, 9, i64::MAX];
    let cases = [
        (
            Target::Label(1),
            2,
            refused(Reason::Unbound, 4, Layer::Address),
        ),
        (
            Target::Label(7),
            2,
            refused(Reason::Unbound, 4, Layer::Address),
        ),
        (
            Target::Symbol(3, 0),
            2,
            refused(Reason::Unbound, 4, Layer::Address),
        ),
        (
            Target::Symbol(1, 0),
            2,
            refused(Reason::Odd, 4, Layer::Field),
        ),
        (
            Target::Symbol(2, i32::MAX),
            2,
            refused(Reason::Far, 4, Layer::Field),
        ),
        (
            Target::Symbol(2, 0),
            2,
            refused(Reason::Far, 4, Layer::Field),
        ),
        (
            Target::Symbol(0, 0),
            3,
            refused(Reason::Kind, 4, Layer::Field),
        ),
    ];
    for (target, kind, expected) in &cases {
        let first = Use {
            place: 0,
            kind: 1,
            target: Target::Label(0),
        };
        let uses = [
            first,
            Use {
                place: 4,
                kind: *kind,
                target: *target,
            },
            Use {
                place: 9,
                kind: 9,
                target: Target::Label(9),
            },
        ];
        let mut code = [0xa7u8, 0xf4, 0, 0, 0xc0, 0x10, 0, 0, 0, 0];
        assert!(rt;
            settled::<Labels, Relocations>(&uses, &labels, &symbols, &mut code) == *expected
                && code[3] == 0
        );
    }
    Ok(())
}

// the family's bytes do not reach past the code; places far outside it
#[test]
fn past_the_end(rt: HostRuntime) -> Result<(), Fail> {
    let labels = labels(rt.alloc())?;
    let mut code = [0u8; 6];
    let cut = [Use {
        place: 1,
        kind: 2,
        target: Target::Label(0),
    }];
    assert!(rt;
        settled::<Labels, Relocations>(&cut, &labels, &[], &mut code)
            == refused(Reason::Kind, 1, Layer::Field)
    );
    let out = [Use {
        place: usize::MAX,
        kind: 1,
        target: Target::Symbol(0, 0),
    }];
    assert!(rt;
        settled::<Labels, Relocations>(&out, &labels, &[0], &mut code)
            == refused(Reason::Kind, usize::MAX, Layer::Field)
    );
    assert!(rt; settled::<Labels, Relocations>(&[], &labels, &[], &mut code) == Ok(()));
    Ok(())
}

// families with other leads, ranges and alignments: FAR and ODD are theirs
#[test]
fn other_families(rt: HostRuntime) -> Result<(), Fail> {
    let labels = labels(rt.alloc())?;
    let mut code = [1u8, 0, 0, 0, 0, 0, 0, 0, 0];
    let uses = [
        Use {
            place: 0,
            kind: 7,
            target: Target::Label(0),
        },
        Use {
            place: 2,
            kind: 0,
            target: Target::Symbol(0, 0),
        },
    ];
    assert!(rt; settled::<Added, Quarters>(&uses, &labels, &[-6], &mut code) == Ok(()));
    assert!(rt; code[1] == 12 && code[5] == 0 && code[6] == 255 && code[7] == 254);
    assert!(rt;
        settled::<Added, Quarters>(&uses, &labels, &[0], &mut code)
            == refused(Reason::Odd, 2, Layer::Field)
    );
    assert!(rt;
        settled::<Added, Quarters>(&uses, &labels, &[131_074], &mut code)
            == refused(Reason::Far, 2, Layer::Field)
    );
    assert!(rt;
        settled::<Quarters, Added>(&uses, &labels, &[0], &mut code)
            == refused(Reason::Kind, 0, Layer::Field)
            && code[1] == 12
    );
    Ok(())
}
