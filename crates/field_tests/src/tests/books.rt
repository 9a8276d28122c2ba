use book::label_book::LabelBook;
use book::target::{Slot, Target, Use};
use book::use_book::UseBook;
use refusal::Reason;
use std::alloc::Global;
use std::test::Fail;

/// A book with so many labels, or the answer that stopped it.
pub(crate) fn reserved(heap: Global, count: usize) -> Result<LabelBook, Reason> {
    let mut labels = LabelBook::new(heap)?;
    for _ in 0..count {
        let _ = labels.reserve()?;
    }
    Ok(labels)
}

fn recorded(heap: Global, count: usize) -> Result<UseBook, Reason> {
    let mut uses = UseBook::new(heap)?;
    for i in 0..count {
        uses.record_use(Use {
            place: i,
            kind: 1,
            target: Target::Label(0),
        })?;
    }
    Ok(uses)
}

#[test]
fn labels(rt: HostRuntime) -> Result<(), Fail> {
    let mut labels = reserved(rt.alloc(), 3).ok().ok_or("memory")?;
    assert!(rt; labels.bind(1, 6) == Ok(()) && labels.bind(1, 8) == Err(Reason::Label));
    assert!(rt; labels.slot(1) == Slot::Bound(6));
    labels.give_up(1);
    labels.give_up(2);
    labels.give_up(3);
    assert!(rt; labels.slot(0) == Slot::Waiting && labels.slot(1) == Slot::Bound(6));
    assert!(rt; labels.slot(2) == Slot::GivenUp);
    assert!(rt; labels.bind(2, 8) == Err(Reason::Label) && labels.bind(3, 8) == Err(Reason::Label));
    assert!(rt; labels.slot(3) == Slot::GivenUp);
    Ok(())
}

#[test]
fn full(rt: HostRuntime) {
    assert!(rt; reserved(rt.alloc(), 256).is_ok());
    assert!(rt; reserved(rt.alloc(), 257).err() == Some(Reason::Full));
    assert!(rt; recorded(rt.alloc(), 1024).is_ok());
    assert!(rt; recorded(rt.alloc(), 1025).err() == Some(Reason::Full));
}
